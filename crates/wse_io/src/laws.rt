// What sources and sinks tell and count.
ghost use Rattle.std.specs.Prelude.{◌≡◌, Some};

use crate::adapter::{ReaderSource, WriterSink};
use crate::mem::{MemSink, MemSource};
use crate::sink::Sink;
use crate::source::Source;
use std::io::{Read, Write};

/// A source in memory tells the bytes that `left` and `left_before` give, and counts the faults that `faults` gives.
pub fn mem_source_tells(source: &MemSource)
    ensures left { ⟦<MemSource as Source>⟧.left source.now ≡ Some source.now.left }
    ensures before { ⟦<MemSource as Source>⟧.left_before source.now ≡ Some source.now.before }
    ensures faults { ⟦<MemSource as Source>⟧.faults source.now ≡ source.now.counts.faults }
{}

/// A sink in memory tells the pieces that `bytes` and `marks` give, and counts the faults that `faults` gives.
pub fn mem_sink_tells(sink: &MemSink)
    ensures pieces { ⟦<MemSink as Sink>⟧.pieces sink.now ≡ Some sink.now.pieces }
    ensures faults { ⟦<MemSink as Sink>⟧.faults sink.now ≡ sink.now.counts.faults }
{}

/// A reader as a source counts the faults that `faults` gives.
pub fn reader_source_counts<R: Read + Drop>(source: &ReaderSource<R>)
    ensures { ⟦<ReaderSource<R> as Source>⟧.faults source.now ≡ source.now.faults }
{}

/// A writer as a sink counts the faults that `faults` gives.
pub fn writer_sink_counts<W: Write + Drop>(sink: &WriterSink<W>)
    ensures { ⟦<WriterSink<W> as Sink>⟧.faults sink.now ≡ sink.now.faults }
{}
