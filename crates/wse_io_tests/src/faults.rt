// What std's readers and writers answer once comes through once.
use std::alloc::Global;
use std::io::{self, ErrorKind, Read, Write};
use std::test::Fail;
use wse_disk::MemDisk;
use wse_io::{ReadFailed, ReaderSource, Sink, Source, WriteFailed, WriterSink};
use wse_path::Tree;

// A reader whose first read is interrupted.
#[derive(Drop)]
struct FailsOnce {
    reads: u64,
}

impl Read for FailsOnce {
    fn read(&mut self, _buf: &mut [u8]) -> io::Result<usize> {
        self.reads = self.reads.saturating_add(1);
        if self.reads == 1 {
            return Err(ErrorKind::Interrupted.into());
        }
        Ok(0)
    }
}

fn read_fails_once() -> bool {
    let mut reader = FailsOnce { reads: 0 };
    let mut source = ReaderSource::new(&mut reader);
    let answer = source.read(&mut [0; 3]);
    let faults = source.faults();
    drop(source);
    answer == Err(ReadFailed) && faults == 1 && reader.reads == 1
}

#[test]
fn a_reader_that_fails_is_not_read_again(rt: HostRuntime) -> Result<(), Fail> {
    assert!(rt; read_fails_once());
    Ok(())
}

// A writer that fails once, at a write or at a flush.
#[derive(Drop)]
struct Faulty {
    writes: u64,
    flushes: u64,
    fails_at_write: bool,
}

impl Write for Faulty {
    fn write(&mut self, buf: &[u8]) -> io::Result<usize> {
        self.writes = self.writes.saturating_add(1);
        if self.fails_at_write && self.writes == 1 {
            return Err(ErrorKind::Interrupted.into());
        }
        Ok(buf.len())
    }

    fn flush(&mut self) -> io::Result<()> {
        self.flushes = self.flushes.saturating_add(1);
        if !self.fails_at_write && self.flushes == 1 {
            return Err(ErrorKind::Interrupted.into());
        }
        Ok(())
    }
}

// Whether one emit fails once, after so many writes and flushes.
fn emit_fails_once(alloc: Global, fails_at_write: bool, calls: (u64, u64)) -> bool {
    let disk = MemDisk::never_failing(alloc, Tree::new(alloc));
    let mut writer = Faulty {
        writes: 0,
        flushes: 0,
        fails_at_write,
    };
    let mut sink = WriterSink::new(&mut writer);
    let answer = sink.emit(&disk, b"answer\n");
    let faults = sink.faults();
    drop(sink);
    answer == Err(WriteFailed) && faults == 1 && (writer.writes, writer.flushes) == calls
}

#[test]
fn a_writer_that_fails_is_not_written_again(rt: HostRuntime) -> Result<(), Fail> {
    assert!(rt; emit_fails_once(rt.alloc(), true, (1, 0)));
    Ok(())
}

#[test]
fn a_flush_that_fails_is_a_fault(rt: HostRuntime) -> Result<(), Fail> {
    assert!(rt; emit_fails_once(rt.alloc(), false, (1, 1)));
    Ok(())
}
