// A writer as a sink flushes each piece.
use std::alloc::Global;
use std::io::{self, Write};
use std::test::Fail;
use wse_disk::MemDisk;
use wse_io::{Sink, WriterSink};
use wse_path::Tree;

// A writer that keeps what is flushed apart from what isn't yet.
#[derive(Drop)]
struct Flushed {
    waiting: Vec<u8>,
    out: Vec<u8>,
}

impl Write for Flushed {
    fn write(&mut self, buf: &[u8]) -> io::Result<usize> {
        self.waiting.extend_from_slice(buf)?;
        Ok(buf.len())
    }

    fn flush(&mut self) -> io::Result<()> {
        self.out.append(&mut self.waiting)?;
        Ok(())
    }
}

// Whether the piece was out when the call answered.
fn is_out(alloc: Global, piece: &[u8]) -> Result<bool, Fail> {
    let disk = MemDisk::never_failing(alloc, Tree::new(alloc));
    let (waiting, out) = (Vec::new(alloc), Vec::new(alloc));
    let mut writer = Flushed { waiting, out };
    let mut sink = WriterSink::new(&mut writer);
    let emitted = sink.emit(&disk, piece);
    drop(sink);
    Ok(emitted == Ok(piece.len()) && writer.out.as_slice() == piece && writer.waiting.is_empty())
}

#[test]
fn a_writer_flushes_each_piece(rt: HostRuntime) -> Result<(), Fail> {
    assert!(rt; is_out(rt.alloc(), b"answer\n")?);
    Ok(())
}
