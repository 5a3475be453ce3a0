// Pieces of sinks in memory and of std's writers.
use std::alloc::Global;
use std::test::Fail;
use wse_disk::MemDisk;
use wse_io::{MemSink, WriteFailed, WriterSink, emit_all};
use wse_path::Tree;

// A sink of pieces of 3 bytes, whose emits with these numbers fail, after `answer` was emitted; and whether that succeeded.
fn emitted(alloc: Global, fails: &[u64]) -> Result<(MemSink, Result<(), WriteFailed>), Fail> {
    let disk = MemDisk::never_failing(alloc, Tree::new(alloc));
    let mut sink = MemSink::new(alloc, 3, fails.to_vec(alloc)?);
    let outcome = emit_all(&mut sink, &disk, b"answer\n");
    Ok((sink, outcome))
}

fn all_in_pieces(alloc: Global) -> Result<bool, Fail> {
    let (sink, outcome) = emitted(alloc, &[])?;
    let whole = outcome == Ok(()) && sink.bytes() == b"answer\n".as_slice();
    let counts: Vec<usize> = sink.marks().iter().map(|mark| mark.count).collect(alloc)?;
    Ok(whole && counts.as_slice() == [3, 3, 1].as_slice() && sink.faults() == 0)
}

#[test]
fn a_sink_takes_all_bytes_in_pieces(rt: HostRuntime) -> Result<(), Fail> {
    assert!(rt; all_in_pieces(rt.alloc())?);
    Ok(())
}

fn stops_at_the_second(alloc: Global) -> Result<bool, Fail> {
    let (sink, outcome) = emitted(alloc, &[2])?;
    let front = outcome == Err(WriteFailed) && sink.bytes() == b"ans".as_slice();
    Ok(front && sink.faults() == 1 && sink.starved() == 0)
}

#[test]
fn a_sink_fails_at_its_second_piece(rt: HostRuntime) -> Result<(), Fail> {
    assert!(rt; stops_at_the_second(rt.alloc())?);
    Ok(())
}

fn writer_is_written(alloc: Global) -> Result<bool, Fail> {
    let disk = MemDisk::never_failing(alloc, Tree::new(alloc));
    let mut out = Vec::new(alloc);
    let mut sink = WriterSink::new(&mut out);
    let emitted = emit_all(&mut sink, &disk, b"answer\n");
    let faults = sink.faults();
    drop(sink);
    Ok(emitted == Ok(()) && faults == 0 && out.as_slice() == b"answer\n".as_slice())
}

#[test]
fn writers_of_std_serve(rt: HostRuntime) -> Result<(), Fail> {
    assert!(rt; writer_is_written(rt.alloc())?);
    Ok(())
}
