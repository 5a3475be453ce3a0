// Whole streams, and those that a fault ends.
ghost use Rattle.std.specs.Prelude.{◌≤◌, ◌^◌};

use crate::client::{Got, Sent};
use crate::echo::Echo;
use std::alloc::Global;
use std::cell::Cell;
use std::test::Fail;
use wse_disk::MemDisk;
use wse_io::{MemSink, MemSource, Sink, Source};
use wse_path::Tree;
use wse_quiet_disk::QuietDisk;
use wse_server::{ServeEnd, Served, serve};

fn echo(alloc: Global) -> Echo {
    let disk = QuietDisk::new(MemDisk::never_failing(alloc, Tree::new(alloc)));
    Echo {
        disk,
        last: Vec::new(alloc),
    }
}

fn end_of<S: Source, K: Sink>(
    alloc: Global,
    source: &mut S,
    out: &mut K,
    max_input: u64,
) -> ServeEnd
    requires some { 1 ≤ max_input }
    requires countable { max_input ≤ 2 ^ 62 }
{
    let Served { disk: _, end } = serve(alloc, echo(alloc), source, out, max_input);
    end
}

fn answers_before_the_next(alloc: Global) -> bool {
    let answers = Cell::new(0);
    let mut source = Sent {
        lines: &[b"a\n", b"b\n", b"c\n"],
        sent: 0,
        answers: &answers,
        early: false,
    };
    let mut out = Got { answers: &answers };
    let end = end_of(alloc, &mut source, &mut out, 1000);
    end == ServeEnd::Done && !source.early && source.sent == 3 && answers.get() == 3
}

#[test]
fn a_client_that_waits_gets_each_answer(rt: HostRuntime) -> Result<(), Fail> {
    assert!(rt; answers_before_the_next(rt.alloc()));
    Ok(())
}

// Whether serving these bytes, in reads of two bytes at most, ends so and emits this. The read and the piece with these numbers
// fail; 0 is none.
fn gives(
    alloc: Global,
    input: &[u8],
    fails: (u64, u64),
    max_input: u64,
    end: ServeEnd,
    text: &[u8],
) -> Result<bool, Fail>
    requires some { 1 ≤ max_input }
    requires countable { max_input ≤ 2 ^ 62 }
{
    let mut source = MemSource::new(input.to_vec(alloc)?, 2, vec![in alloc; fails.0]?);
    let mut out = MemSink::new(alloc, 65536, vec![in alloc; fails.1]?);
    let ended = end_of(alloc, &mut source, &mut out, max_input);
    Ok(ended == end && out.bytes() == text)
}

#[test]
fn each_line_is_answered_in_the_state_behind_the_one_before(rt: HostRuntime) -> Result<(), Fail> {
    let alloc = rt.alloc();
    assert!(rt; gives(alloc, b"", (0, 0), 9, ServeEnd::Done, b"")?);
    assert!(rt; gives(alloc, b"a\n\nbc", (0, 0), 9, ServeEnd::Done, b"a\na\nbc\n")?);
    Ok(())
}

// What is answered to a line of so many bytes and one of two behind it.
fn behind_one_of(alloc: Global, count: usize) -> Result<MemSink, Fail> {
    let mut input = vec![in alloc; b'x'; count]?;
    input.extend_from_slice(b"\nab\n")?;
    let mut source = MemSource::new(input, 65536, Vec::new(alloc));
    let mut out = MemSink::new(alloc, 65536, Vec::new(alloc));
    let _ = end_of(alloc, &mut source, &mut out, 100_000_000);
    Ok(out)
}

// Lines of 33,554,432 bytes, the most, and of one more.
fn too_long_changes_nothing(alloc: Global) -> Result<bool, Fail> {
    let kept = behind_one_of(alloc, 33_554_432)?;
    let dropped = behind_one_of(alloc, 33_554_433)?;
    Ok(kept.bytes().len() == 67_108_868 && dropped.bytes() == b"long\nab\n".as_slice())
}

#[test]
fn a_line_that_is_too_long_changes_nothing(rt: HostRuntime) -> Result<(), Fail> {
    assert!(rt; too_long_changes_nothing(rt.alloc())?);
    Ok(())
}

#[test]
fn a_fault_ends_the_stream_behind_the_whole_answers(rt: HostRuntime) -> Result<(), Fail> {
    let alloc = rt.alloc();
    assert!(rt; gives(alloc, b"a\nb\n", (2, 0), 9, ServeEnd::Read, b"a\n")?);
    assert!(rt; gives(alloc, b"a\nb\n", (0, 2), 9, ServeEnd::Write, b"a\n")?);
    let passed = ServeEnd::InputLimit { taken: 6 };
    assert!(rt; gives(alloc, b"{}\n{}\n", (0, 0), 5, passed, b"{}\n")?);
    Ok(())
}
