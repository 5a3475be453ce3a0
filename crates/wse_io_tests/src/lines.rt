// Lines of sources in memory and of std's readers.
ghost use Rattle.std.specs.Prelude.{◌≤◌};

use std::alloc::Global;
use std::io::Cursor;
use std::test::Fail;
use wse_io::{Line, LineFault, Lines, MemSource, ReaderSource, Source};

fn is_line(answer: &Result<Line, LineFault>, text: &[u8]) -> bool {
    match answer {
        Ok(Line::Text(line)) => line.as_slice() == text,
        _ => false,
    }
}

// Whether the next answers are these lines.
pub fn gives<S: Source>(lines: &mut Lines, source: &mut S, want: &[&[u8]]) -> bool {
    for text in want {
        if !is_line(&lines.next(source), text) {
            return false;
        }
    }
    true
}

// Whether the next two answers are the end.
pub fn ends<S: Source>(lines: &mut Lines, source: &mut S) -> bool {
    let first = lines.next(source);
    let second = lines.next(source);
    matches!(first, Ok(Line::End)) && matches!(second, Ok(Line::End))
}

// Whether the next two answers are this fault.
pub fn repeats<S: Source>(lines: &mut Lines, source: &mut S, fault: LineFault) -> bool {
    let first = lines.next(source).err();
    let second = lines.next(source).err();
    first == Some(fault) && second == Some(fault)
}

fn cut_in_chunks(alloc: Global, chunk: usize) -> Result<bool, Fail>
    requires { 1 ≤ chunk }
{
    let bytes = b"one\n\n\r\nlast".to_vec(alloc)?;
    let mut source = MemSource::new(bytes, chunk, Vec::new(alloc));
    let mut lines = Lines::new(alloc, 1000, 1000);
    let given = gives(&mut lines, &mut source, &[b"one", b"", b"\r", b"last"]);
    Ok(given && ends(&mut lines, &mut source))
}

#[test]
fn lines_are_the_same_in_chunks_of_any_size(rt: HostRuntime) -> Result<(), Fail> {
    assert!(rt; cut_in_chunks(rt.alloc(), 1)?);
    assert!(rt; cut_in_chunks(rt.alloc(), 2)?);
    assert!(rt; cut_in_chunks(rt.alloc(), 65536)?);
    Ok(())
}

fn limit_after_a_line(alloc: Global) -> Result<bool, Fail> {
    let mut source = MemSource::new(b"{}\n{}\n".to_vec(alloc)?, 65536, Vec::new(alloc));
    let mut lines = Lines::new(alloc, 5, 5);
    let limit = LineFault::InputLimit { taken: 6 };
    Ok(gives(&mut lines, &mut source, &[b"{}"]) && repeats(&mut lines, &mut source, limit))
}

#[test]
fn the_limit_comes_after_the_whole_lines(rt: HostRuntime) -> Result<(), Fail> {
    assert!(rt; limit_after_a_line(rt.alloc())?);
    Ok(())
}

fn limit_in_a_piece(alloc: Global) -> Result<bool, Fail> {
    let mut source = MemSource::new(vec![in alloc; b' '; 5000]?, 65536, Vec::new(alloc));
    let mut lines = Lines::new(alloc, 1000, 1000);
    let limit = LineFault::InputLimit { taken: 1001 };
    Ok(repeats(&mut lines, &mut source, limit))
}

#[test]
fn a_long_piece_passes_the_limit(rt: HostRuntime) -> Result<(), Fail> {
    assert!(rt; limit_in_a_piece(rt.alloc())?);
    Ok(())
}

fn fault_after_a_line(alloc: Global) -> Result<bool, Fail> {
    let mut source = MemSource::new(b"{}\n{}\n".to_vec(alloc)?, 3, [2].to_vec(alloc)?);
    let mut lines = Lines::new(alloc, 1000, 1000);
    let given = gives(&mut lines, &mut source, &[b"{}"]);
    let failed = repeats(&mut lines, &mut source, LineFault::Read);
    Ok(given && failed && source.faults() == 1 && source.left() == b"{}\n".as_slice())
}

#[test]
fn a_failed_read_comes_after_the_whole_lines(rt: HostRuntime) -> Result<(), Fail> {
    assert!(rt; fault_after_a_line(rt.alloc())?);
    Ok(())
}

fn reader_is_read(alloc: Global) -> Result<bool, Fail> {
    let mut source = ReaderSource::new(Cursor::new(b"one\ntwo".to_vec(alloc)?));
    let mut lines = Lines::new(alloc, 1000, 1000);
    let given = gives(&mut lines, &mut source, &[b"one", b"two"]);
    Ok(given && ends(&mut lines, &mut source) && source.faults() == 0)
}

#[test]
fn readers_of_std_serve(rt: HostRuntime) -> Result<(), Fail> {
    assert!(rt; reader_is_read(rt.alloc())?);
    Ok(())
}
