// Lines of more bytes than the most, which is 3 here.
ghost use Rattle.std.specs.Prelude.{◌≤◌};

use crate::lines::{ends, gives, repeats};
use std::alloc::Global;
use std::test::Fail;
use wse_io::{Line, LineFault, Lines, MemSource, Source};

// Whether the next answer is a line that is too long, of so many bytes.
fn is_long<S: Source>(lines: &mut Lines, source: &mut S, count: u64) -> bool {
    match lines.next(source) {
        Ok(Line::TooLong { bytes }) => bytes == count,
        _ => false,
    }
}

fn keeps_the_most(alloc: Global, chunk: usize) -> Result<bool, Fail>
    requires { 1 ≤ chunk }
{
    let mut source = MemSource::new(b"abc\nabcd\nabc".to_vec(alloc)?, chunk, Vec::new(alloc));
    let mut lines = Lines::new(alloc, 3, 1000);
    let kept = gives(&mut lines, &mut source, &[b"abc"]);
    let long = is_long(&mut lines, &mut source, 4);
    let last = gives(&mut lines, &mut source, &[b"abc"]);
    Ok(kept && long && last && ends(&mut lines, &mut source))
}

#[test]
fn a_line_of_the_most_bytes_is_kept_and_one_more_is_too_long(rt: HostRuntime) -> Result<(), Fail> {
    assert!(rt; keeps_the_most(rt.alloc(), 1)?);
    assert!(rt; keeps_the_most(rt.alloc(), 2)?);
    assert!(rt; keeps_the_most(rt.alloc(), 65536)?);
    Ok(())
}

fn goes_on_behind(alloc: Global, chunk: usize) -> Result<bool, Fail>
    requires { 1 ≤ chunk }
{
    let bytes = b"abcdefghijk\nabcd\n\nab\nabcdefgh".to_vec(alloc)?;
    let mut source = MemSource::new(bytes, chunk, Vec::new(alloc));
    let mut lines = Lines::new(alloc, 3, 1000);
    let long = is_long(&mut lines, &mut source, 11) && is_long(&mut lines, &mut source, 4);
    let good = gives(&mut lines, &mut source, &[b"", b"ab"]);
    let last = is_long(&mut lines, &mut source, 8);
    Ok(long && good && last && ends(&mut lines, &mut source))
}

#[test]
fn a_line_that_is_too_long_is_read_to_its_end(rt: HostRuntime) -> Result<(), Fail> {
    assert!(rt; goes_on_behind(rt.alloc(), 1)?);
    assert!(rt; goes_on_behind(rt.alloc(), 2)?);
    assert!(rt; goes_on_behind(rt.alloc(), 65536)?);
    Ok(())
}

fn fails_within(alloc: Global) -> Result<bool, Fail> {
    let bytes = b"ab\nabcdefgh\nab\n".to_vec(alloc)?;
    let mut source = MemSource::new(bytes, 2, [5].to_vec(alloc)?);
    let mut lines = Lines::new(alloc, 3, 1000);
    let given = gives(&mut lines, &mut source, &[b"ab"]);
    let failed = repeats(&mut lines, &mut source, LineFault::Read);
    Ok(given && failed && source.faults() == 1 && source.left() == b"efgh\nab\n".as_slice())
}

#[test]
fn a_failed_read_ends_a_line_that_is_too_long(rt: HostRuntime) -> Result<(), Fail> {
    assert!(rt; fails_within(rt.alloc())?);
    Ok(())
}

// The input may have 9 bytes.
fn passes_the_limit(alloc: Global, text: &[u8], whole: bool) -> Result<bool, Fail> {
    let mut source = MemSource::new(text.to_vec(alloc)?, 65536, Vec::new(alloc));
    let mut lines = Lines::new(alloc, 3, 9);
    let long = !whole || is_long(&mut lines, &mut source, 7);
    let limit = LineFault::InputLimit { taken: 10 };
    Ok(long && repeats(&mut lines, &mut source, limit))
}

#[test]
fn the_limit_ends_a_line_that_is_too_long(rt: HostRuntime) -> Result<(), Fail> {
    assert!(rt; passes_the_limit(rt.alloc(), b"abcdefghijk\n", false)?);
    assert!(rt; passes_the_limit(rt.alloc(), b"abcdefghi\n", false)?);
    assert!(rt; passes_the_limit(rt.alloc(), b"abcdefg\nab\n", true)?);
    Ok(())
}
