// Positions in short texts, and bytes that are none.
use std::alloc::Global;
use std::test::Fail;
use wse_path::Encoding::{self, Utf8, Utf16, Utf32};
use wse_path::{Memory, Position};
use wse_text::{Inside, LineIndex, NotText, as_text, offset};

/// A text, an encoding, a line and a character, and their place in the text.
type Case = (&'static str, Encoding, u64, u64, Result<usize, Inside>);

const INSIDE: Result<usize, Inside> = Err(Inside { char_start: 1 });

const CASES: [Case; 24] = [
    ("ab\r\ncd", Utf16, 0, 99, Ok(2)),
    ("ab\r\ncd", Utf16, 1, 1, Ok(5)),
    ("ab\r\ncd", Utf16, 9, 0, Ok(6)),
    ("a😀b\n", Utf16, 0, 3, Ok(5)),
    ("a😀b\n", Utf8, 0, 5, Ok(5)),
    ("a😀b\n", Utf32, 0, 2, Ok(5)),
    ("a😀b\n", Utf16, 0, 2, INSIDE),
    ("a😀b\n", Utf8, 0, 4, INSIDE),
    ("a\rb", Utf16, 1, 0, Ok(2)),
    ("a\rb", Utf16, 1, 1, Ok(3)),
    ("a\rb", Utf16, 2, 0, Ok(3)),
    ("", Utf16, 0, 0, Ok(0)),
    ("", Utf16, 0, 7, Ok(0)),
    ("", Utf16, u64::MAX, u64::MAX, Ok(0)),
    ("a\n", Utf16, 0, 7, Ok(1)),
    ("a\n", Utf16, 1, 7, Ok(2)),
    ("a\n", Utf16, 2, 0, Ok(2)),
    ("a\r", Utf16, 0, 7, Ok(1)),
    ("a\r", Utf16, 1, 0, Ok(2)),
    ("a\n\rb", Utf16, 1, 7, Ok(2)),
    ("a\n\rb", Utf16, 2, 0, Ok(3)),
    ("a\r\r\nb", Utf16, 1, 7, Ok(2)),
    ("a\r\r\nb", Utf16, 2, 0, Ok(4)),
    ("a\r\r\nb", Utf16, 3, 0, Ok(5)),
];

/// A line of 24 characters of four bytes each between two lines that are short.
const LONG: &str = "ab\n😀😀😀😀😀😀😀😀😀😀😀😀😀😀😀😀😀😀😀😀😀😀😀😀\ncd";

/// Positions on it.
const ON_LONG: [Case; 8] = [
    (LONG, Utf16, 1, 36, Ok(75)),
    (LONG, Utf16, 1, 37, Err(Inside { char_start: 75 })),
    (LONG, Utf16, 1, 47, Err(Inside { char_start: 95 })),
    (LONG, Utf16, 1, 49, Ok(99)),
    (LONG, Utf8, 1, 68, Ok(71)),
    (LONG, Utf32, 1, 17, Ok(71)),
    (LONG, Utf16, 2, 1, Ok(101)),
    (LONG, Utf16, 0, 40, Ok(2)),
];

fn has_its_place(case: &Case) -> bool {
    let (text, enc, line, character, want) = *case;
    offset(text, enc, Position { line, character }) == want
}

fn has_its_place_by_the_index(alloc: Global, case: &Case) -> Result<bool, Memory> {
    let (text, enc, line, character, want) = *case;
    let index = LineIndex::of(alloc, text, enc)?;
    Ok(index.offset(text, enc, Position { line, character }) == want)
}

#[test]
fn positions_have_places(rt: HostRuntime) {
    for case in &CASES {
        assert!(rt; has_its_place(case));
    }
    for case in &ON_LONG {
        assert!(rt; has_its_place(case));
    }
}

#[test]
fn an_index_gives_the_same_places(rt: HostRuntime) -> Result<(), Fail> {
    for case in &CASES {
        assert!(rt; has_its_place_by_the_index(rt.alloc(), case)?);
    }
    for case in &ON_LONG {
        assert!(rt; has_its_place_by_the_index(rt.alloc(), case)?);
    }
    Ok(())
}

#[test]
fn only_utf8_is_text(rt: HostRuntime) {
    assert!(rt; as_text(b"a\xc3\xa9") == Ok("aé"));
    assert!(rt; as_text(b"a\xc3\xa9\xff") == Err(NotText { at: 3 }));
    assert!(rt; as_text(b"a\xc3") == Err(NotText { at: 1 }));
}
