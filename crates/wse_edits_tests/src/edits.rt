// Edits of short texts.
ghost use Rattle.std.specs.Prelude.{IfOk};
ghost use Rattle.std.specs.Str.{IsUtf8};

use std::alloc::Global;
use std::test::Fail;
use wse_edits::EditsRefused::{self, Inside, Overlap};
use wse_edits::{edited_slowly, resolve};
use wse_path::Encoding::{self, Utf8, Utf16, Utf32};
use wse_path::{Bytes, Memory, Position, Text, TextEdit};
use wse_splice::apply;

/// An edit: the line and the character of its start and of its end, its new text, and whether it is skipped.
type Given = ((u64, u64), (u64, u64), &'static str, bool);

/// A text, an encoding, edits, and the text after them.
type Case = (&'static str, Encoding, &'static [Given], &'static str);

const EDITED: [Case; 8] = [
    (
        "abc",
        Utf16,
        &[
            ((0, 1), (0, 1), "1", false),
            ((0, 1), (0, 1), "2", false),
            ((0, 1), (0, 2), "Z", false),
        ],
        "a12Zc",
    ),
    (
        "ab\ncd",
        Utf16,
        &[
            ((1, 0), (1, 1), "y", false),
            ((0, 1), (1, 0), "", false),
            ((0, 0), (0, 0), ">", false),
        ],
        ">ayd",
    ),
    ("abc", Utf16, &[((0, 2), (0, 1), "Z", false)], "aZc"),
    ("abc\nd", Utf16, &[((0, 1), (0, 9), "Z", false)], "aZ\nd"),
    ("abc\nd", Utf8, &[((7, 0), (7, 3), "!", false)], "abc\nd!"),
    (
        "abc",
        Utf32,
        &[
            ((0, 0), (0, 2), "A", false),
            ((0, 1), (0, 3), "B", true),
            ((0, 2), (0, 3), "C", false),
        ],
        "AC",
    ),
    ("a😀b", Utf16, &[((0, 1), (0, 3), "é", false)], "aéb"),
    ("a😀b", Utf16, &[], "a😀b"),
];

/// A text, edits with UTF-16 positions, and why they are refused.
type Refused = (&'static str, &'static [Given], EditsRefused);

const REFUSED: [Refused; 7] = [
    (
        "abc",
        &[((0, 1), (0, 2), "Z", false), ((0, 1), (0, 1), "1", false)],
        Overlap {
            first: 0,
            second: 1,
        },
    ),
    (
        "abcde",
        &[
            ((0, 0), (0, 2), "", false),
            ((0, 3), (0, 5), "", false),
            ((0, 1), (0, 4), "", false),
        ],
        Overlap {
            first: 0,
            second: 2,
        },
    ),
    (
        "abc",
        &[
            ((0, 0), (0, 2), "", false),
            ((0, 0), (0, 3), "", true),
            ((0, 1), (0, 3), "", false),
        ],
        Overlap {
            first: 0,
            second: 2,
        },
    ),
    (
        "abcdef",
        &[
            ((0, 0), (0, 6), "", false),
            ((0, 1), (0, 2), "", false),
            ((0, 3), (0, 4), "", false),
            ((0, 1), (0, 4), "", false),
        ],
        Overlap {
            first: 0,
            second: 1,
        },
    ),
    (
        "abcdef",
        &[
            ((0, 4), (0, 5), "", false),
            ((0, 2), (0, 3), "", false),
            ((0, 0), (0, 1), "", false),
            ((0, 2), (0, 6), "", false),
            ((0, 0), (0, 6), "", false),
        ],
        Overlap {
            first: 0,
            second: 3,
        },
    ),
    (
        "a😀b",
        &[
            ((0, 0), (0, 0), "", false),
            ((0, 0), (0, 2), "", false),
            ((0, 0), (0, 1), "", false),
            ((0, 0), (0, 1), "", false),
        ],
        Inside {
            edit: 1,
            char_start: 1,
        },
    ),
    (
        "a😀😀",
        &[((0, 4), (0, 2), "", false)],
        Inside {
            edit: 0,
            char_start: 5,
        },
    ),
];

fn position(place: (u64, u64)) -> Position {
    Position {
        line: place.0,
        character: place.1,
    }
}

fn edits_of(alloc: Global, list: &[Given]) -> Result<Vec<TextEdit>, Memory> {
    let mut edits = Vec::new(alloc);
    for (start, end, new_text, skipped) in list {
        let new_text = Text::new(String::from_str(alloc, new_text)?);
        edits.push(TextEdit {
            start: position(*start),
            end: position(*end),
            new_text,
            skipped: *skipped,
        })?;
    }
    Ok(edits)
}

/// The text after the edits, which needs no test for being one.
fn text_after(
    alloc: Global,
    text: &str,
    enc: Encoding,
    edits: &[TextEdit],
) -> Result<Bytes, EditsRefused>
    ensures { IfOk result IsUtf8 }
{
    let splices = resolve(alloc, text, enc, edits)?;
    let after = apply(alloc, text.as_bytes(), splices.as_slice())?;
    Ok(after)
}

/// The text after the edits is that one, by splices and place by place.
fn is_edited(alloc: Global, case: &Case) -> Result<bool, EditsRefused> {
    let (text, enc, list, want) = *case;
    let edits = edits_of(alloc, list)?;
    let after = text_after(alloc, text, enc, &edits)?;
    let slowly = edited_slowly(alloc, text, enc, &edits)?;
    Ok(after.as_slice() == want.as_bytes() && slowly.as_slice() == want.as_bytes())
}

fn is_refused(alloc: Global, case: &Refused) -> Result<bool, Memory> {
    let (text, list, want) = *case;
    let edits = edits_of(alloc, list)?;
    match resolve(alloc, text, Utf16, &edits) {
        Ok(_) => Ok(false),
        Err(refused) => Ok(refused == want),
    }
}

#[test]
fn edits_that_fit_make_a_text(rt: HostRuntime) -> Result<(), Fail> {
    for case in &EDITED {
        assert!(rt; is_edited(rt.alloc(), case)?);
    }
    Ok(())
}

#[test]
fn refusals_name_the_first_edit_or_pair(rt: HostRuntime) -> Result<(), Fail> {
    for case in &REFUSED {
        assert!(rt; is_refused(rt.alloc(), case)?);
    }
    Ok(())
}
