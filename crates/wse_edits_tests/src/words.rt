// What refusals say.
use std::alloc::{AllocError, Global};
use std::test::Fail;
use wse_edits::EditsRefused;
use wse_text::{Inside, NotText};

/// A refusal and its words.
type Told = (EditsRefused, &'static str);

const TOLD: [Told; 3] = [
    (
        EditsRefused::Inside {
            edit: 1,
            char_start: 30,
        },
        "edit 1: inside the character at byte 30",
    ),
    (
        EditsRefused::Overlap {
            first: 0,
            second: 12,
        },
        "edits 0 and 12 overlap",
    ),
    (EditsRefused::Memory, "out of memory"),
];

fn is_told(alloc: Global, row: &Told) -> Result<bool, AllocError> {
    let (why, want) = *row;
    Ok(why.to_string(alloc)?.as_str() == want)
}

fn tells_a_place(alloc: Global) -> Result<bool, AllocError> {
    let inside = Inside { char_start: 7 }.to_string(alloc)?;
    let not_text = NotText { at: 0 }.to_string(alloc)?;
    Ok(
        inside.as_str() == "inside the character at byte 7"
            && not_text.as_str() == "not UTF-8 at byte 0",
    )
}

#[test]
fn refusals_have_their_words(rt: HostRuntime) -> Result<(), Fail> {
    for row in &TOLD {
        assert!(rt; is_told(rt.alloc(), row)?);
    }
    assert!(rt; tells_a_place(rt.alloc())?);
    Ok(())
}
