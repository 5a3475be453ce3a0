// The worked journal, damaged in one place.
use crate::store::{JOURNAL, bytes, image};
use crate::told::told;
use std::alloc::Global;
use std::test::Fail;

// The journal ends here, or has this byte here.
enum Damage {
    Cut,
    Byte(u8),
}

// Where the damage is, what it is, and what is told of the image.
type Row = (usize, Damage, &'static str);

const TABLE: [Row; 17] = [
    (60, Damage::Cut, "none at 39"),
    (39, Damage::Cut, "none at 39"),
    (20, Damage::Cut, "none at 8"),
    (8, Damage::Cut, "none at 8"),
    (5, Damage::Cut, "none at 5"),
    (0, Damage::Cut, "none at 0"),
    (44, Damage::Byte(7), "none at 44"),
    (0, Damage::Byte(0), "none at 0"),
    (57, Damage::Byte(9), "none at 39"),
    (8, Damage::Byte(0), "none at 8"),
    (38, Damage::Byte(0), "none at 38"),
    (13, Damage::Byte(1), "none at 13"),
    (29, Damage::Byte(0), "none at 8"),
    (9, Damage::Byte(255), "none at 8"),
    (40, Damage::Byte(255), "none at 39"),
    (39, Damage::Byte(0), "k:1 / 1 0"),
    (91, Damage::Byte(7), "k:1 / a1 / 1 / 2 1"),
];

fn damaged(alloc: Global, row: &Row) -> Result<Vec<u8>, Fail> {
    let mut all = bytes(alloc, JOURNAL)?;
    match row.1 {
        Damage::Cut => all.truncate(row.0),
        Damage::Byte(byte) => {
            if row.0 < all.len() {
                all[row.0] = byte;
            }
        }
    }
    Ok(all)
}

fn is_told(alloc: Global, row: &Row) -> Result<bool, Fail> {
    let image = image(alloc, "k=k", damaged(alloc, row)?)?;
    Ok(told(alloc, &image)?.as_str() == row.2)
}

fn each_is_told(alloc: Global) -> Result<bool, Fail> {
    for row in &TABLE {
        if !is_told(alloc, row)? {
            return Ok(false);
        }
    }
    Ok(true)
}

#[test]
fn a_damaged_journal_is_none_at_its_first_place(rt: HostRuntime) -> Result<(), Fail> {
    assert!(rt; each_is_told(rt.alloc())?);
    Ok(())
}
