// Journals that are damaged.
use crate::store::{ELEMENTS, JOURNAL, bytes, with_journal};
use std::alloc::Global;
use std::test::Fail;
use wse_recover::{ReplayFault, read_journal};

// The journal ends here, or has this byte here.
enum Damage {
    Cut,
    Byte(u8),
}

// Where the damage is, what it is, and the first place at which the journal is no store's then.
type Row = (usize, Damage, u64);

const TABLE: [Row; 15] = [
    (60, Damage::Cut, 39),
    (39, Damage::Cut, 39),
    (20, Damage::Cut, 8),
    (8, Damage::Cut, 8),
    (5, Damage::Cut, 5),
    (0, Damage::Cut, 0),
    (44, Damage::Byte(7), 44),
    (0, Damage::Byte(0), 0),
    (57, Damage::Byte(9), 39),
    (8, Damage::Byte(0), 8),
    (38, Damage::Byte(0), 38),
    (9, Damage::Byte(255), 8),
    (40, Damage::Byte(255), 39),
    (29, Damage::Byte(0), 8),
    (13, Damage::Byte(1), 13),
];

// Of a journal whose first state has an element: a version that is too great for one command, a next id that is taken, an id
// that is 0, and a flag that is none.
const FIRST: [Row; 4] = [
    (40, Damage::Byte(4), 8),
    (29, Damage::Byte(1), 8),
    (52, Damage::Byte(0), 8),
    (72, Damage::Byte(2), 72),
];

fn damaged(alloc: Global, journal: &str, row: &Row) -> Result<Vec<u8>, Fail> {
    let mut all = bytes(alloc, journal)?;
    match row.1 {
        Damage::Cut => all.truncate(row.0),
        Damage::Byte(byte) => {
            if row.0 < all.len() {
                all[row.0] = byte;
            }
        }
    }
    Ok(all)
}

fn is_refused(alloc: Global, journal: &str, row: &Row) -> Result<bool, Fail> {
    let mut disk = with_journal(alloc, &damaged(alloc, journal, row)?);
    Ok(match read_journal(alloc, &mut disk) {
        Err(ReplayFault::NotAStore { at }) => at == row.2,
        _ => false,
    })
}

fn each_is_refused(alloc: Global, journal: &str, rows: &[Row]) -> Result<bool, Fail> {
    for row in rows {
        if !is_refused(alloc, journal, row)? {
            return Ok(false);
        }
    }
    Ok(true)
}

#[test]
fn a_damaged_journal_is_refused_at_its_first_place(rt: HostRuntime) -> Result<(), Fail> {
    assert!(rt; each_is_refused(rt.alloc(), JOURNAL, &TABLE)?);
    Ok(())
}

#[test]
fn a_first_state_that_is_none_is_refused(rt: HostRuntime) -> Result<(), Fail> {
    assert!(rt; each_is_refused(rt.alloc(), ELEMENTS, &FIRST)?);
    Ok(())
}
