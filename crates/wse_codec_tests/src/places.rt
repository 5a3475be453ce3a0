// Where bytes are refused.
use crate::made::{RECORD, bytes, is_read_so, is_right};
use std::alloc::Global;
use std::test::Fail;

/// Where each front of the record is refused, by its length. A plain program computed these tables.
const CUTS: &str = "\
    0 1 1 1 1 5 6 6 6 6 6 6 6 6 14 14 14 14 14 14 14 14 22 22 24 25 25 25 25 29 30 31 32 33 34 \
    35 36 37 37 37 37 41 42 43 44 45";

/// The same with one byte set to 0, by its place. A dash stands for a record.
const ZERO: &str = "\
    0 - - - 1 5 - - - - - - - - - - - - - - - - - - - - - - 25 29 29 29 - - - - 34 - - - - 41 42 \
    42 42 45";

/// The same with a byte set to ff.
const ONES: &str = "\
    0 46 46 46 46 5 - - - - - - - - - - - - - - - - 22 24 24 45 45 45 45 42 31 29 32 33 34 35 36 \
    41 41 41 41 41 46 44 42 45";

/// The same with a byte set to one more.
const MORE: &str = "\
    0 46 46 46 46 14 - - - - - - - - - - - - - - - - 24 32 - 45 45 45 45 29 29 - 34 33 34 40 36 \
    41 41 41 43 46 46 46 - -";

/// The record, and what was changed in it.
const WORKED: &str = "\
    01 00 00 00 02 01 00 00 00 00 00 00 00 01 00 00 00 00 00 00 00 01 00 00 02 00 00 00 01 01 01 \
    61 00 01 00 00 01 00 00 00 00 07 01 01 61 01|-\n\
    01 00 00 00 02 01 00 00 00 00 00 00 00 01 00 00 00 00 00 00 00 01 00 00 02 00 00 00 01 01 01 \
    61 00 01 00 00 01 00 00 00 00 07 01 01 61|45\n\
    01 00 00 00 02 01 00 00 00 00 00 00 00 01 00 00 00 00 00 00 00 01 00 00 02 00 00 00 01 01 01 \
    61 00 01 00 00 01 00 00 00 00 07 01 01 61 01 00|46\n\
    07 00 00 00 02 01 00 00 00 00 00 00 00 01 00 00 00 00 00 00 00 01 00 00 02 00 00 00 01 01 01 \
    61 00 01 00 00 01 00 00 00 00 07 01 01 61 01|0\n\
    01 00 00 00 00 01 00 00 00 00 00 00 00 01 00 00 00 00 00 00 00 01 00 00 02 00 00 00 01 01 01 \
    61 00 01 00 00 01 00 00 00 00 07 01 01 61 01|1\n\
    01 00 00 00 02 01 00 00 00 00 00 00 00 01 00 00 00 00 00 00 00 01 00 00 02 00 00 00 01 01 01 \
    61 00 01 01 00 01 00 00 00 00 07 01 01 61 01|34\n\
    01 00 00 00 02 01 00 00 00 00 00 00 00 01 00 00 00 00 00 00 00 01 00 00 02 00 00 00 01 01 01 \
    61 00 01 00 00 00 07 01 01 61 01|34";

/// A path of two segments, and what is no path: without a segment, with an empty one, `.`, `/`, no text, one that is cut.
const PATHS: &str = "\
    01 00 00 00 01 06 02 01 61 01 62|-\n\
    01 00 00 00 01 06 00|6\n\
    01 00 00 00 01 06 02 01 61 00|6\n\
    01 00 00 00 01 06 02 01 61 01 2e|6\n\
    01 00 00 00 01 06 01 02 61 2f|6\n\
    01 00 00 00 01 06 02 01 61 01 ff|6\n\
    01 00 00 00 01 06 02 01 61 05 62 62|10\n\
    01 00 00 00 01 06 02 01 2e 05 62 62|10";

/// Effects with numbers that may stand there and that may not.
const NUMBERS: &str = "\
    01 00 00 00 01 07 01 01 61 03|9\n\
    01 00 00 00 01 07 01 01 61 02|-\n\
    01 00 00 00 01 05 01 01 61 00|9\n\
    01 00 00 00 01 05 01 01 61 02|-\n\
    01 00 00 00 01 08 01 01 61 00|-\n\
    01 00 00 00 03 02 00 00 00 00 00 00 00 07 03 ff ff ff ff ff ff ff ff 04 00 00 00 00 00 00 00 \
    07 00 00 00 00 00 00 00 09|-\n\
    01 ff ff ff ff 06 01 01 61|9\n\
    01 00 00 00 01 08 01 01 61 01 ff ff ff ff 78|14\n\
    01 00 00 00 01 01 00 00 00 00 00 00 00 01 00 00 00 00 00 00 00 01 00 00 04 00 00 00 01 01 01 \
    61 00 01 00 00 01 00 00 00 00|24";

/// Parts that rise, fall, are equal; contents that suit the state or do not; a label, and one that is no text.
const PARTS: &str = "\
    01 00 00 00 01 01 00 00 00 00 00 00 00 01 00 00 00 00 00 00 00 01 00 00 02 00 00 00 02 01 01 \
    61 00 01 00 00 01 00 00 00 00 01 01 62 00 01 00 00 01 00 00 00 00|-\n\
    01 00 00 00 01 01 00 00 00 00 00 00 00 01 00 00 00 00 00 00 00 01 00 00 02 00 00 00 02 01 01 \
    62 00 01 00 00 01 00 00 00 00 01 01 61 00 01 00 00 01 00 00 00 00|41\n\
    01 00 00 00 01 01 00 00 00 00 00 00 00 01 00 00 00 00 00 00 00 01 00 00 02 00 00 00 02 01 01 \
    61 00 01 00 00 01 00 00 00 00 01 01 61 00 01 00 00 01 00 00 00 00|41\n\
    01 00 00 00 01 01 00 00 00 00 00 00 00 01 00 00 00 00 00 00 00 01 00 00 02 00 00 00 01 01 01 \
    61 01 00 00 00 00|-\n\
    01 00 00 00 01 01 00 00 00 00 00 00 00 01 00 00 00 00 00 00 00 01 00 00 02 00 00 00 01 01 01 \
    61 01 00 00 00 01 00 00 00 00|34\n\
    01 00 00 00 01 01 00 00 00 00 00 00 00 01 00 00 00 00 00 00 00 01 00 00 02 00 00 00 01 01 01 \
    61 00 01 00 01 00 00 00 01 78 01 00 00 00 01 78|34\n\
    01 00 00 00 01 01 00 00 00 00 00 00 00 01 00 00 00 00 00 00 00 01 00 02 61 62 02 00 00 00 01 \
    01 01 61 00 01 00 00 01 00 00 00 00|-\n\
    01 00 00 00 01 01 00 00 00 00 00 00 00 01 00 00 00 00 00 00 00 01 00 02 61 ff 02 00 00 00 01 \
    01 01 61 00 01 00 00 01 00 00 00 00|24";

fn are_right(alloc: Global, rows: &str) -> Result<bool, Fail> {
    for row in rows.split('\n') {
        if !is_right(alloc, row)? {
            return Ok(false);
        }
    }
    Ok(true)
}

fn are_cuts_refused(alloc: Global) -> Result<bool, Fail> {
    let record = bytes(alloc, RECORD)?;
    for (at, place) in CUTS.split(' ').enumerate() {
        let Some(front) = record.get(..at) else {
            return Ok(false);
        };
        if !is_read_so(alloc, front, place)? {
            return Ok(false);
        }
    }
    Ok(true)
}

fn with_byte(alloc: Global, at: usize, byte: u8) -> Result<Vec<u8>, Fail> {
    let mut record = bytes(alloc, RECORD)?;
    if at < record.len() {
        record[at] = byte;
    }
    Ok(record)
}

fn are_set_bytes_right(alloc: Global, places: &str, byte: u8) -> Result<bool, Fail> {
    for (at, place) in places.split(' ').enumerate() {
        let body = with_byte(alloc, at, byte)?;
        if !is_read_so(alloc, &body, place)? {
            return Ok(false);
        }
    }
    Ok(true)
}

fn are_raised_bytes_right(alloc: Global) -> Result<bool, Fail> {
    let record = bytes(alloc, RECORD)?;
    for (byte, (at, place)) in record.iter().zip(MORE.split(' ').enumerate()) {
        let body = with_byte(alloc, at, byte.wrapping_add(1))?;
        if !is_read_so(alloc, &body, place)? {
            return Ok(false);
        }
    }
    Ok(true)
}

#[test]
fn cut_and_changed_records_are_refused_at_the_first_wrong_field(
    rt: HostRuntime,
) -> Result<(), Fail> {
    let alloc = rt.alloc();
    assert!(rt; are_right(alloc, WORKED)?);
    assert!(rt; are_cuts_refused(alloc)?);
    assert!(rt; are_raised_bytes_right(alloc)?);
    Ok(())
}

#[test]
fn records_with_a_byte_set_are_read_or_refused(rt: HostRuntime) -> Result<(), Fail> {
    let alloc = rt.alloc();
    assert!(rt; are_set_bytes_right(alloc, ZERO, 0)?);
    assert!(rt; are_set_bytes_right(alloc, ONES, 255)?);
    Ok(())
}

#[test]
fn rows_of_records_are_read_or_refused(rt: HostRuntime) -> Result<(), Fail> {
    let alloc = rt.alloc();
    assert!(rt; are_right(alloc, PATHS)?);
    assert!(rt; are_right(alloc, NUMBERS)?);
    assert!(rt; are_right(alloc, PARTS)?);
    Ok(())
}
