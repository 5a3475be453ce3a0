// Bytes made from text, and what is read of them.
use std::alloc::Global;
use std::test::Fail;
use wse_codec::{RecordRefused, read_record, read_state, write_record, write_state};

/// The effects of one command: element 1 makes the empty file `a`, whose version rises by 1.
pub const RECORD: &str = "\
    01 00 00 00 02 01 00 00 00 00 00 00 00 01 00 00 00 00 00 00 00 01 00 00 02 00 00 00 01 01 01 \
    61 00 01 00 00 01 00 00 00 00 07 01 01 61 01";

/// The bytes that stand there in pairs of digits.
pub fn bytes(alloc: Global, text: &str) -> Result<Vec<u8>, Fail> {
    let mut all = Vec::new(alloc);
    for pair in text.split(' ') {
        all.push(u8::from_str_radix(pair, 16)?)?;
    }
    Ok(all)
}

/// Whether the bytes are read as effects that are written so again.
#[tactic(auto, using(crate::proofs::Writable::writable))]
pub fn is_record(alloc: Global, body: &[u8]) -> Result<bool, Fail> {
    if body.len() > 2000 {
        return Ok(false);
    }
    let effects = read_record(alloc, body)?;
    let written = write_record(alloc, effects.as_slice())?;
    Ok(written.as_slice() == body)
}

/// The same for a state.
#[tactic(auto, using(crate::proofs::Writable::state_writable))]
pub fn is_state(alloc: Global, body: &[u8]) -> Result<bool, Fail> {
    if body.len() > 2000 {
        return Ok(false);
    }
    let state = read_state(alloc, body)?;
    let written = write_state(alloc, &state)?;
    Ok(written.as_slice() == body)
}

/// Whether the bytes are a record, where the place is a dash, or are refused at that place.
pub fn is_read_so(alloc: Global, body: &[u8], place: &str) -> Result<bool, Fail> {
    if place == "-" {
        return is_record(alloc, body);
    }
    let at: usize = place.parse()?;
    match read_record(alloc, body) {
        Ok(_) => Ok(false),
        Err(why) => Ok(why == RecordRefused::NotARecord { at }),
    }
}

/// The same for a state.
pub fn is_state_read_so(alloc: Global, body: &[u8], place: &str) -> Result<bool, Fail> {
    if place == "-" {
        return is_state(alloc, body);
    }
    let at: usize = place.parse()?;
    match read_state(alloc, body) {
        Ok(_) => Ok(false),
        Err(why) => Ok(why == RecordRefused::NotARecord { at }),
    }
}

/// Whether a row has bytes, a bar, and what is read of them.
pub fn is_right(alloc: Global, row: &str) -> Result<bool, Fail> {
    match row.split_once('|') {
        Some((body, place)) => is_read_so(alloc, &bytes(alloc, body)?, place),
        None => Ok(false),
    }
}

/// The same for a state.
pub fn is_state_right(alloc: Global, row: &str) -> Result<bool, Fail> {
    match row.split_once('|') {
        Some((body, place)) => is_state_read_so(alloc, &bytes(alloc, body)?, place),
        None => Ok(false),
    }
}
