// Reading the fields that all else is made of.
ghost use Rattle.std.specs.Prelude.{◌≡◌, length, IfOk};
ghost use Rattle.std.specs.Int.{w16, w32, w64};
ghost use Rattle.wse_codec.specs.Pieces.{byte_at, number_at, run_at, count_at};
ghost use Rattle.wse_codec.specs.Reading.{counted_at, flag_at, segment_at};
ghost use Rattle.wse_codec.specs.Gives.{Gives};

use crate::unread::Unread;

/// The first byte, and the bytes behind it.
#[tactic(auto, unfolding(crate::specs::Pieces::byte_at))]
pub(crate) fn take_byte(bytes: &[u8]) -> Result<(u8, &[u8]), Unread>
    ensures { Gives (λ x. (x.0, x.1.now)) result (byte_at bytes.now) }
{
    match bytes {
        [] => Err(Unread::Wrong { left: 0 }),
        [byte, rest @ ..] => Ok((*byte, rest)),
    }
}

/// A number of two bytes.
#[tactic(auto, unfolding(crate::specs::Pieces::number_at))]
pub(crate) fn take_u16(bytes: &[u8]) -> Result<(u16, &[u8]), Unread>
    ensures { Gives (λ x. (x.0, x.1.now)) result (number_at w16 bytes.now) }
{
    if bytes.len() < 2 {
        return Err(Unread::Wrong { left: bytes.len() });
    }
    let (front, rest) = bytes.split_at(2);
    Ok((u16::from_be_bytes([front[0], front[1]]), rest))
}

/// A number of four bytes.
#[tactic(auto, unfolding(crate::specs::Pieces::number_at))]
pub(crate) fn take_u32(bytes: &[u8]) -> Result<(u32, &[u8]), Unread>
    ensures { Gives (λ x. (x.0, x.1.now)) result (number_at w32 bytes.now) }
{
    if bytes.len() < 4 {
        return Err(Unread::Wrong { left: bytes.len() });
    }
    let (front, rest) = bytes.split_at(4);
    let number = u32::from_be_bytes([front[0], front[1], front[2], front[3]]);
    Ok((number, rest))
}

/// A number of eight bytes.
#[tactic(auto, unfolding(crate::specs::Pieces::number_at))]
pub(crate) fn take_u64(bytes: &[u8]) -> Result<(u64, &[u8]), Unread>
    ensures { Gives (λ x. (x.0, x.1.now)) result (number_at w64 bytes.now) }
{
    if bytes.len() < 8 {
        return Err(Unread::Wrong { left: bytes.len() });
    }
    let (front, rest) = bytes.split_at(8);
    let number = u64::from_be_bytes([
        front[0], front[1], front[2], front[3], front[4], front[5], front[6], front[7],
    ]);
    Ok((number, rest))
}

/// That many bytes.
#[tactic(auto, unfolding(crate::specs::Pieces::run_at))]
pub(crate) fn take_run(len: usize, bytes: &[u8]) -> Result<(&[u8], &[u8]), Unread>
    ensures read { Gives (λ x. (x.0.now, x.1.now)) result (run_at len bytes.now) }
    ensures len { IfOk result (λ x. length x.0.now ≡ len) }
{
    if bytes.len() < len {
        return Err(Unread::Wrong { left: bytes.len() });
    }
    Ok(bytes.split_at(len))
}

/// A count that isn't 0.
#[tactic(auto, unfolding(crate::specs::Pieces::count_at))]
pub(crate) fn take_count(bytes: &[u8]) -> Result<(u32, &[u8]), Unread>
    ensures { Gives (λ x. (x.0, x.1.now)) result (count_at bytes.now) }
{
    let (count, rest) = take_u32(bytes)?;
    if count == 0 {
        return Err(Unread::Wrong { left: bytes.len() });
    }
    Ok((count, rest))
}

/// Four bytes of length, and that many bytes.
#[tactic(auto, unfolding(crate::specs::Reading::counted_at))]
pub(crate) fn take_counted(bytes: &[u8]) -> Result<(&[u8], &[u8]), Unread>
    ensures { Gives (λ x. (x.0.now, x.1.now)) result (counted_at bytes.now) }
{
    let (len, rest) = take_u32(bytes)?;
    take_run(len as usize, rest)
}

/// A byte of length, and that many bytes.
#[tactic(auto, unfolding(crate::specs::Reading::segment_at))]
pub(crate) fn take_segment(bytes: &[u8]) -> Result<(&[u8], &[u8]), Unread>
    ensures { Gives (λ x. (x.0.now, x.1.now)) result (segment_at bytes.now) }
{
    let (len, rest) = take_byte(bytes)?;
    take_run(len as usize, rest)
}

/// A byte that is 0 or 1.
#[tactic(auto, unfolding(crate::specs::Reading::flag_of, crate::specs::Pieces::coded_at))]
pub(crate) fn take_flag(bytes: &[u8]) -> Result<(bool, &[u8]), Unread>
    ensures { Gives (λ x. (x.0, x.1.now)) result (flag_at bytes.now) }
{
    let (byte, rest) = take_byte(bytes)?;
    match byte {
        0 => Ok((false, rest)),
        1 => Ok((true, rest)),
        _ => Err(Unread::Wrong { left: bytes.len() }),
    }
}
