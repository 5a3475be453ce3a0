// The numbers of a history, and their bounds.
ghost use Rattle.std.specs.Prelude.{◌≡◌};
ghost use Rattle.wse_path.specs.PathMap.{capped};
ghost use Rattle.wse_element.specs.Weight.{weight};
ghost use Rattle.wse_element.specs.Numbers.{is_bounded};

use wse_element::Element;

// How many commands a store records at most, how many ids each may take, and what all records count for at most.
const MAX_SERIAL: u64 = (1 << 30) - 1;

const MAX_IDS: u64 = 1 << 32;

const MAX_WEIGHT: u64 = 1 << 29;

/// What the records count for, or 2^64-1 where that is greater. Takes no memory.
pub fn weight(records: &[Element]) -> u64
    ensures { result ≡ capped (weight records.now) }
{
    let mut sum: u64 = 0;
    for element in records {
        sum = sum.saturating_add(element.weight());
    }
    sum
}

/// Whether the numbers are within their bounds. Takes no memory.
pub fn is_bounded(records: &[Element], next_id: u64, serial: u64) -> bool
    ensures { result ≡ is_bounded (record { records = records.now; next_id = next_id; serial = serial }) }
{
    if serial > MAX_SERIAL {
        return false;
    }
    1 <= next_id && next_id <= 1 + serial * MAX_IDS && weight(records) <= MAX_WEIGHT
}
