// The header of a journal.
ghost use Rattle.std.specs.Prelude.{◌≡◌, ◌≤◌, ◌++◌, List, ℕ, length, IfSome, IfNone};
ghost use Rattle.wse_log.specs.Grammar.{header, FailsHeader};

/// The first bytes of a journal. This project's own format.
const HEADER: [u8; 8] = *b"WSELOG01";

// The first place at which the bytes, at most eight, differ from the header or end. None where they are the header.
fn fault_in(bytes: &[u8]) -> Option<usize>
    requires { length bytes.now ≤ 8 }
    ensures none { IfNone result (bytes.now ≡ header) }
    ensures some { IfSome result (FailsHeader bytes.now) }
{
    for (place, byte) in HEADER.iter().enumerate() {
        if bytes.get(place) != Some(byte) {
            return Some(place);
        }
    }
    None
}

/// The first place at which the area differs from the header or ends. None where it begins with it.
pub(crate) fn header_fault(area: &[u8]) -> Option<usize>
    ensures none { IfNone result ((rest : List ℕ) × (area.now ≡ header ++ rest)) }
    ensures some { IfSome result (FailsHeader area.now) }
{
    let count = area.len().min(8);
    fault_in(&area[..count])
}
