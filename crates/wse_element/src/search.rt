// Parts by their path. They stand in path order, so that halving finds one.
ghost use Rattle.std.specs.Prelude.{◌≡◌, ◌<◌, None, length, find, slice_index_or, IfOk, IfErr};
ghost use Rattle.std.specs.Option.{option_copied};
ghost use Rattle.std.specs.declared.cmp.Ordering.TheVariants.{Equal};
ghost use Rattle.wse_path.specs.Order.{path_cmp};
ghost use Rattle.wse_element.specs.Record.{RecordPart, AreParts};
ghost use Rattle.wse_element.specs.Live.{is_live_part_at, where_live};

use crate::part::Part;
use wse_path::RelPath;

// Where the part at the path stands, or would stand.
fn search(parts: &[Part], path: &RelPath) -> Result<usize, usize>
    requires { AreParts parts.now }
    ensures found { IfOk result (λ at. (at < length parts.now) × ((d : RecordPart) → path_cmp (slice_index_or parts.now at d).path path.now ≡ Equal)) }
    ensures absent { IfErr result (λ _. find (is_live_part_at path.now) parts.now ≡ None) }
{
    parts.binary_search_by(|part| part.path().cmp(path))
}

fn where_live(part: &Part) -> Option<&Part>
    ensures { option_copied result ≡ where_live part.now }
{
    if part.is_live() {
        return Some(part);
    }
    None
}

/// The live part at the path.
pub(crate) fn live_at<'a>(parts: &'a [Part], path: &RelPath) -> Option<&'a Part>
    requires { AreParts parts.now }
    ensures { option_copied result ≡ find (is_live_part_at path.now) parts.now }
{
    match search(parts, path) {
        Ok(at) => where_live(&parts[at]),
        Err(_) => None,
    }
}
