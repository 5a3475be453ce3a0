// Whether the paths of parts rise.
ghost use Rattle.std.specs.Prelude.{◌≡◌};
ghost use Rattle.std.specs.FinMap.{is_sorted};
ghost use Rattle.std.specs.Ordering.{is_lt};
ghost use Rattle.wse_path.specs.Order.{path_cmp};
ghost use Rattle.wse_element.specs.Record.{by_path};

use crate::part::Part;

fn is_before(first: &Part, second: &Part) -> bool
    ensures { result ≡ is_lt (path_cmp first.now.path second.now.path) }
{
    first.path().cmp(second.path()).is_lt()
}

/// Whether each part's path is smaller than the next one's.
pub(crate) fn rise(parts: &[Part]) -> bool
    ensures { result ≡ is_sorted path_cmp (by_path parts.now) }
{
    for at in 1..parts.len() {
        if !is_before(&parts[at - 1], &parts[at]) {
            return false;
        }
    }
    true
}
