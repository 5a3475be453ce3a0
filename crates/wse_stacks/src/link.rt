// Linking elements, one after another.
ghost use Rattle.std.specs.Prelude.{◌≡◌, None, IfOk};
ghost use Rattle.wse_element.specs.Linked.{IsLinked};
ghost use Rattle.wse_stacks.specs.Fits.{IsFirstUnfit};

use crate::fits::fits;
use crate::indexed::Indexed;
use crate::records::Records;
use std::alloc::Global;
use wse_element::Elements;
use wse_path::Memory;

/// Makes the list of the elements, or answers the place of the first that doesn't fit behind those before it.
pub(crate) fn link(
    records: &mut Records,
    alloc: Global,
    elements: Elements,
    next_id: u64,
) -> Result<Option<usize>, Memory>
    ensures linked { IfOk result (λ at. at ≡ None → (records.new ≡ elements) × IsLinked next_id elements) }
    ensures unlinked { IfOk result (IsFirstUnfit next_id elements) }
{
    let mut linked = Indexed::new(alloc);
    for element in elements.into_vec() {
        if !fits(&linked, &element, next_id) {
            return Ok(Some(linked.len()));
        }
        linked = linked.with(alloc, element)?;
    }
    *records = linked.into_records();
    Ok(None)
}
