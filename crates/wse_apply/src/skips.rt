// What an edit leaves out.
ghost use Rattle.std.specs.Prelude.{◌≡◌, ◌++◌, IfOk, OnOk};
ghost use Rattle.wse_apply.specs.Skips.{skips_edit, skipped_edits, skips_at, skips_from};

use std::alloc::Global;
use wse_path::{Items, Memory, Operation, TextEdit, What};

/// An operation that is left out because it waits for a confirmation, or an edit of an operation that isn't. Both are
/// numbered as they were given.
#[derive(Drop)]
pub struct Skip {
    pub operation: u64,
    pub edit: Option<u64>,
}

/// Skips in the order of their numbers.
pub type Skips = Items<Skip>;

fn push_edit(
    skips: &mut Vec<Skip>,
    operation: u64,
    index: u64,
    edit: &TextEdit,
) -> Result<(), Memory>
    ensures { OnOk result (skips.new.items ≡ skips.old.items ++ skips_edit operation index edit.now) }
{
    if !edit.skipped {
        return Ok(());
    }
    skips.push(Skip {
        operation,
        edit: Some(index),
    })?;
    Ok(())
}

fn push_edits(skips: &mut Vec<Skip>, operation: u64, edits: &[TextEdit]) -> Result<(), Memory>
    ensures { OnOk result (skips.new.items ≡ skips.old.items ++ skipped_edits operation 0 edits.now) }
{
    for (index, edit) in edits.iter().enumerate() {
        push_edit(skips, operation, index as u64, edit)?;
    }
    Ok(())
}

fn push_skips(skips: &mut Vec<Skip>, index: u64, operation: &Operation) -> Result<(), Memory>
    ensures { OnOk result (skips.new.items ≡ skips.old.items ++ skips_at index operation.now) }
{
    if operation.skipped {
        skips.push(Skip {
            operation: index,
            edit: None,
        })?;
        return Ok(());
    }
    match &operation.what {
        What::Text { edits, .. } => push_edits(skips, index, edits.as_slice()),
        What::Resource(_) => Ok(()),
    }
}

/// What the operations leave out, whether or not it was reached.
pub fn skips_of(alloc: Global, operations: &[Operation]) -> Result<Skips, Memory>
    ensures { IfOk result (λ skips. skips ≡ skips_from 0 operations.now) }
{
    let mut skips = Vec::new(alloc);
    for (index, operation) in operations.iter().enumerate() {
        push_skips(&mut skips, index as u64, operation)?;
    }
    Ok(Items::new(skips))
}
