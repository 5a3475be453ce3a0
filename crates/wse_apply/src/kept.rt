// What becomes of an edit that fails.
ghost use Rattle.std.specs.Prelude.{◌≡◌, IfOk};
ghost use Rattle.wse_apply.specs.Kept.{all_edit_texts, edits_text, rule_of, rule_after, bumps_by};

use crate::reason::Reason;
use std::alloc::Global;
use wse_path::{Bumps, Change, Duplicate, FailureKind, Items, Memory, Numbered, Operation, What};

/// What becomes of what an edit reached.
#[derive(Clone, Copy)]
pub struct Rule {
    /// It stays; else the tree is as before.
    pub keeps: bool,
    /// By how much the versions rise of the paths where it differs.
    pub rise: u32,
}

const KEEPS: Rule = Rule {
    keeps: true,
    rise: 1,
};

const DROPS: Rule = Rule {
    keeps: false,
    rise: 0,
};

const UNDOES: Rule = Rule {
    keeps: false,
    rise: 2,
};

fn edits_text(operation: &Operation) -> bool
    ensures { result ≡ edits_text operation.now.what }
{
    match &operation.what {
        What::Text { .. } => true,
        What::Resource(_) => false,
    }
}

/// Whether every operation, as it was given, edits a text.
fn all_edit_texts(operations: &[Operation]) -> bool
    ensures { result ≡ all_edit_texts operations.now }
{
    operations.iter().all(|operation| edits_text(operation))
}

/// The rule after a failure (LSP 3.17, "FailureHandlingKind"; the versions are this project's own rule).
fn rule_of(kind: FailureKind, operations: &[Operation]) -> Rule
    ensures { result ≡ rule_of kind (all_edit_texts operations.now) }
{
    match kind {
        FailureKind::Abort => KEEPS,
        FailureKind::Transactional => DROPS,
        FailureKind::TextOnlyTransactional => {
            if all_edit_texts(operations) {
                return DROPS;
            }
            KEEPS
        }
        FailureKind::Undo => UNDOES,
    }
}

/// The rule of an edit, by what failed.
pub fn rule_after(
    failed: &Option<(u64, Reason)>,
    kind: FailureKind,
    operations: &[Operation],
) -> Rule
    ensures { result ≡ rule_after failed.now kind (all_edit_texts operations.now) }
{
    match failed {
        Some(_) => rule_of(kind, operations),
        None => KEEPS,
    }
}

/// The changed paths with how much their versions rise.
pub fn bumps_by(alloc: Global, rise: u32, changes: &[Change]) -> Result<Bumps, Memory>
    ensures { IfOk result (λ bumps. bumps ≡ bumps_by rise changes.now) }
{
    let mut bumps = Vec::new(alloc);
    if rise == 0 {
        return Ok(Items::new(bumps));
    }
    for change in changes {
        bumps.push(Numbered {
            path: change.path.duplicate(alloc)?,
            number: rise,
        })?;
    }
    Ok(Items::new(bumps))
}
