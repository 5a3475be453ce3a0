// Entering a record's effects.
ghost use Rattle.std.specs.Prelude.{◌≡◌, ◌≢◌, [], true, false, Some, None, OnOk, IfOk, IsErrOf};
ghost use Rattle.wse_element.specs.Applicable.{first_refused, first_refused_of_kept};
ghost use Rattle.wse_element.specs.Effects.{kept_after};
ghost use Rattle.wse_codec.specs.Allowed.{IsAllowedRecord};
ghost use Rattle.wse_recover.specs.Held.{held, AreNumbersBounded, AreRaised};
ghost use Rattle.wse_recover.specs.Unsettled.{IsKeptOf};
ghost use Rattle.wse_recover.specs.declared.fault.EnterRefused.TheVariants.{NotApplicable};

use crate::bumps::raise_each;
use crate::fault::EnterRefused;
use crate::unsettled::{Unsettled, kept_of};
use std::alloc::Global;
use wse_element::Effects;
use wse_path::{Memory, Versions};
use wse_stacks::{ReserveRefused, Stacks};

// Prepares the effects, and answers whether each is applicable.
fn prepares(alloc: Global, stacks: &mut Stacks, effects: &Effects) -> Result<bool, Memory>
    requires some { effects.now ≢ [] }
    ensures state { stacks.new.state ≡ stacks.old.state }
    ensures prepared { IfOk result (λ is. is ≡ true → stacks.new.prepared ≡ Some effects.now) }
    ensures applicable { IfOk result (λ is. is ≡ true → first_refused stacks.old.state effects.now ≡ None) }
    ensures refused { IfOk result (λ is. is ≡ false → first_refused stacks.old.state effects.now ≢ None) }
{
    match stacks.reserve(alloc, effects.as_slice()) {
        Ok(()) => Ok(true),
        Err(ReserveRefused::NotApplicable { .. }) => Ok(false),
        Err(ReserveRefused::Memory) => Err(Memory),
    }
}

// Prepares the effects of one record and raises the versions, and answers whether each is applicable. If not, the versions are
// of no use any more.
fn tries(
    alloc: Global,
    stacks: &mut Stacks,
    versions: &mut Versions,
    effects: &Effects,
) -> Result<bool, Memory>
    requires allowed { IsAllowedRecord effects.now }
    requires bounded { AreNumbersBounded (held stacks.old versions.old) }
    ensures state { stacks.new.state ≡ stacks.old.state }
    ensures prepared { IfOk result (λ is. is ≡ true → stacks.new.prepared ≡ Some effects.now) }
    ensures may { IfOk result (λ is. is ≡ true → first_refused_of_kept (held stacks.old versions.old) effects.now ≡ None) }
    ensures raised { IfOk result (λ is. is ≡ true → AreRaised (held stacks.old versions.old) effects.now versions.new.entries) }
    ensures refused { IfOk result (λ is. is ≡ false → first_refused_of_kept (held stacks.old versions.old) effects.now ≢ None) }
{
    let _ = stacks.count();
    if !prepares(alloc, stacks, effects)? {
        return Ok(false);
    }
    if !raise_each(alloc, versions, effects.as_slice(), stacks.serial() + 1)? {
        return Ok(false);
    }
    Ok(true)
}

/// Enters the effects of one record, if each is applicable. Of one that isn't settled it answers what finishing it needs. After
/// a refusal the versions are of no use any more.
pub(crate) fn enter(
    alloc: Global,
    stacks: &mut Stacks,
    versions: &mut Versions,
    effects: Effects,
    settled: bool,
) -> Result<Option<Unsettled>, EnterRefused>
    requires allowed { IsAllowedRecord effects }
    requires bounded { AreNumbersBounded (held stacks.old versions.old) }
    ensures may { OnOk result (first_refused_of_kept (held stacks.old versions.old) effects ≡ None) }
    ensures entered { OnOk result (held stacks.new versions.new ≡ kept_after (held stacks.old versions.old) effects) }
    ensures bounded { OnOk result (AreNumbersBounded (held stacks.new versions.new)) }
    ensures last { IfOk result (IsKeptOf settled stacks.old.state effects) }
    ensures refused { IsErrOf result NotApplicable → first_refused_of_kept (held stacks.old versions.old) effects ≢ None }
{
    if !tries(alloc, stacks, versions, &effects)? {
        return Err(EnterRefused::NotApplicable);
    }
    let last = kept_of(alloc, stacks, &effects, settled)?;
    stacks.apply(effects);
    Ok(last)
}
