// Taking a store's tree as it is.
ghost use Rattle.std.specs.Prelude.{◌≡◌, ◌≢◌, ◌≤◌, ◌++◌, ◌∷◌, [], ◌^◌, length, true, None, IfOk, IfErr, OnOk};
ghost use Rattle.std.specs.Option.{option_or};
ghost use Rattle.std.specs.List.{All};
ghost use Rattle.std.specs.FinMap.{is_sorted};
ghost use Rattle.wse_path.specs.Limits.{standard};
ghost use Rattle.wse_path.specs.Order.{path_cmp};
ghost use Rattle.wse_path.specs.Versions.{known};
ghost use Rattle.wse_apply.specs.Limit.{are_within, limit_hit, hit_above};
ghost use Rattle.wse_disk.specs.LeavesOnly.{LeavesOnly};
ghost use Rattle.wse_disk.specs.Told.{IsTold, IsAtRest};
ghost use Rattle.wse_element.specs.declared.effect.Effect.TheVariants.{Invalidate, Bump};
ghost use Rattle.wse_element.specs.Applicable.{first_refused_of_kept};
ghost use Rattle.wse_element.specs.Effects.{kept_after, state_after, versions_after_each};
ghost use Rattle.wse_element.specs.Linked.{IsStateLinked};
ghost use Rattle.wse_element.specs.State.{State};
ghost use Rattle.wse_codec.specs.Allowed.{IsAllowedPath, IsAllowedRecord, IsSpellable};
ghost use Rattle.wse_codec.specs.Comes.{MayCome};
ghost use Rattle.wse_disk.specs.Changes.{LeadsToTree};
ghost use Rattle.wse_history.specs.Done.{new_known};
ghost use Rattle.wse_stacks.specs.Paths.{keyed};
ghost use Rattle.wse_stacks.specs.Stacks.{HaveParts};
ghost use Rattle.wse_txn.specs.Command.{IsAt, StandsForOneOf};
ghost use Rattle.wse_txn.specs.Outcomes.{TellsAsBefore};
ghost use Rattle.wse_recover.specs.Adopting.{adopting, adopting_hit};
ghost use Rattle.wse_recover.specs.Comparing.{RefusesAdopting, idle_in, disk_of_written, FailedOrStayed, CountsWritten};
ghost use Rattle.wse_recover.specs.Differing.{AreDiffering};
ghost use Rattle.wse_recover.specs.Held.{held, AreNumbersBounded};
ghost use Rattle.wse_recover.specs.Open.{opened_state, disk_of_open};
ghost use Rattle.wse_recover.specs.Opening.{CountsOpen};

use crate::enter::enter;
use crate::fault::EnterRefused;
use crate::open::{OpenFault, Opened};
use std::alloc::Global;
use wse_disk::Disk;
use wse_element::{Effect, Effects, Plan};
use wse_path::{Changes, Duplicate, Files, Hit, Limits, Memory, RelPath, Versions, Which};
use wse_stacks::Stacks;
use wse_txn::{DraftRefused, Idle, write};

// Adds the effects at one path. It tells that the path may be spelled.
fn push_effects(effects: &mut Vec<Effect>, alloc: Global, path: &RelPath) -> Result<(), Memory>
    ensures pushed { OnOk result (effects.new.items ≡ effects.old.items ++ (Invalidate path.now ∷ Bump path.now 1 ∷ [])) }
    ensures allowed { IsAllowedPath path.now }
{
    let _ = path.depth();
    effects.push(Effect::Invalidate {
        path: path.duplicate(alloc)?,
    })?;
    effects.push(Effect::Bump {
        path: path.duplicate(alloc)?,
        by: 1,
    })?;
    Ok(())
}

// The effects at all paths.
fn effects_at(alloc: Global, paths: &[RelPath]) -> Result<Effects, Memory>
    ensures effects { IfOk result (λ effects. effects ≡ adopting paths.now) }
    ensures allowed { OnOk result (All IsAllowedPath paths.now) }
{
    let mut effects = Vec::new(alloc);
    for path in paths {
        push_effects(&mut effects, alloc, path)?;
    }
    Ok(Effects::new(effects))
}

// What the path counts for where it has no version yet, and else nothing.
fn new_known(versions: &Versions, path: &RelPath) -> u64
    ensures { result ≡ new_known versions.now.entries path.now }
{
    if versions.get(path) == 0 {
        32 + path.text_len() as u64
    } else {
        0
    }
}

// What is known once each of the paths has a version. Takes no memory.
fn known_with(versions: &Versions, paths: &[RelPath]) -> u64
    requires rises { is_sorted path_cmp (keyed paths.now) ≡ true }
    ensures { result ≡ known (versions_after_each versions.now.entries (adopting paths.now)) }
{
    let mut known = versions.known();
    for path in paths {
        known = known.saturating_add(new_known(versions, path));
    }
    known
}

// The limit that the adopted state passes, which knows so much and has so many commands recorded.
fn hit(limits: &Limits, known: u64, serial: u64) -> Option<Hit>
    ensures { result ≡ option_or (hit_above Which.Known limits.now.known known) (hit_above Which.Serial limits.now.serial serial) }
{
    if known > limits.known {
        return Some(Hit {
            which: Which::Known,
            would_be: known,
        });
    }
    if serial > limits.serial {
        return Some(Hit {
            which: Which::Serial,
            would_be: serial,
        });
    }
    None
}

// Enters the effects at the paths, and gives the plan of their record.
fn entered(
    alloc: Global,
    stacks: &mut Stacks,
    versions: &mut Versions,
    paths: &[RelPath],
) -> Result<Plan, Memory>
    requires bounded { AreNumbersBounded (held stacks.old versions.old) }
    requires few { length paths.now ≤ 2 ^ 30 }
    requires some { paths.now ≢ [] }
    requires may { first_refused_of_kept (held stacks.old versions.old) (adopting paths.now) ≡ None }
    ensures effects { IfOk result (λ plan. plan.effects ≡ adopting paths.now) }
    ensures changes { IfOk result (λ plan. plan.changes ≡ []) }
    ensures allowed { OnOk result (IsAllowedRecord (adopting paths.now)) }
    ensures kept { OnOk result (held stacks.new versions.new ≡ kept_after (held stacks.old versions.old) (adopting paths.now)) }
    ensures bounded { OnOk result (AreNumbersBounded (held stacks.new versions.new)) }
{
    let effects = effects_at(alloc, paths)?;
    let copy = effects.duplicate(alloc)?;
    match enter(alloc, stacks, versions, copy, true) {
        Ok(_) => Ok(Plan {
            effects,
            changes: Changes::new(Vec::new(alloc)),
        }),
        Err(EnterRefused::Memory) => Err(Memory),
        Err(EnterRefused::NotApplicable) => unreachable!(),
    }
}

fn idle_in<D: Disk>(refused: DraftRefused<D>) -> Idle<D>
    ensures { result ≡ idle_in refused }
{
    match refused {
        DraftRefused::Memory(idle) => idle,
    }
}

// Writes the record of the plan.
fn written<D: Disk>(alloc: Global, idle: Idle<D>, plan: Plan) -> Result<Idle<D>, OpenFault<D>>
    requires rests { IsAtRest (D.told idle.disk) }
    requires spellable { IsSpellable plan.effects }
    requires none { plan.changes ≡ [] }
    requires leads { LeadsToTree (D.told idle.disk) plan.changes }
    ensures during { (s : State) → IsAt s idle.area idle.gate (D.told idle.disk) → MayCome s plan
        → LeavesOnly (D.told idle.disk) (D.told (disk_of_written result)) (StandsForOneOf s (state_after s plan.effects)) }
    ensures at { (s : State) → IsAt s idle.area idle.gate (D.told idle.disk) → MayCome s plan
        → IfOk result (λ new. IsAt (state_after s plan.effects) new.area new.gate (D.told new.disk)) }
    ensures rests { IfOk result (λ new. IsAtRest (D.told new.disk)) }
    ensures tells { IfOk result (λ new. TellsAsBefore (D.told idle.disk) (D.told new.disk)) }
    ensures refused { IfErr result (FailedOrStayed D.told idle.disk) }
    ensures later { D.moment_of idle.disk ≤ D.moment_of (disk_of_written result) }
    ensures counts { CountsWritten D.faults idle.disk result }
{
    match idle.draft(alloc, plan) {
        Ok(drafted) => match write(drafted) {
            Ok((idle, _)) => Ok(idle),
            Err(disk) => Err(OpenFault::Disk(disk)),
        },
        Err(refused) => Err(OpenFault::Memory(idle_in(refused).into_disk())),
    }
}

// Writes the record of adopting at these paths, and enters it.
fn recorded<D: Disk>(
    alloc: Global,
    opened: Opened<D>,
    paths: &[RelPath],
    limits: &Limits,
) -> Result<Opened<D>, OpenFault<D>>
    requires within { are_within limits.now standard ≡ true }
    requires rests { IsAtRest (D.told opened.idle.disk) }
    requires at { IsTold (D.told opened.idle.disk) → IsAt (opened_state opened) opened.idle.area opened.idle.gate (D.told opened.idle.disk) }
    requires bounded { AreNumbersBounded (held opened.stacks opened.versions) }
    requires differ { AreDiffering opened.tree.files opened.stacks.state.records paths.now }
    requires some { paths.now ≢ [] }
    requires passes { adopting_hit limits.now (state_after (opened_state opened) (adopting paths.now)) ≡ None }
    ensures adopted { IfOk result (λ o. opened_state o ≡ state_after (opened_state opened) (adopting paths.now)) }
    ensures tree { IfOk result (λ o. o.tree ≡ opened.tree) }
    ensures at { IfOk result (λ o. IsTold (D.told o.idle.disk) → IsAt (state_after (opened_state opened) (adopting paths.now)) o.idle.area o.idle.gate (D.told o.idle.disk)) }
    ensures rests { IfOk result (λ o. IsAtRest (D.told o.idle.disk)) }
    ensures tells { IfOk result (λ o. TellsAsBefore (D.told opened.idle.disk) (D.told o.idle.disk)) }
    ensures linked { IfOk result (λ o. IsStateLinked (opened_state o)) }
    ensures parts { IfOk result (λ o. HaveParts o.stacks.state.records) }
    ensures during { IsTold (D.told opened.idle.disk) → LeavesOnly (D.told opened.idle.disk) (D.told (disk_of_open result))
        (StandsForOneOf (opened_state opened) (state_after (opened_state opened) (adopting paths.now))) }
    ensures refused { IfErr result (FailedOrStayed D.told opened.idle.disk) }
    ensures later { D.moment_of opened.idle.disk ≤ D.moment_of (disk_of_open result) }
    ensures counts { CountsOpen D.faults opened.idle.disk result }
{
    // They stand in contracts alone.
    let _ = limits;
    let _ = opened.stacks.count();
    let Opened {
        idle,
        mut stacks,
        mut versions,
        tree,
    } = opened;
    let Ok(plan) = entered(alloc, &mut stacks, &mut versions, paths) else {
        return Err(OpenFault::Memory(idle.into_disk()));
    };
    let idle = written(alloc, idle, plan)?;
    let _ = stacks.count();
    Ok(Opened {
        idle,
        stacks,
        versions,
        tree,
    })
}

/// Takes the tree as it is at these paths, at which it differs: the history is invalid there, and the versions rise by one. One
/// record says so. A crash at any moment leaves a disk that stands for the state before it or for the one after it. Where a limit
/// is passed, or there is no memory, nothing is written.
pub(crate) fn adopted<D: Disk>(
    alloc: Global,
    opened: Opened<D>,
    paths: Files,
    limits: &Limits,
) -> Result<Opened<D>, OpenFault<D>>
    requires within { are_within limits.now standard ≡ true }
    requires rests { IsAtRest (D.told opened.idle.disk) }
    requires at { IsTold (D.told opened.idle.disk) → IsAt (opened_state opened) opened.idle.area opened.idle.gate (D.told opened.idle.disk) }
    requires bounded { AreNumbersBounded (held opened.stacks opened.versions) }
    requires fits { limit_hit limits.now opened.tree.files ≡ None }
    requires differ { AreDiffering opened.tree.files opened.stacks.state.records paths }
    requires some { paths ≢ [] }
    ensures adopted { IfOk result (λ o. opened_state o ≡ state_after (opened_state opened) (adopting paths)) }
    ensures passes { IfOk result (λ o. adopting_hit limits.now (opened_state o) ≡ None) }
    ensures at { IfOk result (λ o. IsTold (D.told o.idle.disk) → IsAt (opened_state o) o.idle.area o.idle.gate (D.told o.idle.disk)) }
    ensures rests { IfOk result (λ o. IsAtRest (D.told o.idle.disk)) }
    ensures tells { IfOk result (λ o. TellsAsBefore (D.told opened.idle.disk) (D.told o.idle.disk)) }
    ensures linked { IfOk result (λ o. IsStateLinked (opened_state o)) }
    ensures parts { IfOk result (λ o. HaveParts o.stacks.state.records) }
    ensures fits { IfOk result (λ o. limit_hit limits.now o.tree.files ≡ None) }
    ensures during { IsTold (D.told opened.idle.disk) → LeavesOnly (D.told opened.idle.disk) (D.told (disk_of_open result))
        (StandsForOneOf (opened_state opened) (state_after (opened_state opened) (adopting paths))) }
    ensures refused { IfErr result (RefusesAdopting D.told limits.now opened paths) }
    ensures later { D.moment_of opened.idle.disk ≤ D.moment_of (disk_of_open result) }
    ensures counts { CountsOpen D.faults opened.idle.disk result }
{
    let _ = opened.stacks.count();
    let known = known_with(&opened.versions, paths.as_slice());
    let serial = opened.stacks.serial() + 1;
    if let Some(hit) = hit(limits, known, serial) {
        return Err(OpenFault::TooBig {
            disk: opened.into_disk(),
            which: hit.which,
            found: hit.would_be,
        });
    }
    recorded(alloc, opened, paths.as_slice(), limits)
}
