// Changes made on a disk, and made last.
ghost use Rattle.std.specs.Prelude.{◌≡◌, ◌≤◌, [], List, ℕ, Option, Some, None, OnOk, IsTrue, true};
ghost use Rattle.wse_path.specs.Causes.{HasCause};
ghost use Rattle.wse_path.specs.Changes.{is_changed, erased_at, stored_at};
ghost use Rattle.wse_path.specs.declared.change.Change.{Change};
ghost use Rattle.wse_disk.specs.Reading.{with_files};
ghost use Rattle.wse_disk.specs.Standing.{Standing};
ghost use Rattle.wse_disk.specs.Told.{IsAtRest, IsSynced, reading_of};
ghost use Rattle.wse_disk.specs.Calls.{HasRoomFor, Told};
ghost use Rattle.wse_disk.specs.Changes.{LeadsToTree, LeadsFromErased, HasErased, HasStored, HasChanged, HasErasedOne, HasStoredOne, HasChangedOnly, ChangesOnly, ErasesFirst, AreUnderway, takes_away, puts, erasing, storing};
ghost use Rattle.wse_disk.specs.LeavesOnly.{LeavesOnly};

use crate::disk::{Disk, Failed};
use wse_path::Change;

// Takes the path away, if the change does.
fn erase_one<D: Disk>(disk: &mut D, change: &Change) -> Result<(), Failed>
    requires { change.now.after ≡ None → HasRoomFor (D.told disk.old) change.now.path }
    ensures erased { OnOk result (HasErasedOne change.now (D.told disk.old) (D.told disk.new)) }
    ensures writing { (changes : List Change) (start : Option Standing)
        → (change.now.after ≡ None → is_changed changes change.now.path ≡ true)
        → AreUnderway changes start (D.told disk.old) → AreUnderway changes start (D.told disk.new) }
    ensures kept { (changes : List Change) (start : Option Standing) → is_changed changes change.now.path ≡ true
        → HasChangedOnly changes start (D.told disk.old) → HasChangedOnly changes start (D.told disk.new) }
    ensures later { D.moment_of disk.old ≤ D.moment_of disk.new }
    ensures cause { HasCause (D.faults disk.old) (D.faults disk.new) result }
{
    match &change.after {
        Some(_) => Ok(()),
        None => disk.erase(&change.path),
    }
}

// Stores what the change puts at its path, if it does.
fn store_one<D: Disk>(disk: &mut D, change: &Change) -> Result<(), Failed>
    requires { (bytes : List ℕ) → change.now.after ≡ Some bytes → HasRoomFor (D.told disk.old) change.now.path }
    ensures stored { OnOk result (HasStoredOne change.now (D.told disk.old) (D.told disk.new)) }
    ensures writing { (changes : List Change) (start : Option Standing)
        → ((bytes : List ℕ) → change.now.after ≡ Some bytes → is_changed changes change.now.path ≡ true)
        → AreUnderway changes start (D.told disk.old) → AreUnderway changes start (D.told disk.new) }
    ensures kept { (changes : List Change) (start : Option Standing) → is_changed changes change.now.path ≡ true
        → HasChangedOnly changes start (D.told disk.old) → HasChangedOnly changes start (D.told disk.new) }
    ensures later { D.moment_of disk.old ≤ D.moment_of disk.new }
    ensures cause { HasCause (D.faults disk.old) (D.faults disk.new) result }
{
    match &change.after {
        Some(bytes) => disk.store(&change.path, bytes.as_slice()),
        None => Ok(()),
    }
}

// Takes away what the changes take away.
fn erase_all<D: Disk>(disk: &mut D, changes: &[Change]) -> Result<(), Failed>
    requires { LeadsToTree (D.told disk.old) changes.now }
    ensures erased { OnOk result (HasErased changes.now (D.told disk.old) (D.told disk.new)) }
    ensures writing { (start : Option Standing) → AreUnderway (erasing changes.now) start (D.told disk.old)
        → AreUnderway (erasing changes.now) start (D.told disk.new) }
    ensures kept { (start : Option Standing) → HasChangedOnly changes.now start (D.told disk.old)
        → HasChangedOnly changes.now start (D.told disk.new) }
    ensures later { D.moment_of disk.old ≤ D.moment_of disk.new }
    ensures cause { HasCause (D.faults disk.old) (D.faults disk.new) result }
{
    for change in changes {
        erase_one(disk, change)?;
    }
    Ok(())
}

// Stores what the changes put.
fn store_all<D: Disk>(disk: &mut D, changes: &[Change]) -> Result<(), Failed>
    requires { LeadsFromErased (D.told disk.old) changes.now }
    ensures stored { OnOk result (HasStored changes.now (D.told disk.old) (D.told disk.new)) }
    ensures writing { (start : Option Standing) → AreUnderway (storing changes.now) start (D.told disk.old)
        → AreUnderway (storing changes.now) start (D.told disk.new) }
    ensures kept { (start : Option Standing) → HasChangedOnly changes.now start (D.told disk.old)
        → HasChangedOnly changes.now start (D.told disk.new) }
    ensures later { D.moment_of disk.old ≤ D.moment_of disk.new }
    ensures cause { HasCause (D.faults disk.old) (D.faults disk.new) result }
{
    for change in changes {
        store_one(disk, change)?;
    }
    Ok(())
}

/// Takes away what the changes take away, and syncs. It makes no call where they take nothing away.
pub fn erase_synced<D: Disk>(disk: &mut D, changes: &[Change]) -> Result<(), Failed>
    requires { LeadsToTree (D.told disk.old) changes.now }
    ensures erased { OnOk result (HasErased changes.now (D.told disk.old) (D.told disk.new)) }
    ensures synced { IsSynced (D.told disk.old) → OnOk result (IsSynced (D.told disk.new)) }
    ensures during { IsSynced (D.told disk.old)
        → LeavesOnly (D.told disk.old) (D.told disk.new) (ChangesOnly (erasing changes.now) (reading_of (D.told disk.old))) }
    ensures later { D.moment_of disk.old ≤ D.moment_of disk.new }
    ensures cause { HasCause (D.faults disk.old) (D.faults disk.new) result }
{
    if !take_away(changes) {
        return Ok(());
    }
    erase_all(disk, changes)?;
    disk.sync()
}

/// Stores what the changes put, and syncs. It makes no call where they put nothing.
pub fn store_synced<D: Disk>(disk: &mut D, changes: &[Change]) -> Result<(), Failed>
    requires { LeadsFromErased (D.told disk.old) changes.now }
    ensures stored { OnOk result (HasStored changes.now (D.told disk.old) (D.told disk.new)) }
    ensures synced { IsSynced (D.told disk.old) → OnOk result (IsSynced (D.told disk.new)) }
    ensures during { IsSynced (D.told disk.old)
        → LeavesOnly (D.told disk.old) (D.told disk.new) (ChangesOnly (storing changes.now) (reading_of (D.told disk.old))) }
    ensures later { D.moment_of disk.old ≤ D.moment_of disk.new }
    ensures cause { HasCause (D.faults disk.old) (D.faults disk.new) result }
{
    if !put(changes) {
        return Ok(());
    }
    store_all(disk, changes)?;
    disk.sync()
}

/// Makes the changes: takes away what is to be absent and syncs, then stores the rest and syncs. A part without paths
/// makes no call. Where no write was pending before, a crash during the call leaves what was read then, but for the paths
/// that change; and nothing that is to be stored comes before all that is to be absent is gone for good, so that no file
/// or folder is in its way.
pub fn make_synced<D: Disk>(disk: &mut D, changes: &[Change]) -> Result<(), Failed>
    requires { LeadsToTree (D.told disk.old) changes.now }
    ensures changed { OnOk result (HasChanged changes.now (D.told disk.old) (D.told disk.new)) }
    ensures synced { IsSynced (D.told disk.old) → OnOk result (IsSynced (D.told disk.new)) }
    ensures during { IsSynced (D.told disk.old)
        → LeavesOnly (D.told disk.old) (D.told disk.new) (ChangesOnly changes.now (reading_of (D.told disk.old))) }
    ensures order { IsSynced (D.told disk.old)
        → LeavesOnly (D.told disk.old) (D.told disk.new) (ErasesFirst changes.now (reading_of (D.told disk.old))) }
    ensures later { D.moment_of disk.old ≤ D.moment_of disk.new }
    ensures cause { HasCause (D.faults disk.old) (D.faults disk.new) result }
{
    erase_synced(disk, changes)?;
    store_synced(disk, changes)
}

/// Makes the changes: takes away what is to be absent, stores the rest, and then syncs once. It makes no call where there
/// are none. However it ends, what is read differs only at the paths that change.
pub fn change_synced<D: Disk>(disk: &mut D, changes: &[Change]) -> Result<(), Failed>
    requires { LeadsToTree (D.told disk.old) changes.now }
    ensures changed { OnOk result (HasChanged changes.now (D.told disk.old) (D.told disk.new)) }
    ensures left { HasChangedOnly changes.now (D.told disk.old) (D.told disk.new) }
    ensures untouched { changes.now ≡ [] → disk.new ≡ disk.old }
    ensures synced { IsSynced (D.told disk.old) → OnOk result (IsSynced (D.told disk.new)) }
    ensures later { D.moment_of disk.old ≤ D.moment_of disk.new }
    ensures cause { HasCause (D.faults disk.old) (D.faults disk.new) result }
{
    if changes.is_empty() {
        return Ok(());
    }
    erase_all(disk, changes)?;
    store_all(disk, changes)?;
    disk.sync()
}

// Whether some change takes a path away.
fn take_away(changes: &[Change]) -> bool
    ensures { result ≡ takes_away changes.now }
{
    changes.iter().any(|change| change.after.is_none())
}

// Whether some change puts something.
fn put(changes: &[Change]) -> bool
    ensures { result ≡ puts changes.now }
{
    changes.iter().any(|change| change.after.is_some())
}
