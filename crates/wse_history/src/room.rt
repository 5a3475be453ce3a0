// Room for what a plan leaves.
ghost use Rattle.std.specs.Prelude.{◌≡◌, ◌≤◌, [], ◌∷◌, ◌++◌, length, vec_capacity, IfOk, OnOk};
ghost use Rattle.wse_path.specs.Changes.{contents_of};
ghost use Rattle.wse_history.specs.Planning.{bumps_in};

use std::alloc::Global;
use wse_element::Effect;
use wse_path::{Bytes, Change, Duplicate, Memory, RelPath};

/// Room for the contents that a plan sets, and the paths whose versions it raises, with by how much.
#[derive(Drop)]
pub(crate) struct Room {
    // Empty.
    pub(crate) contents: Vec<(RelPath, Option<Bytes>)>,
    pub(crate) bumps: Vec<(RelPath, u32)>,
}

fn push_bump(bumps: &mut Vec<(RelPath, u32)>, alloc: Global, effect: &Effect) -> Result<(), Memory>
    ensures { OnOk result (bumps.new.items ≡ bumps.old.items ++ bumps_in (effect.now ∷ [])) }
{
    if let Effect::Bump { path, by } = effect {
        bumps.push((path.duplicate(alloc)?, *by))?;
    }
    Ok(())
}

/// The paths whose versions the effects raise.
fn bumps_in(alloc: Global, effects: &[Effect]) -> Result<Vec<(RelPath, u32)>, Memory>
    ensures { IfOk result (λ bumps. bumps.items ≡ bumps_in effects.now) }
{
    let mut bumps = Vec::new(alloc);
    for effect in effects {
        push_bump(&mut bumps, alloc, effect)?;
    }
    Ok(bumps)
}

/// Takes the memory that so many changes and the effects need.
pub(crate) fn make_room(alloc: Global, changes: usize, effects: &[Effect]) -> Result<Room, Memory>
    ensures none { IfOk result (λ room. room.contents.items ≡ []) }
    ensures contents { IfOk result (λ room. changes ≤ vec_capacity room.contents) }
    ensures bumps { IfOk result (λ room. room.bumps.items ≡ bumps_in effects.now) }
{
    let mut contents = Vec::new(alloc);
    contents.reserve(changes)?;
    let bumps = bumps_in(alloc, effects)?;
    Ok(Room { contents, bumps })
}

/// The paths with their new contents, moved into room that is there.
pub(crate) fn into_contents(
    changes: Vec<Change>,
    mut contents: Vec<(RelPath, Option<Bytes>)>,
) -> Vec<(RelPath, Option<Bytes>)>
    requires empty { contents.items ≡ [] }
    requires room { length changes.items ≤ vec_capacity contents }
    ensures { result.items ≡ contents_of changes.items }
{
    for change in changes {
        let Change {
            path,
            before: _,
            after,
        } = change;
        contents.push_reserved((path, after));
    }
    contents
}
