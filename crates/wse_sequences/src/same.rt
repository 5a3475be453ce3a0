// Whether a history that is kept has the state that plain lists hold.
use wse_element::{Body, Element, Part};
use wse_history::History;
use wse_locks::Locks;
use wse_path::{Bytes, RelPath, Tree, Versions};
use wse_slow_history::SlowState;
use wse_stacks::Stacks;

fn is_same_body(one: &Body, other: &Body) -> bool {
    match (one, other) {
        (Body::Whole { was, is }, Body::Whole { was: then, is: now }) => was == then && is == now,
    }
}

fn is_same_part(one: &Part, other: &Part) -> bool {
    one.path() == other.path()
        && one.state() == other.state()
        && one.is_valid() == other.is_valid()
        && is_same_body(one.body(), other.body())
}

fn are_same_parts(one: &[Part], other: &[Part]) -> bool {
    one.len() == other.len()
        && one
            .iter()
            .zip(other)
            .all(|(one, other)| is_same_part(one, other))
}

fn is_same_element(one: &Element, other: &Element) -> bool {
    one.id() == other.id()
        && one.origin() == other.origin()
        && one.label().as_str() == other.label().as_str()
        && one.splits() == other.splits()
        && one.is_done() == other.is_done()
        && are_same_parts(one.parts(), other.parts())
}

fn are_same_elements(stacks: &Stacks, elements: &[Element]) -> bool {
    for (index, element) in elements.iter().enumerate() {
        match stacks.element_at(index) {
            Some(kept) if is_same_element(kept, element) => (),
            _ => return false,
        }
    }
    stacks.count() == elements.len()
}

fn are_same_files(tree: &Tree, files: &[(RelPath, Bytes)]) -> bool {
    for file in files {
        match tree.get(&file.0) {
            Some(bytes) if bytes == file.1.as_slice() => (),
            _ => return false,
        }
    }
    tree.count() == files.len()
}

fn are_same_versions(kept: &Versions, versions: &[(RelPath, u32)]) -> bool {
    versions
        .iter()
        .all(|version| kept.get(&version.0) == version.1)
        && kept.count() == versions.len()
}

/// Whether each of the paths that have a version has the same holder.
fn are_same_locks(kept: &Locks, locks: &Locks, paths: &[(RelPath, u32)]) -> bool {
    paths
        .iter()
        .all(|path| kept.holder(&path.0) == locks.holder(&path.0))
}

/// Whether the history has this state. Of the locks those are compared that are on paths with a version.
pub fn is_same(history: &History, state: &SlowState) -> bool {
    are_same_files(history.tree(), state.files.as_slice())
        && are_same_versions(history.versions(), state.versions.as_slice())
        && are_same_elements(history.stacks(), state.records.as_slice())
        && history.stacks().next_id() == state.next_id
        && history.stacks().serial() == state.serial
        && are_same_locks(history.locks(), &state.locks, state.versions.as_slice())
}
