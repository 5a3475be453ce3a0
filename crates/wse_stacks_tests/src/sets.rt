// What effects set in the tree.
use crate::effects::effects;
use crate::given::path;
use crate::lines::holds;
use std::alloc::Global;
use std::test::Fail;
use wse_path::{Bytes, RelPath, content_slice};
use wse_stacks::Stacks;

// A path, a colon, and its content. A dash stands for none.
fn is_set(set: &(RelPath, Option<Bytes>), alloc: Global, text: &str) -> Result<bool, Fail> {
    let Some((file, what)) = text.split_once(':') else {
        return Ok(false);
    };
    let same = match content_slice(&set.1) {
        Some(bytes) => bytes == what.as_bytes(),
        None => what == "-",
    };
    Ok(same && set.0 == path(alloc, file)?)
}

fn are_set(all: &[(RelPath, Option<Bytes>)], alloc: Global, text: &str) -> Result<bool, Fail> {
    let mut at = 0;
    for set in text.split(',') {
        match all.get(at) {
            Some(there) => {
                if !is_set(there, alloc, set)? {
                    return Ok(false);
                }
            }
            None => return Ok(false),
        }
        at = at.wrapping_add(1);
    }
    Ok(at == all.len())
}

/// Whether the effect sets what stands behind the equals sign.
pub fn sets(stacks: &Stacks, alloc: Global, text: &str) -> Result<bool, Fail> {
    let Some((effect, what)) = text.split_once('=') else {
        return Ok(false);
    };
    match effects(alloc, effect)?.first() {
        Some(effect) => {
            let all = stacks.contents_set(alloc, effect)?;
            if what == "none" {
                return Ok(all.is_empty());
            }
            are_set(&all, alloc, what)
        }
        None => Ok(false),
    }
}

#[test]
fn what_effects_set(rt: HostRuntime) -> Result<(), Fail> {
    assert!(rt;
        holds(
            rt.alloc(),
            "do push 1 a:-:x,b:y:-
        sets back 1=a:-,b:y
        sets forward 1=a:x,b:-
        sets back 2=none
        sets push 2 a:x:z,c:-:w=a:z,c:w
        sets set a=a:-
        sets drop a=none
        sets bump a=none"
        )?
    );
    Ok(())
}
