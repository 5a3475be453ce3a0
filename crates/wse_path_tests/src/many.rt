// Many paths, and their versions that rise at once.
ghost use Rattle.std.specs.Prelude.{◌≡◌, ◌+◌, ◌-◌, ◌^◌, ◌<◌, ◌≤◌, true, All, IfOk, IsTrue};
ghost use Rattle.std.specs.FinMap.{is_sorted};
ghost use Rattle.wse_path.specs.Order.{path_cmp};
ghost use Rattle.wse_path.specs.Versions.{version_of};

use crate::make::paths;
use std::alloc::Global;
use std::collections::BTreeMap;
use std::test::Fail;
use wse_path::{Memory, RelPath, Versions};

/// The paths whose texts stand between spaces, of which there may be none.
pub fn some_paths(alloc: Global, texts: &str) -> Result<Vec<RelPath>, Fail> {
    if texts.is_empty() {
        return Ok(Vec::new(alloc));
    }
    paths(alloc, texts)
}

/// The names of that many files, in path order.
pub fn names(alloc: Global, count: u32) -> Result<String, Fail> {
    let mut all = String::new(alloc);
    for number in 0..count {
        if number > 0 {
            all.push(' ')?;
        }
        push_name(&mut all, number)?;
    }
    Ok(all)
}

fn push_name(text: &mut String, number: u32) -> Result<(), Fail> {
    text.push('f')?;
    for divisor in [1000, 100, 10, 1] {
        text.push(char::from(b'0' + (number / divisor % 10) as u8))?;
    }
    Ok(())
}

/// What the versions of these paths are raised by, in path order.
pub fn raises(
    alloc: Global,
    paths: Vec<RelPath>,
    by: u32,
) -> Result<BTreeMap<RelPath, u32>, Memory> {
    let mut all = BTreeMap::new(alloc);
    for path in paths {
        all.insert(path, by)?;
    }
    Ok(all)
}

fn in_order(alloc: Global, raises: BTreeMap<RelPath, u32>) -> Result<Vec<(RelPath, u32)>, Memory>
    ensures same { IfOk result (λ bumps. bumps.items ≡ raises.entries) }
    ensures rises { is_sorted path_cmp raises.entries ≡ true }
{
    let mut bumps = Vec::new(alloc);
    for (path, by) in raises {
        bumps.push((path, by))?;
    }
    Ok(bumps)
}

fn are_small(versions: &Versions, bumps: &[(RelPath, u32)]) -> bool
    ensures { IsTrue result → All (λ b. version_of versions.now.entries b.0 + b.1 ≤ 2 ^ 31 - 1) bumps.now }
{
    bumps
        .iter()
        .all(|bump| versions.get(&bump.0) <= 9 && bump.1 <= 9)
}

fn are_some(bumps: &[(RelPath, u32)]) -> bool
    ensures { IsTrue result → All (λ b. 0 < b.1) bumps.now }
{
    bumps.iter().all(|bump| bump.1 > 0)
}

/// Raises the versions of these paths, all at once, and answers whether it did.
pub fn bump_all(
    alloc: Global,
    versions: &mut Versions,
    raises: BTreeMap<RelPath, u32>,
) -> Result<bool, Memory> {
    let bumps = in_order(alloc, raises)?;
    versions.reserve(bumps.len())?;
    if !are_small(&*versions, &bumps) || !are_some(&bumps) {
        return Ok(false);
    }
    versions.bump_all(bumps);
    Ok(true)
}
