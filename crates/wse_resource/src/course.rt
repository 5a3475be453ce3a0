// What stands at the paths of an operation, and what comes of it.
ghost use Rattle.std.specs.Prelude.{◌≡◌, ◌⊎◌, Some, None, is_some, IfOk, IfErr, OnOk};
ghost use Rattle.wse_path.specs.Tree.{file_above};
ghost use Rattle.wse_resource.specs.Table.{Outcome, is_there, unless_beneath, unless_taken, outcome, create_outcome, rename_outcome, delete_outcome, past_limit, unless_past_limit};
ghost use Rattle.wse_resource.specs.Table.Outcome.{Done, Refused};
ghost use Rattle.wse_resource.specs.Course.{limit_outcome, outcome_by};

use crate::refused::OpRefused;
use std::alloc::Global;
use wse_overlay::Contents;
use wse_path::{Duplicate, Memory, RelPath, ResourceOp};

/// What comes of an operation that nothing at its paths refuses.
#[derive(Debug, Clone, Copy)]
pub enum Course {
    /// The tree stays.
    Stays,
    /// The operation is done, unless a moved path would pass a limit.
    Goes,
}

/// What comes of the operation by what stands at its paths.
pub fn course_of<C: Contents>(
    alloc: Global,
    contents: &C,
    op: &ResourceOp,
) -> Result<Course, OpRefused>
    ensures course { IfOk result (λ course. outcome (C.files contents.now) op.now
        ≡ outcome_by course (limit_outcome (C.files contents.now) op.now)) }
    ensures refused { IfErr result (λ why. (why ≡ OpRefused.Memory)
        ⊎ (outcome (C.files contents.now) op.now ≡ Refused why)) }
{
    match op {
        ResourceOp::Create {
            path,
            overwrite,
            ignore,
        } => create_course(alloc, contents, path, *overwrite, *ignore),
        ResourceOp::Rename {
            from,
            to,
            overwrite,
            ignore,
        } => rename_course(alloc, contents, from, to, *overwrite, *ignore),
        ResourceOp::Delete {
            path,
            recursive,
            ignore,
        } => delete_course(alloc, contents, path, *recursive, *ignore),
    }
}

fn create_course<C: Contents>(
    alloc: Global,
    contents: &C,
    path: &RelPath,
    overwrite: bool,
    ignore: bool,
) -> Result<Course, OpRefused>
    ensures course { IfOk result
        (λ course. create_outcome (C.files contents.now) path.now overwrite ignore ≡ outcome_by course Done) }
    ensures refused { IfErr result (λ why. (why ≡ OpRefused.Memory)
        ⊎ (create_outcome (C.files contents.now) path.now overwrite ignore ≡ Refused why)) }
{
    if contents.is_folder(alloc, path)? {
        return Err(OpRefused::IsFolder);
    }
    refuse_beneath(alloc, contents, path)?;
    course_onto(contents.get(path).is_some(), overwrite, ignore)
}

fn rename_course<C: Contents>(
    alloc: Global,
    contents: &C,
    from: &RelPath,
    to: &RelPath,
    overwrite: bool,
    ignore: bool,
) -> Result<Course, OpRefused>
    ensures course { IfOk result
        (λ course. rename_outcome (C.files contents.now) from.now to.now overwrite ignore
        ≡ outcome_by course (unless_past_limit (past_limit (C.files contents.now) from.now to.now))) }
    ensures refused { IfErr result (λ why. (why ≡ OpRefused.Memory)
        ⊎ (rename_outcome (C.files contents.now) from.now to.now overwrite ignore ≡ Refused why)) }
{
    if !is_there(alloc, contents, from)? {
        return Err(OpRefused::NotFound);
    }
    if *from == *to {
        return Ok(Course::Stays);
    }
    if to.is_under(from) {
        return Err(OpRefused::IntoItself);
    }
    if from.is_under(to) {
        return Err(OpRefused::HoldsSource);
    }
    refuse_beneath(alloc, contents, to)?;
    course_onto(is_there(alloc, contents, to)?, overwrite, ignore)
}

fn delete_course<C: Contents>(
    alloc: Global,
    contents: &C,
    path: &RelPath,
    recursive: bool,
    ignore: bool,
) -> Result<Course, OpRefused>
    ensures course { IfOk result
        (λ course. delete_outcome (C.files contents.now) path.now recursive ignore ≡ outcome_by course Done) }
    ensures refused { IfErr result (λ why. (why ≡ OpRefused.Memory)
        ⊎ (delete_outcome (C.files contents.now) path.now recursive ignore ≡ Refused why)) }
{
    if contents.get(path).is_some() {
        return Ok(Course::Goes);
    }
    if contents.is_folder(alloc, path)? {
        if recursive {
            return Ok(Course::Goes);
        }
        return Err(OpRefused::NotEmpty);
    }
    if ignore {
        return Ok(Course::Stays);
    }
    Err(OpRefused::NotFound)
}

/// Whether a file or a folder is at the path.
fn is_there<C: Contents>(alloc: Global, contents: &C, path: &RelPath) -> Result<bool, Memory>
    ensures { IfOk result (λ there. there ≡ is_there (C.files contents.now) path.now) }
{
    if contents.get(path).is_some() {
        return Ok(true);
    }
    contents.is_folder(alloc, path)
}

/// Refuses a path above which a file stands.
fn refuse_beneath<C: Contents>(alloc: Global, contents: &C, path: &RelPath) -> Result<(), OpRefused>
    ensures ok { OnOk result (file_above (C.files contents.now) path.now ≡ None) }
    ensures refused { IfErr result (λ why. (why ≡ OpRefused.Memory)
        ⊎ ((rest : Outcome) → unless_beneath (file_above (C.files contents.now) path.now) rest ≡ Refused why)) }
{
    match contents.file_above(path) {
        Some(file) => Err(OpRefused::Beneath {
            file: file.duplicate(alloc)?,
        }),
        None => Ok(()),
    }
}

/// What comes of putting something at a path where there may be something already.
fn course_onto(taken: bool, overwrite: bool, ignore: bool) -> Result<Course, OpRefused>
    ensures course { IfOk result
        (λ course. (last : Outcome) → unless_taken taken overwrite ignore last ≡ outcome_by course last) }
    ensures refused { IfErr result
        (λ why. (last : Outcome) → unless_taken taken overwrite ignore last ≡ Refused why) }
{
    if !taken || overwrite {
        return Ok(Course::Goes);
    }
    if ignore {
        return Ok(Course::Stays);
    }
    Err(OpRefused::Exists)
}
