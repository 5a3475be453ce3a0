// An image read slowly.
ghost use Rattle.std.specs.Prelude.{◌≡◌, IfOk};
ghost use Rattle.wse_element.specs.State.{kept_of};
ghost use Rattle.wse_txn.specs.Stands.{finished};
ghost use Rattle.wse_slow_reader.specs.Read.{IsRead};

use crate::finish::finished;
use crate::given::Given;
use crate::image::Image;
use crate::left::Left;
use crate::record::RawRecord;
use crate::replay::replay;
use crate::split::split;
use crate::state::PlainState;
use std::alloc::Global;
use wse_path::{Bytes, Memory, RelPath};

/// What an image stands for.
#[derive(Drop)]
pub enum SlowlyRead {
    /// This state.
    Store(PlainState),
    /// None: this is the first place where its journal isn't one.
    NoStore { at: u64 },
}

// The state that is left, over these files, in which an unsettled last record is made.
fn state_of(
    alloc: Global,
    left: Left,
    records: &[RawRecord],
    files: &[(RelPath, Bytes)],
) -> Result<PlainState, Memory>
    ensures kept { IfOk result (λ s. left.kept ≡ kept_of s) }
    ensures files { IfOk result (λ s. s.files ≡ finished records.now left.sets files.now) }
{
    let Left {
        versions,
        records: elements,
        next_id,
        serial,
        sets,
    } = left;
    Ok(PlainState {
        files: finished(alloc, records, sets, files)?,
        versions,
        records: elements,
        next_id,
        serial,
    })
}

/// What the image stands for, by whole lists: the records of the journal that the switch chooses, what they leave one behind the
/// other, and the files, in which the last record is made where it isn't settled. This project's own format.
///
/// The body of a record is read as by `read_state` and `read_record`. It takes time and memory without measure: it is for tests,
/// and for who wants to see the format read.
pub fn read_slowly(alloc: Global, image: &Image) -> Result<SlowlyRead, Memory>
    ensures { IfOk result (IsRead image.now) }
{
    let parts = split(alloc, image.journal())?;
    match replay(alloc, &parts.records, parts.ending)? {
        Given::Leaves(left) => {
            let state = state_of(alloc, left, &parts.records, image.files())?;
            Ok(SlowlyRead::Store(state))
        }
        Given::NoStore { at } => Ok(SlowlyRead::NoStore { at }),
    }
}
