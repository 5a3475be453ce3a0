// A resource operation, as changes that aren't made yet.
ghost use Rattle.std.specs.Prelude.{◌≡◌, IfOk, IfErr};
ghost use Rattle.wse_apply.specs.Next.{resource_next};
ghost use Rattle.wse_apply.specs.Draft.{IsDraftOf, IsStopOf};
ghost use Rattle.wse_apply.specs.StopFor.{stop_for};

use crate::reason::Reason;
use crate::setting::Setting;
use crate::stop::Stop;
use std::alloc::Global;
use wse_overlay::Overlay;
use wse_path::{Changes, ResourceOp, Tree};
use wse_resource::{OpRefused, operate_on};

pub fn stop_for(why: OpRefused) -> Stop
    ensures { result ≡ stop_for why }
{
    match why {
        OpRefused::Memory => Stop::Memory,
        why => Stop::Refused(Reason::Op(why)),
    }
}

/// What the operation changes, unless something at its paths refuses it. It is tried over the files, which stay.
pub fn resource_changes(
    alloc: Global,
    setting: &Setting<'_>,
    overlay: &Overlay<'_, Tree>,
    op: &ResourceOp,
) -> Result<Changes, Stop>
    ensures draft { IfOk result (IsDraftOf setting.now overlay.now.files (resource_next setting.now overlay.now.files op.now)) }
    ensures refused { IfErr result (IsStopOf (resource_next setting.now overlay.now.files op.now)) }
{
    let mut tried = Overlay::new(alloc, overlay);
    match operate_on(alloc, &mut tried, op) {
        Ok(()) => {
            let changes = tried.into_changes(alloc)?;
            Ok(changes)
        }
        Err(why) => Err(stop_for(why)),
    }
}
