// Writing versions.
ghost use Rattle.std.specs.Prelude.{◌≡◌, ◌≢◌, ◌<◌, ◌^◌, ◌++◌, length, OnOk};
ghost use Rattle.std.specs.List.{All};
ghost use Rattle.wse_codec.specs.Allowed.{IsAllowedVersion};
ghost use Rattle.wse_codec.specs.Spelling.{version_bytes, versions_bytes};

use crate::put_fields::{put_path, put_u32};
use wse_path::{Memory, Numbered};

/// Writes a path with its version.
#[tactic(auto, unfolding(crate::specs::Spelling::version_bytes))]
fn put_version(out: &mut Vec<u8>, version: &Numbered) -> Result<(), Memory>
    requires { version.now.number ≢ 0 }
    ensures spelled { OnOk result (out.new.items ≡ out.old.items ++ version_bytes version.now) }
    ensures allowed { OnOk result (IsAllowedVersion version.now) }
{
    put_path(out, &version.path)?;
    put_u32(out, version.number)
}

/// Writes the versions of a state behind their number.
pub(crate) fn put_versions(out: &mut Vec<u8>, versions: &[Numbered]) -> Result<(), Memory>
    requires some { All (λ version. version.number ≢ 0) versions.now }
    requires short { length (versions_bytes versions.now) < 2 ^ 32 }
    ensures spelled { OnOk result (out.new.items ≡ out.old.items ++ versions_bytes versions.now) }
    ensures allowed { OnOk result (All IsAllowedVersion versions.now) }
{
    put_u32(out, versions.len() as u32)?;
    for version in versions {
        put_version(out, version)?;
    }
    Ok(())
}
