// JSON values, one a line.
ghost use Rattle.std.specs.Prelude.{◌≡◌, ◌++◌, false, OnOk};
ghost use Rattle.serde_json.specs.View.{view};
ghost use Rattle.serde_json.specs.Written.{has_float};
ghost use Rattle.wse_show.specs.Line.{line_of};

use serde_json::Value;
use std::alloc::Global;
use wse_path::Memory;

/// Appends the value as a line: as `serde_json` writes it without spaces, and `\n`.
pub fn push_line(alloc: Global, text: &mut Vec<u8>, value: &Value) -> Result<(), Memory>
    requires { has_float (view value.now) ≡ false }
    ensures { OnOk result (text.new.items ≡ text.old.items ++ line_of (view value.now)) }
{
    let mut line = value.to_vec(alloc)?;
    line.push(b'\n')?;
    text.extend_from_slice(line.as_slice())?;
    Ok(())
}
