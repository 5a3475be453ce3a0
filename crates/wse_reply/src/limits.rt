// Limits in words.
ghost use Rattle.std.specs.Prelude.{◌≡◌, IfOk, string_bytes};
ghost use Rattle.wse_reply.specs.Limits.{limit_name, limit_text};

use std::alloc::Global;
use wse_path::{Hit, Memory, Which};

/// The limit's text.
pub fn limit_name(which: Which) -> &'static str
    ensures { result.now ≡ limit_name which }
{
    match which {
        Which::Files => "files",
        Which::FileBytes => "file bytes",
        Which::TreeBytes => "tree bytes",
        Which::Known => "known",
        Which::Weight => "weight",
        Which::Serial => "serial",
    }
}

/// The limit that would be passed, and the number that would pass it.
pub fn limit_text(alloc: Global, hit: Hit) -> Result<String, Memory>
    ensures { IfOk result (λ text. string_bytes text ≡ limit_text hit) }
{
    let name = limit_name(hit.which);
    let number = hit.would_be;
    Ok(format!(in alloc; "limit {name}: {number}")?)
}
