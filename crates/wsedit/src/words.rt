// The words of the command line.
ghost use Rattle.std.specs.Prelude.{◌≡◌, drop, IfOk};

use std::alloc::Global;
use std::env::Args;
use wse_path::Memory;

/// The words behind the first, which is the program's name.
pub fn behind_first(alloc: Global, words: Args) -> Result<Vec<String>, Memory>
    ensures { IfOk result (λ behind. behind.items ≡ drop 1 words.rest.items) }
{
    let mut words = words;
    let mut behind = Vec::new(alloc);
    let _ = words.next();
    for word in words {
        behind.push(word)?;
    }
    Ok(behind)
}
