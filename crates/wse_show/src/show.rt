// What a store holds, as lines of JSON.
ghost use Rattle.std.specs.Prelude.{◌≡◌, IfOk};
ghost use Rattle.wse_show.specs.Show.{show_text};

use crate::elements::push_elements;
use crate::files::push_files;
use std::alloc::Global;
use wse_history::History;
use wse_path::{Bytes, Memory};

/// What the store holds, as lines of JSON. First, in path order, a line for each path that is a file or has a version entry:
/// the length of its bytes, or null where there is no file, its text and its version. Then, in order of making, a line for
/// each element. Each line is one object as `serde_json` writes it without spaces, its members in byte order of their names,
/// and `\n`. This project's own rule.
pub fn show_text(alloc: Global, history: &History) -> Result<Bytes, Memory>
    ensures { IfOk result (λ bytes. bytes ≡ show_text history.now.state) }
{
    let mut text = Vec::new(alloc);
    push_files(alloc, &mut text, history.tree(), history.versions())?;
    push_elements(alloc, &mut text, history.stacks())?;
    Ok(Bytes::new(text))
}
