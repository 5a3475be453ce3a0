// Splices that leave a text as it is.
ghost use Rattle.std.specs.Prelude.{◌≡◌, ◌≤◌, length};
ghost use Rattle.std.specs.List.{list_all};
ghost use Rattle.wse_splice.specs.Splice.{Fits};
ghost use Rattle.wse_apply.specs.Unchanged.{leaves};

use wse_splice::Splice;

/// Whether the splice puts what stands at its range already.
fn leaves(text: &[u8], splice: &Splice) -> bool
    requires { (splice.now.start ≤ splice.now.end) × (splice.now.end ≤ length text.now) }
    ensures { result ≡ leaves text.now splice.now }
{
    &text[splice.start..splice.end] == splice.text.as_str().as_bytes()
}

/// Whether each of them does. Takes no memory.
pub fn all_leave(text: &[u8], splices: &[Splice]) -> bool
    requires { Fits splices.now (length text.now) }
    ensures { result ≡ list_all (leaves text.now) splices.now }
{
    for splice in splices {
        if !leaves(text, splice) {
            return false;
        }
    }
    true
}
