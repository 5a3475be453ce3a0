// What the types of paths, labels and elements keep.
ghost use Rattle.std.specs.Prelude.{◌<◌, ◌^◌};
ghost use Rattle.std.specs.List.{All};
ghost use Rattle.wse_codec.specs.Allowed.{IsAllowedPath, IsAllowedLabel};
ghost use Rattle.wse_history.specs.Written.{IsWrittenPart, IsWrittenElement, IsWrittenEffect};

use wse_element::{Effect, Element, Part};
use wse_path::{Label, RelPath};

/// Tells what the type of paths keeps.
fn tell_path(path: &RelPath)
    ensures { IsAllowedPath path.now }
{
    let _ = path.depth();
}

fn tell_id(id: u64)
    ensures { id < 2 ^ 64 }
{}

fn tell_label(label: &Label)
    ensures { IsAllowedLabel label.now }
{
    let _ = label.len();
    let _ = label.as_str();
}

fn tell_part(part: &Part)
    ensures { IsWrittenPart part.now }
{
    tell_path(part.path());
    let _ = part.state();
}

fn tell_parts(parts: &[Part])
    ensures { All IsWrittenPart parts.now }
{
    for part in parts {
        tell_part(part);
    }
}

fn tell_element(element: &Element)
    ensures { IsWrittenElement element.now }
{
    let _ = element.id();
    let _ = element.origin();
    tell_label(element.label());
    tell_parts(element.parts());
}

fn tell_effect(effect: &Effect)
    ensures { IsWrittenEffect effect.now }
{
    match effect {
        Effect::Push(element) => tell_element(element),
        Effect::Drop { path, .. }
        | Effect::Invalidate { path }
        | Effect::Bump { path, .. }
        | Effect::Set { path, .. } => tell_path(path),
        Effect::MoveBack { id } | Effect::MoveForward { id } => tell_id(*id),
        Effect::Split { id, first } => {
            tell_id(*id);
            tell_id(*first);
        }
    }
}

/// Tells what the types of paths, labels and elements keep of the effects. It takes no memory and does nothing else.
pub(crate) fn tell_effects(effects: &[Effect])
    ensures { All IsWrittenEffect effects.now }
{
    for effect in effects {
        tell_effect(effect);
    }
}
