// JSON Pointers, made where a check fails.
ghost use Rattle.std.specs.Prelude.{◌≡◌, ◌⊎◌, [], ◌++◌, string_bytes, IfOk, OnOk};
ghost use Rattle.wse_json.specs.Shapes.{escaped, to_member, to_item, behind};

use crate::shape::Shape;
use std::alloc::{AllocError, Global};
use wse_path::{Memory, Text};

fn push_escaped(step: &mut String, character: char) -> Result<(), AllocError>
    ensures { OnOk result (string_bytes step.new ≡ string_bytes step.old ++ escaped character) }
{
    match character {
        '~' => step.push_str("~0"),
        '/' => step.push_str("~1"),
        _ => step.push(character),
    }
}

/// The step to the member of this name.
fn to_member(alloc: Global, name: &str) -> Result<String, AllocError>
    ensures { IfOk result (λ step. string_bytes step ≡ to_member name.now) }
{
    let mut step = String::from_str(alloc, "/")?;
    for character in name.chars() {
        push_escaped(&mut step, character)?;
    }
    Ok(step)
}

/// The step to the item with this number.
#[tactic(auto, unfolding(crate::specs::Shapes::to_item))]
fn to_item(alloc: Global, index: usize) -> Result<String, AllocError>
    ensures { IfOk result (λ step. string_bytes step ≡ to_item index) }
{
    format!(in alloc; "/{index}")
}

fn joined(mut step: String, pointer: &Text) -> Result<Text, Memory>
    ensures { IfOk result (λ whole. whole ≡ string_bytes step ++ pointer.now) }
{
    step.push_str(pointer.as_str())?;
    Ok(Text::new(step))
}

/// The refusal, seen from one step further out.
fn behind(step: String, why: Shape) -> Result<Shape, Memory>
    ensures { IfOk result (λ seen. seen ≡ behind (string_bytes step) why) }
{
    match why {
        Shape::Field { pointer } => Ok(Shape::Field {
            pointer: joined(step, &pointer)?,
        }),
        Shape::Uri { pointer, why } => Ok(Shape::Uri {
            pointer: joined(step, &pointer)?,
            why,
        }),
        Shape::NotJson => Ok(Shape::NotJson),
        Shape::Annotation { id } => Ok(Shape::Annotation { id }),
        Shape::Memory => Ok(Shape::Memory),
    }
}

/// The refusal, seen from the object of which it concerns this member.
pub fn under(alloc: Global, name: &str, why: Shape) -> Shape
    ensures { (result ≡ Shape.Memory) ⊎ (result ≡ behind (to_member name.now) why) }
{
    let Ok(step) = to_member(alloc, name) else {
        return Shape::Memory;
    };
    match behind(step, why) {
        Ok(seen) => seen,
        Err(Memory) => Shape::Memory,
    }
}

/// The refusal, seen from the list of which it concerns this item.
pub fn under_item(alloc: Global, index: usize, why: Shape) -> Shape
    ensures { (result ≡ Shape.Memory) ⊎ (result ≡ behind (to_item index) why) }
{
    let Ok(step) = to_item(alloc, index) else {
        return Shape::Memory;
    };
    match behind(step, why) {
        Ok(seen) => seen,
        Err(Memory) => Shape::Memory,
    }
}

/// That the member is missing or of another kind.
pub fn field(alloc: Global, name: &str) -> Shape
    ensures { (result ≡ Shape.Memory) ⊎ (result ≡ Shape.Field (to_member name.now)) }
{
    match to_member(alloc, name) {
        Ok(step) => Shape::Field {
            pointer: Text::new(step),
        },
        Err(_) => Shape::Memory,
    }
}

/// That the value itself is of another kind.
pub fn wrong(alloc: Global) -> Shape
    ensures { result ≡ Shape.Field [] }
{
    Shape::Field {
        pointer: Text::new(String::new(alloc)),
    }
}
