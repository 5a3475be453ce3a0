// The elements of a store, one a line.
ghost use Rattle.std.specs.Prelude.{◌≡◌, ◌<◌, ◌++◌, ◌∷◌, [], Some, length, map, slice_get, IfOk, OnOk};
ghost use Rattle.serde_json.specs.View.{view};
ghost use Rattle.wse_show.specs.Elements.{state_name, part_data, parts_data, element_data, element_line, elements_text};

use crate::line::push_line;
use crate::object::Object;
use serde_json::{Value, json};
use std::alloc::Global;
use wse_element::{Element, Part, PartState};
use wse_path::Memory;
use wse_stacks::Stacks;

/// The state's text.
fn state_name(state: PartState) -> &'static str
    ensures { result.now ≡ state_name state }
{
    match state {
        PartState::Live => "live",
        PartState::Closed => "closed",
        PartState::Incompatible => "incompatible",
    }
}

/// The list of a part's path, its state and whether it is valid.
fn part_value(alloc: Global, part: &Part) -> Result<Value, Memory>
    ensures { IfOk result (λ value. view value ≡ part_data part.now) }
{
    let path = part.path().text(alloc)?.into_string();
    let state = state_name(part.state());
    let value = json!(in alloc; [path, state, part.is_valid()])?;
    Ok(value)
}

fn push_part(alloc: Global, values: &mut Vec<Value>, part: &Part) -> Result<(), Memory>
    ensures { OnOk result (map view values.new.items ≡ map view values.old.items ++ part_data part.now ∷ []) }
{
    values.push(part_value(alloc, part)?)?;
    Ok(())
}

/// The list of the parts.
fn parts_value(alloc: Global, parts: &[Part]) -> Result<Value, Memory>
    ensures { IfOk result (λ value. view value ≡ parts_data parts.now) }
{
    let mut values = Vec::new(alloc);
    for part in parts {
        push_part(alloc, &mut values, part)?;
    }
    Ok(Value::Array(values))
}

/// What is told of an element.
fn element_value(alloc: Global, element: &Element) -> Result<Value, Memory>
    ensures { IfOk result (λ value. view value ≡ element_data element.now) }
{
    let object = Object::new(alloc)
        .flag("done", element.is_done())?
        .number("id", element.id())?
        .text("label", element.label().as_str())?
        .number("origin", element.origin())?
        .with("parts", parts_value(alloc, element.parts())?)?
        .flag("splits", element.splits())?;
    Ok(object.into_value())
}

/// Appends an element's line.
fn push_element(alloc: Global, text: &mut Vec<u8>, element: &Element) -> Result<(), Memory>
    ensures { OnOk result (text.new.items ≡ text.old.items ++ element_line element.now) }
{
    let value = element_value(alloc, element)?;
    push_line(alloc, text, &value)
}

/// The element with that index in order of making.
fn element_at(stacks: &Stacks, index: usize) -> &Element
    requires { index < length stacks.now.state.records }
    ensures { slice_get stacks.now.state.records index ≡ Some result.now }
{
    match stacks.element_at(index) {
        Some(element) => element,
        None => unreachable!(),
    }
}

/// Appends a line for each element, in order of making.
pub fn push_elements(alloc: Global, text: &mut Vec<u8>, stacks: &Stacks) -> Result<(), Memory>
    ensures { OnOk result (text.new.items ≡ text.old.items ++ elements_text stacks.now.state.records) }
{
    for index in 0..stacks.count() {
        push_element(alloc, text, element_at(stacks, index))?;
    }
    Ok(())
}
