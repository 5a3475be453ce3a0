// What answers are made of, as JSON.
ghost use Rattle.std.specs.Prelude.{◌≡◌, ◌∷◌, ◌++◌, [], IfOk, OnOk, map};
ghost use Rattle.serde_json.specs.Data.{string};
ghost use Rattle.serde_json.specs.View.{view};
ghost use Rattle.wse_path.specs.Path.{text_of};
ghost use Rattle.wse_reply.specs.Values.{number_or_null, text_or_null, versions_data, files_data, skip_data, skips_data};

use serde_json::{Map, Value, json};
use std::alloc::Global;
use wse_apply::Skip;
use wse_path::{Memory, Numbered, RelPath, Text};

/// The object from each path's text to its version.
pub fn versions_value(alloc: Global, changed: &[Numbered]) -> Result<Value, Memory>
    ensures { IfOk result (λ value. view value ≡ versions_data changed.now) }
{
    let mut members = Map::new(alloc);
    for one in changed {
        let text = one.path.text(alloc)?.into_string();
        members.insert(text, Value::from(one.number))?;
    }
    Ok(Value::Object(members))
}

/// The number, or null where there is none.
pub fn number_value(number: Option<u64>) -> Value
    ensures { view result ≡ number_or_null number }
{
    match number {
        Some(number) => Value::from(number),
        None => Value::Null,
    }
}

/// The text, or null where there is none.
pub fn text_value(alloc: Global, text: &Option<Text>) -> Result<Value, Memory>
    ensures { IfOk result (λ value. view value ≡ text_or_null text.now) }
{
    match text {
        Some(text) => Ok(Value::try_from_str(alloc, text.as_str())?),
        None => Ok(Value::Null),
    }
}

fn push_file(alloc: Global, values: &mut Vec<Value>, file: &RelPath) -> Result<(), Memory>
    ensures { OnOk result (map view values.new.items ≡ map view values.old.items ++ string (text_of file.now) ∷ []) }
{
    let text = file.text(alloc)?.into_string();
    values.push(Value::String(text))?;
    Ok(())
}

/// The list of the paths' texts.
pub fn files_value(alloc: Global, files: &[RelPath]) -> Result<Value, Memory>
    ensures { IfOk result (λ value. view value ≡ files_data files.now) }
{
    let mut values = Vec::new(alloc);
    for file in files {
        push_file(alloc, &mut values, file)?;
    }
    Ok(Value::Array(values))
}

fn skip_value(alloc: Global, skip: &Skip) -> Result<Value, Memory>
    ensures { IfOk result (λ value. view value ≡ skip_data skip.now) }
{
    let operation = skip.operation;
    match skip.edit {
        Some(edit) => Ok(json!(in alloc; [operation, edit])?),
        None => Ok(json!(in alloc; [operation])?),
    }
}

fn push_skip(alloc: Global, values: &mut Vec<Value>, skip: &Skip) -> Result<(), Memory>
    ensures { OnOk result (map view values.new.items ≡ map view values.old.items ++ skip_data skip.now ∷ []) }
{
    let value = skip_value(alloc, skip)?;
    values.push(value)?;
    Ok(())
}

/// The list of what was left out.
pub fn skips_value(alloc: Global, skips: &[Skip]) -> Result<Value, Memory>
    ensures { IfOk result (λ value. view value ≡ skips_data skips.now) }
{
    let mut values = Vec::new(alloc);
    for skip in skips {
        push_skip(alloc, &mut values, skip)?;
    }
    Ok(Value::Array(values))
}
