// Members of each kind. Null counts as missing.
ghost use Rattle.std.specs.Prelude.{◌≡◌, Option, false, option_map, option_and_then};
ghost use Rattle.serde_json.specs.Data.{Data};
ghost use Rattle.serde_json.specs.Find.{as_bool, as_str, as_array};
ghost use Rattle.serde_json.specs.View.{view, items_view};
ghost use Rattle.wse_json.specs.Members.{optional};
ghost use Rattle.wse_json.specs.Kinds.{an_object, a_whole, standard, perhaps};
ghost use Rattle.wse_json.specs.Shapes.{Gives};

use crate::members::optional;
use crate::pointer::field;
use crate::shape::Shape;
use serde_json::Value;
use std::alloc::Global;
use wse_path::Text;

/// The member, if it is an object.
pub fn object_at<'a>(object: &'a Value, name: &str) -> Option<&'a Value>
    ensures { option_map (λ v. view v.now) result
        ≡ option_and_then an_object (optional name.now (view object.now)) }
{
    optional(object, name).filter(|member| member.is_object())
}

/// The member, if it is a list.
pub fn list_at<'a>(object: &'a Value, name: &str) -> Option<&'a Vec<Value>>
    ensures { option_map (λ v. items_view v.now.items) result
        ≡ option_and_then as_array (optional name.now (view object.now)) }
{
    optional(object, name).and_then(Value::as_array)
}

/// The member, if it is a text.
pub fn text_at<'a>(object: &'a Value, name: &str) -> Option<&'a str>
    ensures { option_map (λ text. text.now) result
        ≡ option_and_then as_str (optional name.now (view object.now)) }
{
    optional(object, name).and_then(Value::as_str)
}

/// The member, if it is a whole number up to 2^64-1.
pub fn whole_at(object: &Value, name: &str) -> Option<u64>
    ensures { result ≡ option_and_then a_whole (optional name.now (view object.now)) }
{
    optional(object, name).and_then(Value::as_u64)
}

/// A type of which a member may be a value.
pub trait Member: Drop {
    ghost kind: { Data → Option Self };

    /// The value, or None where it is of another kind.
    fn read(value: &Value) -> Option<Self>
    where
        Self: Sized,
        ensures { result ≡ kind (view value.now) };
}

impl Member for bool {
    ghost kind = { as_bool };

    fn read(value: &Value) -> Option<bool> {
        value.as_bool()
    }
}

/// The value that the member is; the standard one where it is missing.
pub fn member_or<M: Member>(
    alloc: Global,
    object: &Value,
    name: &str,
    otherwise: M,
) -> Result<M, Shape>
    ensures { Gives (standard name.now M.kind otherwise (view object.now)) result }
{
    let Some(member) = optional(object, name) else {
        return Ok(otherwise);
    };
    match M::read(member) {
        Some(value) => Ok(value),
        None => Err(field(alloc, name)),
    }
}

/// The true or false that the member is; false where it is missing.
pub fn flag_at(alloc: Global, object: &Value, name: &str) -> Result<bool, Shape>
    ensures { Gives (standard name.now as_bool false (view object.now)) result }
{
    member_or(alloc, object, name, false)
}

/// The text that the member is, if it is there.
pub fn text_if_there(alloc: Global, object: &Value, name: &str) -> Result<Option<Text>, Shape>
    ensures { Gives (perhaps name.now as_str (view object.now)) result }
{
    let Some(member) = optional(object, name) else {
        return Ok(None);
    };
    match member.as_str() {
        Some(text) => Ok(Some(Text::new(String::from_str(alloc, text)?))),
        None => Err(field(alloc, name)),
    }
}
