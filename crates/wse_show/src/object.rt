// A JSON object while its members come.
ghost use Rattle.std.specs.Prelude.{◌≡◌, IfOk};
ghost use Rattle.serde_json.specs.Data.{no_members, put, object, string, number, unsigned, boolean};
ghost use Rattle.serde_json.specs.View.{view};
ghost use Rattle.wse_show.specs.Objects.{members_in};

use serde_json::{Map, Value, put};
use std::alloc::Global;
use wse_path::Memory;

/// A JSON object while its members come.
#[derive(Drop)]
pub struct Object {
    alloc: Global,
    members: Map<String, Value>,
}

impl Object {
    /// The object without members.
    pub fn new(alloc: Global) -> Object
        ensures { members_in result ≡ no_members }
    {
        Object {
            alloc,
            members: Map::new(alloc),
        }
    }

    /// The object with this member, whose value is moved.
    pub fn with(self, name: &str, value: Value) -> Result<Object, Memory>
        ensures { IfOk result (λ object. members_in object ≡ put name.now (view value) (members_in self)) }
    {
        let Object { alloc, mut members } = self;
        put(&mut members, alloc, name, value)?;
        Ok(Object { alloc, members })
    }

    /// The object with this text as a member.
    pub fn text(self, name: &str, text: &str) -> Result<Object, Memory>
        ensures { IfOk result (λ object. members_in object ≡ put name.now (string text.now) (members_in self)) }
    {
        let value = Value::try_from_str(self.alloc, text)?;
        self.with(name, value)
    }

    /// The object with this number as a member.
    pub fn number(self, name: &str, n: u64) -> Result<Object, Memory>
        ensures { IfOk result (λ object. members_in object ≡ put name.now (number (unsigned n)) (members_in self)) }
    {
        self.with(name, Value::from(n))
    }

    /// The object with true or false as a member.
    pub fn flag(self, name: &str, flag: bool) -> Result<Object, Memory>
        ensures { IfOk result (λ object. members_in object ≡ put name.now (boolean flag) (members_in self)) }
    {
        self.with(name, Value::Bool(flag))
    }

    /// The object as a JSON value.
    pub fn into_value(self) -> Value
        ensures { view result ≡ object (members_in self) }
    {
        Value::Object(self.members)
    }
}
