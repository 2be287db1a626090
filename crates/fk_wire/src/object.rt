//! An object that is built member by member.

ghost use Rattle.std.specs.Prelude.{◌≡◌, IfOk};
ghost use Rattle.serde_json.specs.Data.{no_members, object, put, string};
ghost use Rattle.serde_json.specs.View.{view};
ghost use Rattle.fk_wire.specs.Json.{number_data};
ghost use Rattle.fk_wire.specs.Objects.{members};

use fk_base::NoMemory;
use serde_json::{Map, Value, put};
use std::alloc::Global;

/// The members of an object so far.
#[derive(Drop)]
pub(crate) struct Object {
    map: Map<String, Value>,
}

impl Object {
    pub(crate) fn new(alloc: Global) -> Object
        ensures { members result ≡ no_members }
    {
        Object {
            map: Map::new(alloc),
        }
    }

    /// These members and one more.
    pub(crate) fn with(mut self, alloc: Global, key: &str, value: Value) -> Result<Object, NoMemory>
        ensures { IfOk result (λ o. members o ≡ put key.now (view value) (members self)) }
    {
        put(&mut self.map, alloc, key, value)?;
        Ok(self)
    }

    pub(crate) fn with_number(
        self,
        alloc: Global,
        key: &str,
        number: u64,
    ) -> Result<Object, NoMemory>
        ensures { IfOk result (λ o. members o ≡ put key.now (number_data number) (members self)) }
    {
        self.with(alloc, key, Value::from(number))
    }

    pub(crate) fn with_text(self, alloc: Global, key: &str, text: &str) -> Result<Object, NoMemory>
        ensures { IfOk result (λ o. members o ≡ put key.now (string text.now) (members self)) }
    {
        self.with(alloc, key, Value::try_from_str(alloc, text)?)
    }

    pub(crate) fn value(self) -> Value
        ensures { view result ≡ object (members self) }
    {
        Value::Object(self.map)
    }
}
