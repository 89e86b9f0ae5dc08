//! JSON objects that are built member by member.
ghost use Rattle.std.specs.Prelude.{◌≡◌, false};
ghost use Rattle.serde_json.specs.View.{members_view};
ghost use Rattle.serde_json.specs.Written.{members_have_float};

use crate::List;
use serde_json::{Map, Value};
use std::alloc::{AllocError, Global};

/// A JSON object without floats, whose text is known to the byte (RFC 8259, "Objects"). Its members stand in the order of their names,
/// whatever the order in which they are put. A contract sees them as `object_members`. Each call fails only for want of memory.
#[derive(Drop)]
pub struct Object {
    members: Map<String, Value>,
    ghost no_float: { members_have_float (members_view members.entries) ≡ false },
}

impl Object {
    ghost use Rattle.std.specs.Prelude.{IfOk, OnOk, string_bytes};
    ghost use Rattle.serde_json.specs.Data.{object, array, string, no_members, put as with_member};
    ghost use Rattle.serde_json.specs.View.{view, items_of};
    ghost use Rattle.serde_json.specs.Written.{has_float, compact_text};
    ghost use Rattle.json_build.specs.Members.{with_flag, natural, integer};
    ghost use Rattle.json_build.specs.Objects.{object_members};
    ghost use Rattle.json_build.specs.Lists.{list_items};

    /// The object without members.
    pub fn new(alloc: Global) -> Object
        ensures { object_members result ≡ no_members }
    {
        Object {
            members: Map::new(alloc),
        }
    }

    /// Puts a value at a name, in the place of one that stood there.
    fn put(&mut self, alloc: Global, name: &str, value: Value) -> Result<(), AllocError>
        requires { has_float (view value) ≡ false }
        ensures { OnOk result (object_members self.new ≡ with_member name.now (view value) (object_members self.old)) }
    {
        serde_json::put(&mut self.members, alloc, name, value)
    }

    /// Puts a text at a name.
    pub fn put_text(&mut self, alloc: Global, name: &str, text: &str) -> Result<(), AllocError>
        ensures { OnOk result (object_members self.new ≡ with_member name.now (string text.now) (object_members self.old)) }
    {
        self.put(alloc, name, Value::try_from_str(alloc, text)?)
    }

    /// Puts a number from 0 on at a name.
    pub fn put_number(&mut self, alloc: Global, name: &str, number: u64) -> Result<(), AllocError>
        ensures { OnOk result (object_members self.new ≡ with_member name.now (natural number) (object_members self.old)) }
    {
        self.put(alloc, name, Value::from(number))
    }

    /// Puts a number with its sign at a name.
    pub fn put_integer(&mut self, alloc: Global, name: &str, number: i64) -> Result<(), AllocError>
        ensures { OnOk result (object_members self.new ≡ with_member name.now (integer number) (object_members self.old)) }
    {
        self.put(alloc, name, Value::from(number))
    }

    /// Puts `true` at a name where a flag is set, and nothing where it isn't.
    pub fn put_flag(&mut self, alloc: Global, name: &str, flag: bool) -> Result<(), AllocError>
        ensures { OnOk result (object_members self.new ≡ with_flag name.now flag (object_members self.old)) }
    {
        if !flag {
            return Ok(());
        }
        self.put(alloc, name, Value::Bool(true))
    }

    /// Puts an object at a name.
    pub fn put_object(&mut self, alloc: Global, name: &str, other: Object) -> Result<(), AllocError>
        ensures { OnOk result (object_members self.new ≡ with_member name.now (object (object_members other)) (object_members self.old)) }
    {
        self.put(alloc, name, other.into_value())
    }

    /// Puts a list at a name.
    pub fn put_list(&mut self, alloc: Global, name: &str, list: List) -> Result<(), AllocError>
        ensures { OnOk result (object_members self.new ≡ with_member name.now (array (items_of (list_items list))) (object_members self.old)) }
    {
        self.put(alloc, name, list.into_value())
    }

    /// The object as a value.
    pub(crate) fn into_value(self) -> Value
        ensures value { view result ≡ object (object_members self) }
        ensures no_float { has_float (view result) ≡ false }
    {
        Value::Object(self.members)
    }

    /// The object as text without spaces.
    pub fn into_text(self, alloc: Global) -> Result<String, AllocError>
        ensures { IfOk result (λ text. string_bytes text ≡ compact_text (object (object_members self))) }
    {
        self.into_value().to_string(alloc)
    }
}
