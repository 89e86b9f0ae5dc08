//! JSON lists that are built item by item.
ghost use Rattle.std.specs.Prelude.{◌≡◌, false};
ghost use Rattle.serde_json.specs.View.{items_view};
ghost use Rattle.serde_json.specs.Written.{items_have_float};

use crate::Object;
use serde_json::Value;
use std::alloc::{AllocError, Global};

/// A JSON list without floats, whose text is known to the byte (RFC 8259, "Arrays"). A contract sees its items as `list_items`. Each call
/// fails only for want of memory.
#[derive(Drop)]
pub struct List {
    items: Vec<Value>,
    ghost no_float: { items_have_float (items_view items.items) ≡ false },
}

impl List {
    ghost use Rattle.std.specs.Prelude.{[], ◌∷◌, ◌++◌, IfOk, OnOk, string_bytes};
    ghost use Rattle.serde_json.specs.Data.{object, array, string};
    ghost use Rattle.serde_json.specs.View.{view, items_of};
    ghost use Rattle.serde_json.specs.Written.{has_float, compact_text};
    ghost use Rattle.json_build.specs.Members.{natural};
    ghost use Rattle.json_build.specs.Objects.{object_members};
    ghost use Rattle.json_build.specs.Lists.{list_items};

    /// The list without items.
    pub fn new(alloc: Global) -> List
        ensures { list_items result ≡ [] }
    {
        List {
            items: Vec::new(alloc),
        }
    }

    /// Puts a value at the end.
    fn push(&mut self, value: Value) -> Result<(), AllocError>
        requires { has_float (view value) ≡ false }
        ensures { OnOk result (list_items self.new ≡ list_items self.old ++ view value ∷ []) }
    {
        serde_json::push(&mut self.items, value)
    }

    /// Puts a text at the end.
    pub fn push_text(&mut self, alloc: Global, text: &str) -> Result<(), AllocError>
        ensures { OnOk result (list_items self.new ≡ list_items self.old ++ string text.now ∷ []) }
    {
        self.push(Value::try_from_str(alloc, text)?)
    }

    /// Puts a number from 0 on at the end.
    pub fn push_number(&mut self, number: u64) -> Result<(), AllocError>
        ensures { OnOk result (list_items self.new ≡ list_items self.old ++ natural number ∷ []) }
    {
        self.push(Value::from(number))
    }

    /// Puts an object at the end.
    pub fn push_object(&mut self, other: Object) -> Result<(), AllocError>
        ensures { OnOk result (list_items self.new ≡ list_items self.old ++ object (object_members other) ∷ []) }
    {
        self.push(other.into_value())
    }

    /// Puts a list at the end, as one item.
    pub fn push_list(&mut self, other: List) -> Result<(), AllocError>
        ensures { OnOk result (list_items self.new ≡ list_items self.old ++ array (items_of (list_items other)) ∷ []) }
    {
        self.push(other.into_value())
    }

    /// The list as a value.
    pub(crate) fn into_value(self) -> Value
        ensures value { view result ≡ array (items_of (list_items self)) }
        ensures no_float { has_float (view result) ≡ false }
    {
        Value::Array(self.items)
    }

    /// The list as text without spaces.
    pub fn into_text(self, alloc: Global) -> Result<String, AllocError>
        ensures { IfOk result (λ text. string_bytes text ≡ compact_text (array (items_of (list_items self)))) }
    {
        self.into_value().to_string(alloc)
    }
}
