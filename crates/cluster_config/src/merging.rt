//! Patches: objects merge into objects at every depth, null removes, anything else replaces.
ghost use Rattle.std.specs.Prelude.{◌≡◌, Some, IfOk, option_map};
ghost use Rattle.serde_json.specs.Data.{object};
ghost use Rattle.serde_json.specs.View.{view, members_view};
ghost use Rattle.cluster_config.specs.ConfigMerging.{merged, patched, onto};
ghost use Rattle.cluster_config.specs.ConfigReading.{with_patch};

use serde_json::{Map, Value};
use std::alloc::AllocError;

/// An object, with a patch merged into it. It fails only for want of memory.
pub(crate) fn with_patch(present: Option<Value>, patch: &Value) -> Result<Value, AllocError>
    ensures { IfOk result (λ v. view v ≡ with_patch (option_map view present) (view patch.now)) }
{
    match patch {
        Value::Object(members) => onto(members, patch, present),
        _ => patch.clone(),
    }
}

#[cycle(merging)]
fn merged(
    patch: &Map<String, Value>,
    present: Map<String, Value>,
) -> Result<Map<String, Value>, AllocError>
    ensures { IfOk result (λ m. members_view m.entries ≡ merged (members_view present.entries) (members_view patch.now.entries)) }
{
    let mut object = present;
    for (name, value) in patch.iter() {
        let stood = object.remove(name.as_str());
        if let Some(next) = patched(value, stood)? {
            drop(object.insert(name.clone()?, next)?);
        }
    }
    Ok(object)
}

/// What stands at a name after a patch that has this value there.
#[cycle(merging)]
fn patched(value: &Value, present: Option<Value>) -> Result<Option<Value>, AllocError>
    ensures { IfOk result (λ o. option_map view o ≡ patched (option_map view present) (view value.now)) }
{
    match value {
        Value::Null => Ok(None),
        Value::Object(patch) => Ok(Some(onto(patch, value, present)?)),
        _ => Ok(Some(value.clone()?)),
    }
}

/// What an object of a patch leaves; one that meets no object is put in as it stands.
#[cycle(merging)]
fn onto(
    patch: &Map<String, Value>,
    value: &Value,
    present: Option<Value>,
) -> Result<Value, AllocError>
    requires { view value.now ≡ object (members_view patch.now.entries) }
    ensures { IfOk result (λ v. view v ≡ object (onto (option_map view present) (members_view patch.now.entries))) }
{
    match present {
        Some(Value::Object(members)) => Ok(Value::Object(merged(patch, members)?)),
        _ => value.clone(),
    }
}
