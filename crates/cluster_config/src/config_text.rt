//! Configurations as JSON text.
ghost use Rattle.std.specs.Prelude.{◌≡◌, ◌≢◌, ◌≤◌, Some, Ok, Err, IfOk, IfErr, IfSome, option_map};
ghost use Rattle.serde_json.specs.Data.{depth};
ghost use Rattle.serde_json.specs.Read.{max_depth};
ghost use Rattle.serde_json.specs.View.{view};
ghost use Rattle.cluster_config.specs.ConfigReading.{Answers, IsConfiguration, json_of, object_in, object_of, judged, config_read, config_replaced, config_patched, in_place_of, with_patch};

use crate::ConfigFault;
use crate::judging::{fault_of, first_changed};
use crate::merging::with_patch;
use crate::setting_value::config_in;
use serde_json::{Category, Value};
use std::alloc::{AllocError, Global};
use store_keys::{Config, ConfigValue};

/// A configuration as JSON text: how it is read, changed and written (Patroni's documentation, "Dynamic Configuration
/// Settings" and "Patroni REST API", on `/config`).
pub trait ConfigText {
    /// The configuration that bytes are. Unknown names are kept, and a null counts as absent.
    fn read(alloc: Global, bytes: &[u8]) -> Result<Self, ConfigFault>
    where
        Self: Sized;

    /// This configuration with a patch merged into it: objects merge into objects at every depth, null removes, and anything
    /// else replaces.
    fn patch(&self, alloc: Global, bytes: &[u8]) -> Result<Self, ConfigFault>
    where
        Self: Sized;

    /// The configuration that bytes are, in place of this one.
    fn replace(&self, alloc: Global, bytes: &[u8]) -> Result<Self, ConfigFault>
    where
        Self: Sized;

    /// Compact JSON with sorted names.
    fn text(&self) -> &str;
}

impl ConfigText for ConfigValue {
    fn read(alloc: Global, bytes: &[u8]) -> Result<ConfigValue, ConfigFault>
        ensures answers { Answers result (config_read bytes.now) }
        ensures reads_back { IfOk result IsConfiguration }
    {
        let object = object_of(alloc, bytes)?;
        judged(alloc, &object)
    }

    fn patch(&self, alloc: Global, bytes: &[u8]) -> Result<ConfigValue, ConfigFault>
        ensures answers { Answers result (config_patched self.now bytes.now) }
        ensures reads_back { IfOk result IsConfiguration }
    {
        let patch = object_of(alloc, bytes)?;
        let present = json_of(alloc, self.as_str().as_bytes())?;
        let merged = with_patch(present, &patch)?;
        in_place_of(self.config(), judged(alloc, &merged)?)
    }

    fn replace(&self, alloc: Global, bytes: &[u8]) -> Result<ConfigValue, ConfigFault>
        ensures answers { Answers result (config_replaced self.now bytes.now) }
        ensures reads_back { IfOk result IsConfiguration }
    {
        let next = ConfigValue::read(alloc, bytes)?;
        in_place_of(self.config(), next)
    }

    fn text(&self) -> &str
        ensures { result.now ≡ self.now.text }
    {
        self.as_str()
    }
}

/// The JSON value that bytes are. It fails only for want of memory.
fn json_of(alloc: Global, bytes: &[u8]) -> Result<Option<Value>, AllocError>
    ensures json { IfOk result (λ o. option_map view o ≡ json_of bytes.now) }
    ensures nests { IfOk result (λ o. IfSome o (λ v. depth (view v) ≤ max_depth)) }
{
    match Value::from_slice(alloc, bytes) {
        Ok(value) => Ok(Some(value)),
        Err(e) => match e.classify() {
            Category::Memory => Err(AllocError),
            _ => Ok(None),
        },
    }
}

fn object_in(value: Value) -> Result<Value, ConfigFault>
    ensures ok { IfOk result (λ v. object_in (view value) ≡ Ok (view v)) }
    ensures same { IfOk result (λ v. view v ≡ view value) }
    ensures err { IfErr result (λ e. object_in (view value) ≡ Err e) }
{
    match value {
        Value::Object(_) => Ok(value),
        _ => Err(ConfigFault::NotObject),
    }
}

/// The object that bytes are.
fn object_of(alloc: Global, bytes: &[u8]) -> Result<Value, ConfigFault>
    ensures ok { IfOk result (λ v. object_of bytes.now ≡ Ok (view v)) }
    ensures object { IfOk result (λ v. object_in (view v) ≡ Ok (view v)) }
    ensures nests { IfOk result (λ v. depth (view v) ≤ max_depth) }
    ensures err { IfErr result (λ e. e ≢ ConfigFault.Memory → object_of bytes.now ≡ Err e) }
{
    match json_of(alloc, bytes)? {
        None => Err(ConfigFault::NotJson),
        Some(value) => object_in(value),
    }
}

/// An object as a configuration, or its first fault.
fn judged(alloc: Global, object: &Value) -> Result<ConfigValue, ConfigFault>
    requires object { object_in (view object.now) ≡ Ok (view object.now) }
    requires nests { depth (view object.now) ≤ max_depth }
    ensures answers { Answers result (judged (view object.now)) }
    ensures reads_back { IfOk result IsConfiguration }
{
    let config = config_in(object);
    if let Some(fault) = fault_of(object, config) {
        return Err(fault);
    }
    let text = object.to_string(alloc)?;
    Ok(ConfigValue::new(text, config))
}

/// A configuration in place of another, unless it changes what may not be changed.
fn in_place_of(present: Config, next: ConfigValue) -> Result<ConfigValue, ConfigFault>
    ensures answers { result ≡ in_place_of present next }
    ensures next { IfOk result (λ settings. settings ≡ next) }
{
    match first_changed(present, next.config()) {
        None => Ok(next),
        Some(setting) => Err(ConfigFault::NotBuilt(setting)),
    }
}
