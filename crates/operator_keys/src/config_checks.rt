//! The check of changes of the configuration.
ghost use Rattle.std.specs.Prelude.{◌≡◌, Result, option_copied};
ghost use Rattle.store_keys.specs.Settings.{Settings};
ghost use Rattle.cluster_config.specs.declared.config_fault.ConfigFault.{ConfigFault};
ghost use Rattle.cluster_config.specs.ConfigReading as reading;
ghost use Rattle.operator_keys.specs.ConfigChecks.{configuration_by, configuration_of_entry, configuration_in, changed, unless_faulty, configuration_of};
ghost use Rattle.operator_keys.specs.Refusals.{Answers};

use crate::checks::seen_by;
use crate::{CheckFault, Refused};
use cluster_config::{ConfigFault, ConfigText};
use cluster_view::{AgentView, Snapshot};
use operator_answers::{BAD_REQUEST, Text};
use std::alloc::Global;
use store_keys::{ConfigValue, Key, KeyEntry, Value};

/// How a request changes the configuration (Patroni's documentation of the REST API, "Config endpoint").
#[derive(Clone, Copy, PartialEq, Eq)]
pub enum ConfigChange {
    /// `PATCH /config`: the body is merged into the configuration, where null removes.
    Patch,
    /// `PUT /config`: the body is the configuration from now on.
    Replace,
}

/// The configuration that is to be written, by the body of a request and by what the agent shows that is to write it; or why
/// it is refused, by the first rule that applies (Patroni's documentation of the REST API, "Config endpoint"). The body is a
/// JSON object. It changes the configuration in the agent's newest snapshot.
pub fn check_configuration(
    alloc: Global,
    view: &AgentView<'_>,
    change: ConfigChange,
    bytes: &[u8],
) -> Result<ConfigValue, CheckFault>
    ensures { Answers result (configuration_of view.now change bytes.now) }
{
    let seen = seen_by(view)?;
    match configuration_in(seen) {
        None => {
            let present = ConfigValue::defaults(alloc)?;
            unless_faulty(changed(alloc, change, &present, bytes))
        }
        Some(present) => unless_faulty(changed(alloc, change, present, bytes)),
    }
}

/// The configuration in a snapshot.
pub fn configuration_in(seen: &Snapshot) -> Option<&ConfigValue>
    ensures { option_copied result ≡ configuration_in seen.now }
{
    configuration_of_entry(seen.entry(Key::Config))
}

fn configuration_of_entry(found: Option<&KeyEntry>) -> Option<&ConfigValue>
    ensures { option_copied result ≡ configuration_of_entry (option_copied found.entry) }
{
    let found = found?;
    configuration_by(&found.value)
}

fn configuration_by(value: &Value) -> Option<&ConfigValue>
    ensures { option_copied result ≡ configuration_by value.now }
{
    match value {
        Value::Config(config) => Some(config),
        _ => None,
    }
}

/// What a change with this body makes of the present configuration.
fn changed(
    alloc: Global,
    change: ConfigChange,
    present: &ConfigValue,
    bytes: &[u8],
) -> Result<ConfigValue, ConfigFault>
    ensures { reading.Answers result (changed change present.now bytes.now) }
{
    match change {
        ConfigChange::Patch => present.patch(alloc, bytes),
        ConfigChange::Replace => present.replace(alloc, bytes),
    }
}

/// A configuration, or its first fault as what refuses it.
fn unless_faulty(read: Result<ConfigValue, ConfigFault>) -> Result<ConfigValue, CheckFault>
    ensures { (answer : Result Settings ConfigFault) → reading.Answers read answer → Answers result (unless_faulty answer) }
{
    match read {
        Ok(next) => Ok(next),
        Err(ConfigFault::Memory) => Err(CheckFault::Memory),
        Err(fault) => Err(CheckFault::Refused(Refused {
            status: BAD_REQUEST,
            text: Text::BadConfiguration(fault),
        })),
    }
}
