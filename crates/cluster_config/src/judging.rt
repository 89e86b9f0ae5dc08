//! The first fault of a configuration.
ghost use Rattle.std.specs.Prelude.{◌≡◌, Some, option_map, find};
ghost use Rattle.serde_json.specs.View.{view};
ghost use Rattle.cluster_config.specs.ConfigFaults.{is_bad_number, is_bad_value, is_bad_if_some, is_bad, is_low_number, is_low_value, is_low_if_some, is_low, keeps_times, is_changed, fault_of};
ghost use Rattle.cluster_config.specs.SettingTable.{settings_in_order};

use crate::ConfigFault;
use crate::floats::has_float;
use crate::setting::{SETTINGS, Setting, SettingKind, SettingRange, kind_of};
use crate::setting_value::{WholeNumber, truth_value, value_at, whole_number};
use serde_json::Value;
use store_keys::Config;

fn is_bad_number(range: SettingRange, number: Option<WholeNumber>) -> bool
    ensures { result ≡ is_bad_number range number }
{
    match number {
        None => true,
        Some(WholeNumber::BelowZero) => false,
        Some(WholeNumber::FromZero(n)) => range.greatest < n,
    }
}

/// Whether a value isn't of a setting's kind, or above its greatest. What is kept may be anything.
fn is_bad_value(kind: SettingKind, value: &Value) -> bool
    ensures { result ≡ is_bad_value kind (view value.now) }
{
    match kind {
        SettingKind::Number(range) => is_bad_number(range, whole_number(value)),
        SettingKind::Truth => truth_value(value).is_none(),
        SettingKind::Kept => false,
    }
}

/// Whether the value at a setting's key is of the wrong kind, or above the greatest.
fn is_bad(object: &Value, setting: Setting) -> bool
    ensures { result ≡ is_bad (view object.now) setting }
{
    match value_at(setting, object) {
        None => false,
        Some(value) => is_bad_value(kind_of(setting), value),
    }
}

fn is_low_number(range: SettingRange, number: Option<WholeNumber>) -> bool
    ensures { result ≡ is_low_number range number }
{
    match number {
        None => false,
        Some(WholeNumber::BelowZero) => true,
        Some(WholeNumber::FromZero(n)) => n < range.least,
    }
}

/// Whether a value is below a setting's least.
fn is_low_value(range: Option<SettingRange>, value: &Value) -> bool
    ensures { result ≡ is_low_value range (view value.now) }
{
    match range {
        None => false,
        Some(range) => is_low_number(range, whole_number(value)),
    }
}

/// Whether the value at a setting's key is below the setting's least.
fn is_low(object: &Value, setting: Setting) -> bool
    ensures { result ≡ is_low (view object.now) setting }
{
    match value_at(setting, object) {
        None => false,
        Some(value) => is_low_value(setting.range(), value),
    }
}

fn first_bad(object: &Value) -> Option<Setting>
    ensures { result ≡ find (is_bad (view object.now)) settings_in_order }
{
    SETTINGS
        .iter()
        .copied()
        .find(|setting| is_bad(object, *setting))
}

fn first_low(object: &Value) -> Option<Setting>
    ensures { result ≡ find (is_low (view object.now)) settings_in_order }
{
    SETTINGS
        .iter()
        .copied()
        .find(|setting| is_low(object, *setting))
}

/// A lease lasts as long as one wait between turns and two waits for an answer.
fn keeps_times(config: Config) -> bool
    ensures { result ≡ keeps_times config }
{
    config.loop_wait + 2 * config.retry_timeout <= config.ttl
}

/// Whether a configuration changes a setting of another that is as the first configuration has it for good: the failsafe mode, and
/// quorum commit.
fn is_changed(present: Config, next: Config, setting: Setting) -> bool
    ensures { result ≡ is_changed present next setting }
{
    match setting {
        Setting::FailsafeMode => present.failsafe_mode != next.failsafe_mode,
        Setting::SynchronousMode => present.quorum != next.quorum,
        _ => false,
    }
}

/// The first setting that is changed and may not be.
pub(crate) fn first_changed(present: Config, next: Config) -> Option<Setting>
    ensures { result ≡ find (is_changed present next) settings_in_order }
{
    SETTINGS
        .iter()
        .copied()
        .find(|setting| is_changed(present, next, *setting))
}

/// The first fault of an object that sets this.
pub(crate) fn fault_of(object: &Value, config: Config) -> Option<ConfigFault>
    ensures { result ≡ fault_of (view object.now) config }
{
    if let Some(setting) = first_bad(object) {
        return Some(ConfigFault::BadValue(setting));
    }
    if let Some(setting) = first_low(object) {
        return Some(ConfigFault::BelowMinimum(setting));
    }
    if !keeps_times(config) {
        return Some(ConfigFault::TimesRule);
    }
    if has_float(object) {
        Some(ConfigFault::Fraction)
    } else {
        None
    }
}
