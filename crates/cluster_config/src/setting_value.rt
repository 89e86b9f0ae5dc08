//! What a configuration has at the settings' keys, and what that sets.
ghost use Rattle.std.specs.Prelude.{◌≡◌, Some, option_map};
ghost use Rattle.serde_json.specs.View.{view};
ghost use Rattle.cluster_config.specs.SettingTable.{IsWithin};
ghost use Rattle.cluster_config.specs.SettingValues.{found_at, unless_null, value_at, whole_number, truth_word, truth_value, within_or, whole_or, number_or, truth_or_false, is_quorum_word, says_quorum, is_object, says_object, config_in};

use crate::setting::{
    LOOP_WAIT, MAXIMUM_LAG, NODE_COUNT, PRIMARY_START_TIMEOUT, RETRY_TIMEOUT, Setting,
    SettingRange, TTL, setting_name,
};
use serde_json::Value;
use store_keys::Config;

/// A whole number of JSON, of at most 64 bits. How far it is below zero doesn't matter here.
#[derive(Clone, Copy, PartialEq, Eq)]
pub(crate) enum WholeNumber {
    BelowZero,
    FromZero(u64),
}

/// What an object has at a setting's key.
fn found_at(setting: Setting, object: &Value) -> Option<&Value>
    ensures { option_map (λ v. view v.now) result ≡ found_at setting (view object.now) }
{
    match setting {
        Setting::UsePgRewind => object.get("postgresql")?.get("use_pg_rewind"),
        setting => object.get(setting_name(setting)),
    }
}

/// A null counts as absent.
fn unless_null(value: &Value) -> Option<&Value>
    ensures { option_map (λ v. view v.now) result ≡ unless_null (view value.now) }
{
    match value {
        Value::Null => None,
        value => Some(value),
    }
}

/// What a configuration has at a setting's key.
pub(crate) fn value_at(setting: Setting, object: &Value) -> Option<&Value>
    ensures { option_map (λ v. view v.now) result ≡ value_at setting (view object.now) }
{
    unless_null(found_at(setting, object)?)
}

/// The whole number that a value is.
pub(crate) fn whole_number(value: &Value) -> Option<WholeNumber>
    ensures { result ≡ whole_number (view value.now) }
{
    let number = value.as_number()?;
    if let Some(n) = number.as_u64() {
        return Some(WholeNumber::FromZero(n));
    }
    if number.is_f64() {
        return None;
    }
    Some(WholeNumber::BelowZero)
}

fn truth_word(text: &str) -> Option<bool>
    ensures { result ≡ truth_word text.now }
{
    match text {
        "on" | "true" => Some(true),
        "off" | "false" => Some(false),
        _ => None,
    }
}

/// The truth value that a value is.
pub(crate) fn truth_value(value: &Value) -> Option<bool>
    ensures { result ≡ truth_value (view value.now) }
{
    match value {
        Value::Bool(truth) => Some(*truth),
        Value::String(text) => truth_word(text.as_str()),
        Value::Null | Value::Number(_) | Value::Array(_) | Value::Object(_) => None,
    }
}

/// A number where it is within a range, and else another, which is.
fn within_or(range: SettingRange, other: u64, n: u64) -> u64
    ensures { result ≡ within_or range other n }
{
    if range.least <= n && n <= range.greatest {
        n
    } else {
        other
    }
}

fn whole_or(range: SettingRange, other: u64, found: Option<WholeNumber>) -> u64
    ensures { result ≡ whole_or range other found }
{
    match found {
        None | Some(WholeNumber::BelowZero) => other,
        Some(WholeNumber::FromZero(n)) => within_or(range, other, n),
    }
}

/// The number that a value sets, or the default where it sets none. It is within the range.
fn number_or(range: SettingRange, default: u64, found: Option<&Value>) -> u64
    requires { IsWithin range default }
    ensures number { result ≡ number_or range default (option_map (λ v. view v.now) found.entry) }
    ensures within { IsWithin range result }
{
    match found {
        None => default,
        Some(value) => whole_or(range, default, whole_number(value)),
    }
}

/// The truth value that a value sets, or false where it sets none.
fn truth_or_false(found: Option<&Value>) -> bool
    ensures { result ≡ truth_or_false (option_map (λ v. view v.now) found.entry) }
{
    match found {
        None => false,
        Some(value) => truth_value(value).unwrap_or(false),
    }
}

/// Whether a value is the text that turns quorum commit on.
fn is_quorum_word(value: &Value) -> bool
    ensures { result ≡ is_quorum_word (view value.now) }
{
    match value {
        Value::String(text) => text.as_str() == "quorum",
        Value::Null | Value::Bool(_) | Value::Number(_) | Value::Array(_) | Value::Object(_) => {
            false
        }
    }
}

/// Whether a value is that text, where there is one.
fn says_quorum(found: Option<&Value>) -> bool
    ensures { result ≡ says_quorum (option_map (λ v. view v.now) found.entry) }
{
    match found {
        None => false,
        Some(value) => is_quorum_word(value),
    }
}

fn is_object(value: &Value) -> bool
    ensures { result ≡ is_object (view value.now) }
{
    match value {
        Value::Object(_) => true,
        Value::Null | Value::Bool(_) | Value::Number(_) | Value::String(_) | Value::Array(_) => {
            false
        }
    }
}

/// Whether a value is an object, where there is one.
fn says_object(found: Option<&Value>) -> bool
    ensures { result ≡ says_object (option_map (λ v. view v.now) found.entry) }
{
    match found {
        None => false,
        Some(value) => is_object(value),
    }
}

/// The number at a setting's key, or the default.
fn number_at(range: SettingRange, default: u64, setting: Setting, object: &Value) -> u64
    requires { IsWithin range default }
    ensures number { result ≡ number_or range default (value_at setting (view object.now)) }
    ensures within { IsWithin range result }
{
    number_or(range, default, value_at(setting, object))
}

/// The truth value at a setting's key, or false.
fn truth_at(setting: Setting, object: &Value) -> bool
    ensures { result ≡ truth_or_false (value_at setting (view object.now)) }
{
    truth_or_false(value_at(setting, object))
}

/// What a configuration sets: for each setting the value at its key, and the default where there is none; a standby
/// cluster where neither synchronous nor failsafe mode is on.
pub(crate) fn config_in(object: &Value) -> Config
    ensures { result ≡ config_in (view object.now) }
{
    let default = Config::defaults();
    let quorum = says_quorum(value_at(Setting::SynchronousMode, object));
    let synchronous_mode = truth_at(Setting::SynchronousMode, object) || quorum;
    let failsafe_mode = truth_at(Setting::FailsafeMode, object);
    let follows_another = says_object(value_at(Setting::StandbyCluster, object));
    Config {
        loop_wait: number_at(LOOP_WAIT, default.loop_wait, Setting::LoopWait, object),
        retry_timeout: number_at(
            RETRY_TIMEOUT,
            default.retry_timeout,
            Setting::RetryTimeout,
            object,
        ),
        ttl: number_at(TTL, default.ttl, Setting::Ttl, object),
        maximum_lag_on_failover: number_at(
            MAXIMUM_LAG,
            default.maximum_lag_on_failover,
            Setting::MaximumLagOnFailover,
            object,
        ),
        primary_start_timeout: number_at(
            PRIMARY_START_TIMEOUT,
            default.primary_start_timeout,
            Setting::PrimaryStartTimeout,
            object,
        ),
        synchronous_node_count: number_at(
            NODE_COUNT,
            default.synchronous_node_count,
            Setting::SynchronousNodeCount,
            object,
        ),
        synchronous_mode,
        quorum,
        synchronous_mode_strict: truth_at(Setting::SynchronousModeStrict, object),
        standby_cluster: follows_another && !(synchronous_mode || failsafe_mode),
        failsafe_mode,
        pause: truth_at(Setting::Pause, object),
        use_pg_rewind: truth_at(Setting::UsePgRewind, object),
    }
}
