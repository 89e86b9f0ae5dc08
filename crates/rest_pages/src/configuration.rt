//! `/config`: the configuration (Patroni documentation, "Patroni REST API", "Config endpoint").
ghost use Rattle.std.specs.Prelude.{◌≡◌, option_copied};
ghost use Rattle.rest_pages.specs.Configuration.{text_by, text_of_entry, configuration_text};

use cluster_view::Snapshot;
use store_keys::{Key, KeyEntry, Value};

/// The body of `/config`: the text of the configuration, as it stands in the key store.
pub fn config_text(snapshot: &Snapshot) -> &str
    ensures { result.now ≡ configuration_text snapshot.now }
{
    text_of_entry(snapshot.entry(Key::Config))
}

fn text_of_entry(found: Option<&KeyEntry>) -> &str
    ensures { result.now ≡ text_of_entry (option_copied found.entry) }
{
    match found {
        None => "",
        Some(found) => text_by(&found.value),
    }
}

fn text_by(value: &Value) -> &str
    ensures { result.now ≡ text_by value.now }
{
    match value {
        Value::Config(config) => config.as_str(),
        _ => "",
    }
}
