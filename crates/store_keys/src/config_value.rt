//! Configurations as they stand in the store.
ghost use Rattle.std.specs.Prelude.{◌≡◌, IfOk, string_bytes};
ghost use Rattle.store_keys.specs.Defaults.{default_settings};

use crate::Config;
use std::alloc::{AllocError, Global};
use std::marker::Model;

/// A configuration as the key store has it: its JSON text, and what that sets. Keys that set nothing here are kept in the
/// text.
#[derive(Drop)]
pub struct ConfigValue {
    text: String,
    config: Config,
}

impl Model for ConfigValue {
    ghost use Rattle.std.specs.Prelude.{string_bytes};
    ghost use Rattle.store_keys.specs.Settings.{Settings};

    ghost Value = { Settings };

    ghost view = { λ c. record { text = string_bytes c.text; config = c.config } };
}

impl ConfigValue {
    /// The configuration of a text that sets these. Who calls this has read the text.
    pub fn new(text: String, config: Config) -> ConfigValue
        ensures { result ≡ record { text = string_bytes text; config = config } }
    {
        ConfigValue { text, config }
    }

    /// The text `{}`, which sets nothing. It fails only for want of memory.
    pub fn defaults(alloc: Global) -> Result<ConfigValue, AllocError>
        ensures { IfOk result (λ value. value ≡ default_settings) }
    {
        let text = String::from_str(alloc, "{}")?;
        Ok(ConfigValue::new(text, Config::defaults()))
    }

    /// The JSON text.
    pub fn as_str(&self) -> &str
        ensures { result.now ≡ self.now.text }
    {
        self.text.as_str()
    }

    /// What the text sets.
    pub fn config(&self) -> Config
        ensures { result ≡ self.now.config }
    {
        self.config
    }

    /// Another configuration of the same text. It fails only for want of memory.
    pub fn try_clone(&self) -> Result<ConfigValue, AllocError>
        ensures { IfOk result (λ value. value ≡ self.now) }
    {
        let text = self.text.clone()?;
        Ok(ConfigValue {
            text,
            config: self.config,
        })
    }
}
