//! Configurations as text: what is read, what a patch leaves, and why one is refused.
use crate::stop::{Stop, known};
use crate::words::first_word;
use cluster_config::{ConfigFault, ConfigText};
use std::alloc::{AllocError, Global};
use store_keys::ConfigValue;

/// What `read JSON`, `patch JSON by JSON` and `replace JSON by JSON` come to: the text of a configuration, or the fault.
pub fn told(alloc: Global, asked: &str) -> Result<String, Stop> {
    let (word, rest) = first_word(asked);
    if word == "read" {
        return Ok(outcome(alloc, ConfigValue::read(alloc, rest.as_bytes()))?);
    }
    let (present, change) = known(rest.split_once(" by "))?;
    let present = known(ConfigValue::read(alloc, present.as_bytes()).ok())?;
    match word {
        "patch" => Ok(outcome(alloc, present.patch(alloc, change.as_bytes()))?),
        "replace" => Ok(outcome(alloc, present.replace(alloc, change.as_bytes()))?),
        _ => Err(Stop::Unknown),
    }
}

fn outcome(
    alloc: Global,
    answered: Result<ConfigValue, ConfigFault>,
) -> Result<String, AllocError> {
    match answered {
        Ok(value) => String::from_str(alloc, value.text()),
        Err(fault) => format!(in alloc; "{fault}"),
    }
}
