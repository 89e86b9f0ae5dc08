//! The line of a script's configuration.
ghost use Rattle.std.specs.Prelude.{◌≡◌, IfOk};
ghost use Rattle.std.specs.Option.{option_copied};
ghost use Rattle.cluster_config.specs.ConfigReading.{IsConfiguration};
ghost use Rattle.script_grammar.specs.Reading.{config_in, next_config};

use cluster_config::{ConfigFault, ConfigText};
use script_model::Line;
use script_words::Fault;
use std::alloc::{AllocError, Global};
use store_keys::ConfigValue;

/// A configuration: the whole rest of its line.
fn config_in(alloc: Global, rest: Option<&[u8]>) -> Result<Result<ConfigValue, Fault>, AllocError>
    ensures value { IfOk result (λ outcome. outcome ≡ config_in (option_copied rest.entry)) }
    ensures configured { IfOk result (λ outcome. IfOk outcome IsConfiguration) }
{
    let Some(bytes) = rest else {
        return Ok(Err(Fault::WordCount));
    };
    match ConfigValue::read(alloc, bytes) {
        Ok(config) => Ok(Ok(config)),
        Err(ConfigFault::Memory) => Err(AllocError),
        Err(_) => Ok(Err(Fault::BadConfig)),
    }
}

/// The configuration, from the rest of its line, behind the configuration that is said already. It fails only for want of
/// memory.
pub fn next_config(
    alloc: Global,
    said: &Option<ConfigValue>,
    body: &[Line],
    rest: Option<&[u8]>,
) -> Result<Result<ConfigValue, Fault>, AllocError>
    ensures value { IfOk result (λ outcome. outcome ≡ next_config said.now body.now (option_copied rest.entry)) }
    ensures configured { IfOk result (λ outcome. IfOk outcome IsConfiguration) }
{
    if said.is_some() {
        return Ok(Err(Fault::Duplicate));
    }
    if !body.is_empty() {
        return Ok(Err(Fault::HeadLate));
    }
    config_in(alloc, rest)
}
