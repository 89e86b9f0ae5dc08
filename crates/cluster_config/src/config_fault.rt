//! Why bytes are no configuration, or none that may be written.
ghost use Rattle.std.specs.Prelude.{◌≡◌};
ghost use Rattle.cluster_config.specs.declared.config_fault.ConfigFault.TheVariants.{Memory};

use crate::Setting;
use std::alloc::AllocError;
use thiserror::Error;

/// Why bytes are no configuration, or none that may be written. A configuration has its first fault in this order, and
/// of several settings with the same fault that of the first in byte order is named. A fault is printed as it is named
/// here, with its setting in parentheses.
#[derive(Clone, Copy, Debug, PartialEq, Eq, Error)]
pub enum ConfigFault {
    /// The bytes are no JSON, aren't UTF-8, or nest deeper than 127.
    #[error("NotJson")]
    NotJson,
    /// The JSON value is no object.
    #[error("NotObject")]
    NotObject,
    /// The value of this setting is of the wrong kind, or above the greatest.
    #[error("BadValue({0})")]
    BadValue(Setting),
    /// The value of this setting is below the least.
    #[error("BelowMinimum({0})")]
    BelowMinimum(Setting),
    /// `loop_wait` and twice `retry_timeout` are together more than `ttl`.
    #[error("TimesRule")]
    TimesRule,
    /// A number of no setting isn't a whole number of at most 64 bits.
    #[error("Fraction")]
    Fraction,
    /// This setting may not be changed.
    #[error("NotBuilt({0})")]
    NotBuilt(Setting),
    /// Want of memory: nothing is said of the bytes.
    #[error("Memory")]
    Memory,
}

impl From<AllocError> for ConfigFault {
    ghost from_gives = { λ _ e. e ≡ Memory };

    fn from(_: AllocError) -> Self {
        ConfigFault::Memory
    }
}
