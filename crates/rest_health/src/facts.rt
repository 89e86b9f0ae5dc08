//! What health checks look at: eight facts, each a bit of a word.
ghost use Rattle.std.specs.Prelude.{◌≡◌, ◌<◌};
ghost use Rattle.rest_health.specs.Bits as bits;
ghost use Rattle.rest_health.specs.Words.{bit_if};

/// The server runs as the primary.
pub const PRIMARY: u32 = 1;
/// The server runs as a replica.
pub const REPLICA: u32 = 2;
/// The agent holds the leader key.
pub const HAS_KEY: u32 = 4;
/// The member's tag `noloadbalance` is set.
pub const NO_LOAD_BALANCE: u32 = 8;
/// The sync key names the member as a synchronous standby.
pub const STANDBY: u32 = 16;
/// The member lags no further than the query allows.
pub const WITHIN_LAG: u32 = 32;
/// The agent's last turn is as recent as a primary's has to be: at most the ttl ago.
pub const FRESH_AS_PRIMARY: u32 = 64;
/// The agent's last turn is as recent as that of any other member has to be: at most twice the ttl ago.
pub const FRESH_OTHERWISE: u32 = 128;

/// What is known of a member, and of the query of a request.
#[derive(Clone, Copy, PartialEq, Eq)]
pub struct Facts {
    /// The server runs as the primary.
    pub primary: bool,
    /// The server runs as a replica.
    pub replica: bool,
    /// The agent holds the leader key.
    pub has_key: bool,
    /// The member's tag `noloadbalance` is set.
    pub no_load_balance: bool,
    /// The sync key names the member as a synchronous standby.
    pub standby: bool,
    /// The member lags no further than the query allows.
    pub within_lag: bool,
    /// The agent's last turn was at most the ttl ago.
    pub fresh_as_primary: bool,
    /// The agent's last turn was at most twice the ttl ago.
    pub fresh_otherwise: bool,
}

impl Facts {
    ghost use Rattle.rest_health.specs.Words.{facts_of};

    /// The word that has the bits of just these facts.
    pub fn word(self) -> u32
        ensures facts { facts_of result ≡ self }
        ensures no_others { result < bits.bound }
    {
        bit_if(self.primary, PRIMARY)
            | bit_if(self.replica, REPLICA)
            | bit_if(self.has_key, HAS_KEY)
            | bit_if(self.no_load_balance, NO_LOAD_BALANCE)
            | bit_if(self.standby, STANDBY)
            | bit_if(self.within_lag, WITHIN_LAG)
            | bit_if(self.fresh_as_primary, FRESH_AS_PRIMARY)
            | bit_if(self.fresh_otherwise, FRESH_OTHERWISE)
    }
}

fn bit_if(holds: bool, bit: u32) -> u32
    ensures { result ≡ bit_if holds bit }
{
    if holds { bit } else { 0 }
}
