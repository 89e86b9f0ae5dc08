//! What the control port is called.
use std::alloc::{AllocError, Global};
use std::marker::Model;

/// What the field `Host` of a request to the control port may say: the port's own address, or `localhost` with its port. A page
/// of another site can't have either, also where that site's name leads to this machine.
#[derive(Drop)]
pub struct OwnHosts {
    address: String,
    localhost: String,
}

impl Model for OwnHosts {
    ghost use Rattle.std.specs.Prelude.{ℕ, List, [], ◌∷◌, string_bytes};

    ghost Value = { List (List ℕ) };

    ghost view = { λ h. string_bytes h.address ∷ string_bytes h.localhost ∷ [] };
}

impl OwnHosts {
    ghost use Rattle.std.specs.Prelude.{◌≡◌, IfOk};
    ghost use Rattle.live_page.specs.Origins.{is_own_host, own_hosts};

    /// What a port at this address is called, as `127.0.0.1:7008` with the port 7008. It fails only for want of memory.
    pub fn of(alloc: Global, address: &str, port: u16) -> Result<OwnHosts, AllocError>
        ensures { IfOk result (λ hosts. hosts ≡ own_hosts address.now port) }
    {
        Ok(OwnHosts {
            address: String::from_str(alloc, address)?,
            localhost: format!(in alloc; "localhost:{port}")?,
        })
    }

    /// Whether this is one of them.
    pub(crate) fn has(&self, value: &[u8]) -> bool
        ensures { result ≡ is_own_host self.now value.now }
    {
        self.address.as_bytes() == value || self.localhost.as_bytes() == value
    }
}
