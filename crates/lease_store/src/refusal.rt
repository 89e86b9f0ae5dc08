//! Why a request isn't granted.
ghost use Rattle.std.specs.Prelude.{◌≡◌};
ghost use Rattle.lease_store.specs.declared.refusal.StoreRefusal.TheVariants.{Memory};

use std::alloc::AllocError;
use store_keys::{Expected, Key};
use thiserror::Error;

/// Why a request isn't granted. The store is as it was then.
#[derive(Clone, Copy, Debug, PartialEq, Eq, Error)]
pub enum StoreRefusal {
    /// This key, the first that differs, isn't as the transaction expects it.
    #[error("a key is not as expected")]
    Mismatch { key: Key, found: Expected },
    /// There was no memory for what the transaction writes.
    #[error("out of memory")]
    Memory,
}

impl From<AllocError> for StoreRefusal {
    ghost from_gives = { λ _ e. e ≡ Memory };

    fn from(_: AllocError) -> Self {
        StoreRefusal::Memory
    }
}
