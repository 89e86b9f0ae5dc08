//! The order of keys.
ghost use Rattle.std.specs.Prelude.{◌≡◌};
ghost use Rattle.lease_store.specs.KeyOrder.{key_cmp};

use std::cmp::Ordering;
use store_keys::Key;

/// How two keys stand in the order of the store.
pub fn compare(a: Key, b: Key) -> Ordering
    ensures { result ≡ key_cmp a b }
{
    a.cmp(&b)
}
