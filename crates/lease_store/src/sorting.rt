//! Pairs in the order of their keys.
ghost use Rattle.std.specs.Prelude.{◌≡◌, None, IfOk};
ghost use Rattle.lease_store.specs.InKeyOrder.{in_key_order, comes_behind, rises_behind};

use crate::order::compare;
use crate::pairs::put;
use pat_base::Shared;
use std::alloc::{AllocError, Global};
use store_keys::{Key, KeyEntry};

/// These pairs in the order of their keys; of several of one key the first. Pairs in that order are handed back as they are.
/// It fails only for want of memory.
pub fn in_key_order(
    alloc: Global,
    pairs: Vec<(Key, Shared<KeyEntry>)>,
) -> Result<Vec<(Key, Shared<KeyEntry>)>, AllocError>
    ensures { IfOk result (λ ordered. ordered.items ≡ in_key_order pairs.items) }
{
    if rises(&pairs) {
        Ok(pairs)
    } else {
        sorted(alloc, pairs)
    }
}

/// These pairs in the order of their keys. It fails only for want of memory.
fn sorted(
    alloc: Global,
    mut pairs: Vec<(Key, Shared<KeyEntry>)>,
) -> Result<Vec<(Key, Shared<KeyEntry>)>, AllocError>
    ensures { IfOk result (λ ordered. ordered.items ≡ in_key_order pairs.items) }
{
    let mut ordered = Vec::new(alloc);
    while let Some((key, stored)) = pairs.pop() {
        ordered.reserve(1)?;
        put(&mut ordered, key, stored);
    }
    Ok(ordered)
}

/// Whether each key comes before that of the next pair.
fn rises(pairs: &[(Key, Shared<KeyEntry>)]) -> bool
    ensures { result ≡ rises_behind None pairs.now }
{
    let mut last = None;
    for pair in pairs {
        if !comes_behind(last, pair.0) {
            return false;
        }
        last = Some(pair.0);
    }
    true
}

fn comes_behind(last: Option<Key>, key: Key) -> bool
    ensures { result ≡ comes_behind last key }
{
    match last {
        None => true,
        Some(last) => compare(last, key).is_lt(),
    }
}
