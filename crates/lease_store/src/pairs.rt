//! Pairs of keys and their entries, in the order of the keys.
ghost use Rattle.std.specs.Prelude.{◌≡◌, ◌≤◌, ◌+◌, IfOk, IfErr, vec_len, vec_capacity};
ghost use Rattle.std.specs.FinMap.{put};
ghost use Rattle.lease_store.specs.KeyOrder.{key_cmp};
ghost use Rattle.lease_store.specs.Places.{IsPlaceOf, IsGapFor};

use crate::order::compare;
use pat_base::Shared;
use std::cmp::Ordering;
use store_keys::{Key, KeyEntry};

/// Where a key stands, or where it would stand.
fn place(pairs: &[(Key, Shared<KeyEntry>)], key: Key) -> Result<usize, usize>
    ensures found { IfOk result (IsPlaceOf key pairs.now) }
    ensures gap { IfErr result (IsGapFor key pairs.now) }
{
    for (at, pair) in pairs.iter().enumerate() {
        match compare(key, pair.0) {
            Ordering::Less => return Err(at),
            Ordering::Equal => return Ok(at),
            Ordering::Greater => {}
        }
    }
    Err(pairs.len())
}

/// Holds this at a key from now on. There is room for one more pair.
pub fn put(pairs: &mut Vec<(Key, Shared<KeyEntry>)>, key: Key, stored: Shared<KeyEntry>)
    requires { vec_len pairs.old + 1 ≤ vec_capacity pairs.old }
    ensures pairs { pairs.new.items ≡ put key_cmp key stored pairs.old.items }
    ensures len { vec_len pairs.new ≤ vec_len pairs.old + 1 }
    ensures room { vec_capacity pairs.old ≤ vec_capacity pairs.new }
{
    match place(pairs, key) {
        Ok(at) => pairs[at] = (key, stored),
        Err(at) => pairs.insert(at, (key, stored)).unwrap(),
    }
}
