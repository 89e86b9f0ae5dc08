//! What takes a walk over all entries.
ghost use Rattle.std.specs.Prelude.{◌≡◌, ◌++◌, IfOk};
ghost use Rattle.lease_store.specs.Answers.{present_pairs, absent_keys};

use crate::compares::is_present;
use pat_base::{Shared, Ticks};
use std::alloc::{AllocError, Global};
use store_keys::{Key, KeyEntry};

/// The keys that are absent at a moment. It fails only for want of memory.
pub fn absent_keys(
    alloc: Global,
    entries: &[(Key, Shared<KeyEntry>)],
    now: Ticks,
) -> Result<Vec<Key>, AllocError>
    ensures { IfOk result (λ keys. keys.items ≡ absent_keys now.0 entries.now) }
{
    let mut keys = Vec::new(alloc);
    for (key, stored) in entries {
        if !is_present(now, stored.get().expiry) {
            keys.push(*key)?;
        }
    }
    Ok(keys)
}

/// The pairs whose keys are present at a moment, with the same entries. It fails only for want of memory.
pub fn copies_of_present(
    alloc: Global,
    entries: &[(Key, Shared<KeyEntry>)],
    now: Ticks,
) -> Result<Vec<(Key, Shared<KeyEntry>)>, AllocError>
    ensures { IfOk result (λ copies. copies.items ≡ present_pairs now.0 entries.now) }
{
    let mut copies = Vec::with_capacity(alloc, entries.len())?;
    for (key, stored) in entries {
        if is_present(now, stored.get().expiry) {
            copies.push((*key, stored.try_clone()?))?;
        }
    }
    Ok(copies)
}

/// All pairs, with the same entries. It fails only for want of memory.
pub fn copies_of(
    alloc: Global,
    entries: &[(Key, Shared<KeyEntry>)],
) -> Result<Vec<(Key, Shared<KeyEntry>)>, AllocError>
    ensures { IfOk result (λ copies. copies.items ≡ entries.now) }
{
    let mut copies = Vec::with_capacity(alloc, entries.len())?;
    for (key, stored) in entries {
        copies.push((*key, stored.try_clone()?))?;
    }
    Ok(copies)
}
