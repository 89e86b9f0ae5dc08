//! The entries of keys, in pairs that rise by their keys, with the set of their expiries: each change of both leaves the set exact.
ghost use Rattle.std.specs.Prelude.{◌≡◌, IsTrue, OnOk, OnErr};
ghost use Rattle.std.specs.FinMap.{is_sorted};
ghost use Rattle.lease_store.specs.Answers.{present_pairs};
ghost use Rattle.lease_store.specs.Expiries.{AreExpiriesOf};
ghost use Rattle.lease_store.specs.KeyOrder.{key_cmp};
ghost use Rattle.lease_store.specs.Puts.{puts_over};
ghost use Rattle.lease_store.specs.Writes.{without};

use crate::compares::is_present;
use crate::expiries::{Expiries, drop_ended, exchange, forget, has_come};
use crate::order::compare;
use crate::pairs::put;
use pat_base::{Shared, Ticks};
use std::alloc::AllocError;
use store_keys::{Key, KeyEntry};

/// What the store holds at each key. Snapshots of it own the entries too, so that a snapshot copies no value.
pub type Entries = Vec<(Key, Shared<KeyEntry>)>;

/// Holds these pairs. It fails only for want of memory, and then changes nothing.
pub fn put_all(
    entries: &mut Entries,
    expiries: &mut Expiries,
    puts: Entries,
) -> Result<(), AllocError>
    requires expiries { AreExpiriesOf entries.old.items expiries.old.items }
    ensures entries { OnOk result (entries.new.items ≡ puts_over entries.old.items puts.items) }
    ensures expiries { AreExpiriesOf entries.new.items expiries.new.items }
    ensures err { OnErr result (entries.new.items ≡ entries.old.items) }
{
    entries.reserve(puts.len())?;
    expiries.reserve(puts.len())?;
    for (key, stored) in puts {
        exchange(expiries, key, stored.get().expiry);
        put(entries, key, stored);
    }
    Ok(())
}

/// Holds nothing at a key from now on.
pub fn delete(entries: &mut Entries, expiries: &mut Expiries, key: Key)
    requires expiries { AreExpiriesOf entries.old.items expiries.old.items }
    ensures entries { entries.new.items ≡ without key entries.old.items }
    ensures expiries { AreExpiriesOf entries.new.items expiries.new.items }
{
    forget(expiries, key);
    entries.retain(|pair| compare(key, pair.0).is_ne());
}

/// Holds nothing at the keys that are absent at this moment.
pub fn drop_absent(entries: &mut Entries, expiries: &mut Expiries, now: Ticks)
    requires order { IsTrue (is_sorted key_cmp entries.old.items) }
    requires expiries { AreExpiriesOf entries.old.items expiries.old.items }
    ensures entries { entries.new.items ≡ present_pairs now.0 entries.old.items }
    ensures expiries { AreExpiriesOf entries.new.items expiries.new.items }
{
    if has_come(expiries, now) {
        drop_ended(expiries, now);
        entries.retain(|pair| is_present(now, pair.1.get().expiry));
    }
}
