//! Copies of the list of all pairs, told again while nothing changes. They share the entries with the store.
ghost use Rattle.std.specs.Prelude.{◌≡◌, if◌then◌else◌, None, IfOk, IsTrue};
ghost use Rattle.std.specs.FinMap.{is_sorted};
ghost use Rattle.lease_store.specs.Answers.{present_pairs};
ghost use Rattle.lease_store.specs.Copied.{AreCopies};
ghost use Rattle.lease_store.specs.Expiries.{AreExpiriesOf, has_come};
ghost use Rattle.lease_store.specs.KeyOrder.{key_cmp};

use crate::expiries::has_come;
use crate::walks::{copies_of, copies_of_present};
use pat_base::{Shared, Ticks};
use std::alloc::{AllocError, Global};
use store_keys::{Key, KeyEntry};

/// A copy of the list of pairs, which several own. Its entries are the store's own: no value is copied.
pub type Copies = Shared<Vec<(Key, Shared<KeyEntry>)>>;

/// Copies of the pairs whose keys are present at a moment. Where that is all of them, those that were told before are told again. It fails
/// only for want of memory.
pub fn told(
    alloc: Global,
    entries: &[(Key, Shared<KeyEntry>)],
    expiries: &[(Ticks, Key)],
    copies: &mut Option<Copies>,
    now: Ticks,
) -> Result<Copies, AllocError>
    requires order { IsTrue (is_sorted key_cmp entries.now) }
    requires expiries { AreExpiriesOf entries.now expiries.now }
    requires copies { AreCopies entries.now copies.old }
    ensures told { IfOk result (λ told. told.items ≡ present_pairs now.0 entries.now) }
    ensures kept { AreCopies entries.now copies.new }
{
    if has_come(expiries, now) {
        return Shared::new(alloc, copies_of_present(alloc, entries, now)?);
    }
    told_again(alloc, entries, copies)
}

/// Copies of all pairs.
fn told_again(
    alloc: Global,
    entries: &[(Key, Shared<KeyEntry>)],
    copies: &mut Option<Copies>,
) -> Result<Copies, AllocError>
    requires copies { AreCopies entries.now copies.old }
    ensures told { IfOk result (λ told. told.items ≡ entries.now) }
    ensures kept { AreCopies entries.now copies.new }
{
    if let Some(told) = copies {
        return told.try_clone();
    }
    let told = Shared::new(alloc, copies_of(alloc, entries)?)?;
    *copies = Some(told.try_clone()?);
    Ok(told)
}

/// Forgets copies where an expiry has come at this moment: they are those of what was present before.
pub fn forget_ended(expiries: &[(Ticks, Key)], copies: &mut Option<Copies>, now: Ticks)
    ensures { copies.new ≡ (if has_come now.0 expiries.now then None else copies.old) }
{
    if has_come(expiries, now) {
        *copies = None;
    }
}
