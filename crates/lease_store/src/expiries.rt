//! When the leases of keys end.
ghost use Rattle.std.specs.Prelude.{◌≡◌, ◌≤◌, ◌<◌, ◌+◌, IfSome, IfNone, ◌++◌, ◌∷◌, None, nat_lt, take, drop, filter, length, vec_len, vec_capacity};
ghost use Rattle.std.specs.List.Sorted.{IsStrictlySortedBy};
ghost use Rattle.lease_store.specs.Expiries.{AreOfKeysOnce, IsExchanged, expiry_cmp, expiries_without, expiries_with, first_of, has_come};

use crate::order::compare;
use pat_base::Ticks;
use std::cmp::Ordering;
use store_keys::Key;

/// The set of the leases that keys have: when each ends, and its key. It strictly rises, so what ends next is its front.
pub type Expiries = Vec<(Ticks, Key)>;

/// How two expiries stand in the order of the set.
fn compare_expiries(a: (Ticks, Key), b: (Ticks, Key)) -> Ordering
    ensures { result ≡ expiry_cmp a b }
{
    match a.0.cmp(&b.0) {
        Ordering::Equal => compare(a.1, b.1),
        earlier_or_later => earlier_or_later,
    }
}

/// Where one that is added goes: in front of the first that comes behind it.
fn place(expiries: &[(Ticks, Key)], added: (Ticks, Key)) -> usize
    ensures within { result ≤ length expiries.now }
    ensures place { expiries_with added expiries.now ≡ take result expiries.now ++ added ∷ drop result expiries.now }
{
    for (at, expiry) in expiries.iter().enumerate() {
        if compare_expiries(added, *expiry).is_lt() {
            return at;
        }
    }
    expiries.len()
}

/// Adds one. There is room for it.
fn add(expiries: &mut Expiries, added: (Ticks, Key))
    requires { vec_len expiries.old + 1 ≤ vec_capacity expiries.old }
    ensures expiries { expiries.new.items ≡ expiries_with added expiries.old.items }
    ensures len { vec_len expiries.new ≡ vec_len expiries.old + 1 }
    ensures room { vec_capacity expiries.old ≤ vec_capacity expiries.new }
{
    let at = place(expiries, added);
    expiries.insert(at, added).unwrap();
}

/// Where that of a key stands. What ends next is at the front, and is mostly what is renewed next.
fn place_of(expiries: &[(Ticks, Key)], key: Key) -> Option<usize>
    ensures within { IfSome result (λ at. at < length expiries.now) }
    ensures place { IfSome result (λ at. expiries_without key expiries.now ≡ take at expiries.now ++ drop (at + 1) expiries.now) }
    ensures none { IfNone result (expiries_without key expiries.now ≡ expiries.now) }
{
    for (at, expiry) in expiries.iter().enumerate() {
        if compare(key, expiry.1).is_eq() {
            return Some(at);
        }
    }
    None
}

/// Puts one over that at this place, behind those that stood behind it and come before the new one.
fn put_over(expiries: &mut [(Ticks, Key)], at: usize, added: (Ticks, Key))
    requires { at < length expiries.old }
    ensures { expiries.new ≡ take at expiries.old ++ expiries_with added (drop (at + 1) expiries.old) }
{
    let mut gap = at;
    while gap + 1 < expiries.len() {
        let next = expiries[gap + 1];
        if compare_expiries(added, next).is_lt() {
            break;
        }
        expiries[gap] = next;
        gap += 1;
    }
    expiries[gap] = added;
}

/// Takes that at this place out and adds another one. Mostly a lease is renewed and then ends later: no other is moved but those between.
fn replace(expiries: &mut Expiries, at: usize, added: (Ticks, Key))
    requires within { at < vec_len expiries.old }
    requires rise { IsStrictlySortedBy expiry_cmp expiries.old.items }
    ensures expiries { expiries.new.items ≡ expiries_with added (take at expiries.old.items ++ drop (at + 1) expiries.old.items) }
    ensures len { vec_len expiries.new ≡ vec_len expiries.old }
    ensures room { vec_capacity expiries.old ≤ vec_capacity expiries.new }
{
    if expiries[at].0 < added.0 {
        put_over(expiries, at, added);
    } else {
        expiries.remove(at);
        add(expiries, added);
    }
}

/// Takes that of a key out.
fn take_out(expiries: &mut Expiries, key: Key)
    ensures expiries { expiries.new.items ≡ expiries_without key expiries.old.items }
    ensures len { vec_len expiries.new ≤ vec_len expiries.old }
    ensures room { vec_capacity expiries.new ≡ vec_capacity expiries.old }
{
    match place_of(expiries, key) {
        None => {}
        Some(at) => {
            expiries.remove(at);
        }
    }
}

/// Lets a key expire at this moment, or never, from now on. There is room for one more.
pub fn exchange(expiries: &mut Expiries, key: Key, expiry: Option<Ticks>)
    requires room { vec_len expiries.old + 1 ≤ vec_capacity expiries.old }
    requires rise { IsStrictlySortedBy expiry_cmp expiries.old.items }
    requires once { AreOfKeysOnce expiries.old.items }
    ensures exchanged { IsExchanged key expiry expiries.old.items expiries.new.items }
    ensures len { vec_len expiries.new ≤ vec_len expiries.old + 1 }
    ensures room { vec_capacity expiries.old ≤ vec_capacity expiries.new }
{
    match expiry {
        None => take_out(expiries, key),
        Some(expiry) => match place_of(expiries, key) {
            None => add(expiries, (expiry, key)),
            Some(at) => replace(expiries, at, (expiry, key)),
        },
    }
}

/// Lets a key never expire from now on.
pub fn forget(expiries: &mut Expiries, key: Key)
    requires rise { IsStrictlySortedBy expiry_cmp expiries.old.items }
    requires once { AreOfKeysOnce expiries.old.items }
    ensures { IsExchanged key None expiries.old.items expiries.new.items }
{
    take_out(expiries, key);
}

/// Takes out those that have come at this moment.
pub fn drop_ended(expiries: &mut Expiries, now: Ticks)
    ensures { expiries.new.items ≡ filter (λ expiry. nat_lt now.0 expiry.0.0) expiries.old.items }
{
    expiries.retain(|expiry| now < expiry.0);
}

/// Whether one has come at this moment.
pub fn has_come(expiries: &[(Ticks, Key)], now: Ticks) -> bool
    ensures { result ≡ has_come now.0 expiries.now }
{
    match expiries.first() {
        None => false,
        Some(first) => first.0 <= now,
    }
}

/// When the first one comes, but at most a given moment.
pub fn first_expiry(expiries: &[(Ticks, Key)], most: Ticks) -> Ticks
    ensures { result ≡ first_of most expiries.now }
{
    match expiries.first() {
        Some(first) if first.0 < most => first.0,
        _ => most,
    }
}
