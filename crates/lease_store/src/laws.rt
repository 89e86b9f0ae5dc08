//! Laws of every run of the store. Each is a function without a body whose contract is what is proved.
ghost use Rattle.std.specs.Prelude.{ℕ, ◌≡◌, ◌≤◌, List, None, IsTrue};
ghost use Rattle.std.specs.FinMap.{find};
ghost use Rattle.store_keys.specs.declared.key.Key.{Key};
ghost use Rattle.lease_store.specs.KeyOrder.{key_cmp};
ghost use Rattle.store_keys.specs.declared.key.Key.TheVariants.{Leader, Scheduled};
ghost use Rattle.store_keys.specs.declared.txn.Txn.TheVariants as txns;
ghost use Rattle.store_keys.specs.declared.txn.OperatorTxn.TheVariants as operator_txns;
ghost use Rattle.store_keys.specs.declared.value.FailoverKey.{FailoverKey};
ghost use Rattle.pat_base.specs.declared.ticks.Ticks.{Ticks};
ghost use Rattle.lease_store.specs.Decision.{compares_of};
ghost use Rattle.lease_store.specs.Fencing.{StoreRequest, Call, IsGranted, ComparesWith, keys_after_request, keys_over};
ghost use Rattle.lease_store.specs.Keys.{Keys, first_keys};
ghost use Rattle.lease_store.specs.Kept.{IsKept};
ghost use Rattle.store_keys.specs.Settings.{Settings};
ghost use Rattle.lease_store.specs.Writes.{is_lease};

/// What holds of the pairs of a new store holds after all calls: the keys strictly rise, each value is of its key's kind,
/// and the configuration is there for good.
pub fn stores_are_kept()
    ensures first { (config : Settings) → IsKept (first_keys config).pairs }
    ensures calls { (store : Keys) (calls : List Call) → IsKept store.pairs → IsKept (keys_over store calls).pairs }
{}

/// Fencing: once a member was granted the lease of the leader key, by a Create or by a Renew, no transaction that
/// compares an earlier revision of that key is granted from then on, whatever is asked of the store in between, by
/// whom, and at which moments, and whether or not expired keys are dropped. Revisions only grow.
pub fn fencing()
    // Of every store, a lease that it grants, all calls that follow, and a request after them.
    ensures fenced { (store : Keys) (lease late : StoreRequest) (calls : List Call) (revision : ℕ)
        → IsKept store.pairs → IsTrue (is_lease lease.txn) → IsGranted store lease
        → ComparesWith Leader revision (compares_of late.txn) → revision ≤ store.revision
        → ¬ IsGranted (keys_over (keys_after_request store lease) calls) late }
    // The same of every run from the first configuration.
    ensures run { (config : Settings) (before calls : List Call) (lease late : StoreRequest) (revision : ℕ)
        → let store = keys_over (first_keys config) before in
        IsTrue (is_lease lease.txn) → IsGranted store lease
        → ComparesWith Leader revision (compares_of late.txn) → revision ≤ store.revision
        → ¬ IsGranted (keys_over (keys_after_request store lease) calls) late }
    ensures grows { (store : Keys) (calls : List Call) → store.revision ≤ (keys_over store calls).revision }
{}

/// Once a key isn't there, no transaction that compares a revision of it from before is granted from then on, whatever is
/// asked of the store in between: what was taken out is taken out once.
pub fn what_is_gone_stays_gone()
    ensures { (key : Key) (store : Keys) (calls : List Call) (late : StoreRequest) (revision : ℕ)
        → IsKept store.pairs → find key_cmp key store.pairs ≡ None → ComparesWith key revision (compares_of late.txn) → revision ≤ store.revision
        → ¬ IsGranted (keys_over store calls) late }
{}

/// A scheduled switchover fires once: a granted Fire takes the schedule of its revision out, and from then on no transaction
/// that compares that revision is granted, be it another Fire or the schedule's removal.
pub fn a_schedule_fires_once()
    ensures { (store : Keys) (fire late : StoreRequest) (calls : List Call) (leader revision : ℕ) (failover : FailoverKey) (ttl : Ticks)
        → IsKept store.pairs → fire.txn ≡ txns.Operators (operator_txns.Fire leader revision failover ttl) → IsGranted store fire → revision ≤ store.revision
        → ComparesWith Scheduled revision (compares_of late.txn) → ¬ IsGranted (keys_over (keys_after_request store fire) calls) late }
{}
