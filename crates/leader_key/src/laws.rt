//! Laws of watchdogs.
ghost use Rattle.std.specs.Prelude.{ℕ, ◌≡◌, ◌+◌, ◌≤◌, None, false, true};
ghost use Rattle.leader_key.specs.Watchdog.{WatchdogFacts, FiresBy, HasMargin, IsInTime, IsLeaseSpan, fed, is_armable, is_late};

/// A watchdog that is fed in time fires no later than the lease on which it was fed ends. So a member that stalls has stopped
/// writing before another one can take the leader key.
pub fn watchdog_fires_before_the_lease_ends()
    ensures { (watchdog : WatchdogFacts) → (granted moment ttl : ℕ) → HasMargin watchdog → IsLeaseSpan ttl → is_armable watchdog.mode watchdog.works ≡ true → IsInTime watchdog.margin granted moment ttl → FiresBy (granted + ttl) (fed moment ttl watchdog) }
{}

/// Without a margin an answer that isn't late is in time for any lease that was granted since it was asked for. So whatever span leases are
/// asked for, a watchdog that is fed on one fires no later than that ends.
pub fn what_isnt_late_is_in_time()
    ensures { (granted moment sent ttl : ℕ) → is_late None moment sent ttl ≡ false → sent ≤ granted → IsInTime None granted moment ttl }
{}
