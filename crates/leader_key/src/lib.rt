//! The leader key as values that must be spent: a lease, a lease with its watchdog armed, and a writer. And the watchdog, which
//! ends the machine of a member whose agent doesn't go on in time.
#![tactic(auto)]

mod laws;
mod lease;
mod watchdog;

pub use laws::{watchdog_fires_before_the_lease_ends, what_isnt_late_is_in_time};
pub use lease::{Armed, Lease, NotArmed, Writer};
pub use watchdog::{Mode, Watchdog};
