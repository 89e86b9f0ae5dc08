//! The outside of a live cluster, by two meanings: a count of faults that never falls and, where they are told, what is to come and what
//! was done.
ghost use Rattle.std.specs.Prelude.{ℕ, ◌≡◌, ◌<◌, ◌≤◌, ◌-◌, ◌∷◌, List, Option, Some, IfOk, IsOk, OnErr, OnOk};
ghost use Rattle.pat_outside.specs.Outside.{Rose};
ghost use Rattle.live_outside.specs.declared.arrival.Arrival.{Arrival};
ghost use Rattle.live_outside.specs.Arrivals.{HungUp, OutsideFacts, Sent, Tells, after_deed, after_next};

use crate::Arrival;
use pat_outside::Failed;
use std::alloc::AllocError;

/// What comes to a live cluster, and where its answers go.
pub trait Outside {
    // What is to come, and what was done for clients, where they are told.
    ghost told: { Self → Option OutsideFacts };

    // How many calls of `next` failed.
    ghost faults: { Self → ℕ };

    // None of the next so many calls of `next` fails.
    ghost brings: { Self → ℕ → Type 0 };

    /// Waits for the next arrival. It fails where none can be had.
    fn next(&mut self) -> Result<Arrival, Failed>
        ensures first { IfOk result (λ arrival. Tells (told self.old) (λ facts. (rest : List Arrival) × (facts.coming ≡ arrival ∷ rest) × (told self.new ≡ Some (after_next rest facts)))) }
        ensures same { OnErr result (told self.new ≡ told self.old) }
        ensures failed { OnErr result (Rose (faults self.old) (faults self.new)) }
        ensures grows { faults self.old ≤ faults self.new }
        ensures brings { (n : ℕ) → brings self.old n → 0 < n → IsOk result × brings self.new (n - 1) };

    /// Hands over bytes for the client of this number, the last ones with `last`: it is hung up once it took them. What can't be written
    /// comes later, as a client that failed; so does nothing of a client that isn't there. On Err, want of memory, nothing was handed over.
    fn send(&mut self, client: u64, bytes: Vec<u8>, last: bool) -> Result<(), AllocError>
        ensures sent { OnOk result (Tells (told self.old) (λ facts. told self.new ≡ Some (after_deed (Sent client bytes.items last) facts))) }
        ensures same { OnErr result (told self.new ≡ told self.old) }
        ensures faults { faults self.new ≡ faults self.old }
        ensures brings { (n : ℕ) → brings self.old n → brings self.new n };

    /// Hangs up the client of this number, which may lose what it was sent. On Err, want of memory, it wasn't.
    fn hang_up(&mut self, client: u64) -> Result<(), AllocError>
        ensures hung_up { OnOk result (Tells (told self.old) (λ facts. told self.new ≡ Some (after_deed (HungUp client) facts))) }
        ensures same { OnErr result (told self.new ≡ told self.old) }
        ensures faults { faults self.new ≡ faults self.old }
        ensures brings { (n : ℕ) → brings self.old n → brings self.new n };
}
