//! An outside in memory, with the calls that are to fail: for tests and for callers that embed a live cluster.
ghost use Rattle.std.specs.Prelude.{ℕ, ◌≡◌, ◌<◌, ◌≤◌, ◌-◌, ◌++◌, ◌∷◌, ◌↔◌, ◌⊎◌, [], List, length, map, Some, Contains, IfOk, IsOk, IsErr, IsTrue, OnOk, OnErr};
ghost use Rattle.pat_outside.specs.Outside.{Rose};
ghost use Rattle.pat_outside.specs.Memory.{counted};
ghost use Rattle.live_outside.specs.declared.arrival.Arrival.{Arrival};
ghost use Rattle.live_outside.specs.Arrivals.{HungUp, Sent, Tells, after_deed, after_next};
ghost use Rattle.live_outside.specs.Memory.{OutsideState, deed_text, done_text};

use crate::{Arrival, Deed, Done, Outside};
use pat_outside::Failed;
use std::alloc::{AllocError, Global};
use std::collections::VecDeque;
use std::marker::Model;

/// Arrivals that come in order, and what is done for clients. It tells its whole course. `next` fails exactly at the calls of the listed
/// numbers, counted from 1, and where nothing is left to come.
#[derive(Drop)]
pub struct MemoryOutside {
    coming: VecDeque<Arrival>,
    came: usize,
    done: Vec<Done>,
    fails: Vec<u64>,
    calls: u64,
    faults: u64,
}

impl Model for MemoryOutside {
    ghost use Rattle.std.specs.Prelude.{◌≤◌, ◌<◌, ◌+◌, ◌^◌, map};
    ghost use Rattle.std.specs.VecDeque.{deque_len};
    ghost use Rattle.live_outside.specs.Memory.{OutsideState, done_text};

    ghost Value = { OutsideState };

    ghost view = { λ s. record {
      facts = record { coming = s.coming.items; came = s.came; done = map done_text s.done.items };
      fails = s.fails.items;
      calls = s.calls;
      faults = s.faults;
    } };

    ghost invariant = { λ s. s.came + deque_len s.coming < 2 ^ 64 };
}

impl MemoryOutside {
    /// An outside from which these arrivals come, in this order, and of which the calls of `next` of these numbers fail.
    pub fn new(alloc: Global, arrivals: Vec<Arrival>, fails: Vec<u64>) -> Self
        ensures { result ≡ record {
          facts = record { coming = arrivals.items; came = 0; done = [] };
          fails = fails.items;
          calls = 0;
          faults = 0;
        } }
    {
        MemoryOutside {
            coming: VecDeque::from(arrivals),
            came: 0,
            done: Vec::new(alloc),
            fails,
            calls: 0,
            faults: 0,
        }
    }

    /// What was done for clients so far.
    pub fn done(&self) -> &[Done]
        ensures { map done_text result.now ≡ self.now.facts.done }
    {
        &self.done
    }

    /// Counts a call, and answers whether it is one of those that are to fail.
    fn is_to_fail(&mut self) -> bool
        ensures which { IsTrue result ↔ Contains self.old.fails (counted self.old.calls) }
        ensures after { self.new ≡ record self.old { calls = counted self.old.calls } }
    {
        self.calls = self.calls.saturating_add(1);
        self.fails.contains(&self.calls)
    }

    /// Counts a fault.
    fn fault(&mut self) -> Failed
        ensures after { self.new ≡ record self.old { faults = counted self.old.faults } }
        ensures grows { self.old.faults ≤ self.new.faults }
    {
        self.faults = self.faults.saturating_add(1);
        Failed
    }

    /// Writes a deed down.
    fn note(&mut self, deed: Deed) -> Result<(), AllocError>
        ensures done { OnOk result (self.new ≡ record self.old { facts = after_deed (deed_text deed) self.old.facts }) }
        ensures same { OnErr result (self.new ≡ self.old) }
    {
        let done = Done {
            behind: self.came,
            deed,
        };
        self.done.push(done)?;
        Ok(())
    }
}

impl Outside for MemoryOutside {
    ghost told = { λ s. Some s.facts };

    ghost faults = { λ s. s.faults };

    ghost brings = { λ s n. (s.fails ≡ []) × (n ≤ length s.facts.coming) };

    fn next(&mut self) -> Result<Arrival, Failed>
        ensures first { IfOk result (λ arrival. Tells (Some self.old.facts) (λ facts. (rest : List Arrival) × (facts.coming ≡ arrival ∷ rest) × (Some self.new.facts ≡ Some (after_next rest facts)))) }
        ensures same { OnErr result (Some self.new.facts ≡ Some self.old.facts) }
        ensures failed { OnErr result (Rose self.old.faults self.new.faults) }
        ensures grows { self.old.faults ≤ self.new.faults }
        ensures brings { (n : ℕ) → (self.old.fails ≡ []) × (n ≤ length self.old.facts.coming) → 0 < n
            → IsOk result × ((self.new.fails ≡ []) × (n - 1 ≤ length self.new.facts.coming)) }

        // Beyond an outside's promise: which calls fail, and all that each call leaves.
        ensures fails { IsErr result ↔ ((Contains self.old.fails (counted self.old.calls)) ⊎ (self.old.facts.coming ≡ [])) }
        ensures err { OnErr result (self.new ≡ record self.old { calls = counted self.old.calls; faults = counted self.old.faults }) }
        ensures ok { IfOk result (λ arrival. (rest : List Arrival) × (self.old.facts.coming ≡ arrival ∷ rest)
            × (self.new ≡ record self.old { facts = after_next rest self.old.facts; calls = counted self.old.calls })) }
    {
        if self.is_to_fail() {
            return Err(self.fault());
        }
        match self.coming.pop_front() {
            None => Err(self.fault()),
            Some(arrival) => {
                self.came += 1;
                Ok(arrival)
            }
        }
    }

    fn send(&mut self, client: u64, bytes: Vec<u8>, last: bool) -> Result<(), AllocError>
        ensures sent { OnOk result (Tells (Some self.old.facts) (λ facts. Some self.new.facts ≡ Some (after_deed (Sent client bytes.items last) facts))) }
        ensures same { OnErr result (Some self.new.facts ≡ Some self.old.facts) }
        ensures faults { self.new.faults ≡ self.old.faults }
        ensures brings { (n : ℕ) → (self.old.fails ≡ []) × (n ≤ length self.old.facts.coming)
            → (self.new.fails ≡ []) × (n ≤ length self.new.facts.coming) }

        // Beyond an outside's promise: all that it leaves.
        ensures ok { OnOk result (self.new ≡ record self.old { facts = after_deed (Sent client bytes.items last) self.old.facts }) }
        ensures err { OnErr result (self.new ≡ self.old) }
    {
        self.note(Deed::Sent {
            client,
            bytes,
            last,
        })
    }

    fn hang_up(&mut self, client: u64) -> Result<(), AllocError>
        ensures hung_up { OnOk result (Tells (Some self.old.facts) (λ facts. Some self.new.facts ≡ Some (after_deed (HungUp client) facts))) }
        ensures same { OnErr result (Some self.new.facts ≡ Some self.old.facts) }
        ensures faults { self.new.faults ≡ self.old.faults }
        ensures brings { (n : ℕ) → (self.old.fails ≡ []) × (n ≤ length self.old.facts.coming)
            → (self.new.fails ≡ []) × (n ≤ length self.new.facts.coming) }

        // Beyond an outside's promise: all that it leaves.
        ensures ok { OnOk result (self.new ≡ record self.old { facts = after_deed (HungUp client) self.old.facts }) }
        ensures err { OnErr result (self.new ≡ self.old) }
    {
        self.note(Deed::HungUp(client))
    }
}
