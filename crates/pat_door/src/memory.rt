//! A door in memory, with the calls that are to fail: for tests and for callers that embed the program.
ghost use Rattle.std.specs.Prelude.{ℕ, ◌≡◌, ◌<◌, ◌≤◌, ◌-◌, ◌++◌, ◌∷◌, ◌↔◌, ◌⊎◌, [], List, length, map, take, Some, None, Contains, min, IfOk, IsOk, IsSome, IsOkAnd, IsErr, IsTrue, OnOk, OnErr, MatchResult, option_copied, slice_get};
ghost use Rattle.pat_outside.specs.Outside.{Known, Rose};
ghost use Rattle.pat_outside.specs.Memory.{counted};
ghost use Rattle.pat_door.specs.Memory.{DoorState, ReadSo, counted_read};
ghost use Rattle.pat_door.specs.Doors.{Accepted, DoorCall, Failed as LineFailed, Opened, ReadCounts, Tells, bytes_here, none_read, read_more, after_accept, after_read, after_write, after_hang_up};

use crate::Door;
use crate::answers::Answers;
use crate::call::Call;
use crate::unread::Unread;
use ghost_list::GhostList;
use pat_outside::Failed;
use std::alloc::{AllocError, Global};
use std::collections::VecDeque;
use std::marker::Model;

/// Connections that come in order, and what is answered on them. It listens at any address, gives as much as fits, and takes
/// a whole piece at each call. It fails exactly at the calls of the listed numbers, counted from 1 over `open`, `accept`,
/// `read` and `write`; for `accept` with no connection left; for `read` and `write` without an accepted connection; and for
/// a piece longer than the room left. To accept while a connection is accepted is no fault: it ends that one.
#[derive(Drop)]
pub struct MemoryDoor {
    coming: VecDeque<Vec<u8>>,
    here: Option<Unread>,
    answers: Answers,
    fails: Vec<u64>,
    calls: u64,
    door_faults: u64,
    connection_faults: u64,
    // How many bytes were read of the connection that was accepted last, and how many of them before the last read.
    read: u64,
    read_before: u64,
    // What it was called for.
    heard: GhostList<Call>,
}

impl Model for MemoryDoor {
    ghost use Rattle.std.specs.Prelude.{◌≤◌, map};
    ghost use Rattle.std.specs.VecDeque.{deque_len};
    ghost use Rattle.pat_door.specs.Memory.{DoorState};

    ghost Value = { DoorState };

    ghost view = { λ s. record {
      facts = record { coming = map (λ v. v.items) s.coming.items; here = s.here; answered = s.answers.answers };
      room = s.answers.room;
      fails = s.fails.items;
      calls = s.calls;
      door_faults = s.door_faults;
      connection_faults = s.connection_faults;
      read = s.read;
      read_before = s.read_before;
      heard = s.heard.items;
    } };

    ghost invariant = { λ s. deque_len s.coming ≤ s.answers.unbegun };
}

impl MemoryDoor {
    /// A door that these connections come to, in this order, with room for so many bytes of all answers together, of which
    /// the calls of these numbers fail. All memory is taken here. It fails only for want of memory.
    pub fn new(
        alloc: Global,
        connections: Vec<Vec<u8>>,
        room: usize,
        fails: Vec<u64>,
    ) -> Result<Self, AllocError>
        ensures { IfOk result (λ door. door ≡ record {
          facts = record { coming = map (λ v. v.items) connections.items; here = None; answered = [] };
          room = room;
          fails = fails.items;
          calls = 0;
          door_faults = 0;
          connection_faults = 0;
          read = 0;
          read_before = 0;
          heard = [];
        }) }
    {
        let answers = Answers::new(alloc, room, connections.len())?;
        Ok(MemoryDoor {
            coming: VecDeque::from(connections),
            here: None,
            answers,
            fails,
            calls: 0,
            door_faults: 0,
            connection_faults: 0,
            read: 0,
            read_before: 0,
            heard: GhostList::new(),
        })
    }

    /// What was answered on the accepted connection of this number, counted from 0; `None` where so many weren't accepted.
    pub fn answers(&self, number: usize) -> Option<&[u8]>
        ensures { option_copied result ≡ slice_get self.now.facts.answered number }
    {
        self.answers.get(number)
    }

    /// Counts a call, and answers whether it is one of those that are to fail.
    fn is_to_fail(&mut self) -> bool
        ensures which { IsTrue result ↔ Contains self.old.fails (counted self.old.calls) }
        ensures after { self.new ≡ record self.old { calls = counted self.old.calls } }
    {
        self.calls = self.calls.saturating_add(1);
        self.fails.contains(&self.calls)
    }

    /// Counts a fault of `open` or `accept`.
    fn door_fault(&mut self) -> Failed
        ensures after { self.new ≡ record self.old { door_faults = counted self.old.door_faults } }
        ensures grows { self.old.door_faults ≤ self.new.door_faults }
    {
        self.door_faults = self.door_faults.saturating_add(1);
        Failed
    }

    /// Counts a fault of `read` or `write`.
    fn line_fault(&mut self) -> Failed
        ensures after { self.new ≡ record self.old { connection_faults = counted self.old.connection_faults; heard = self.old.heard ++ LineFailed ∷ [] } }
        ensures grows { self.old.connection_faults ≤ self.new.connection_faults }
    {
        self.connection_faults = self.connection_faults.saturating_add(1);
        self.heard = self.heard.and(&Call::failed());
        Failed
    }
}

impl Door for MemoryDoor {
    ghost told = { λ s. Some s.facts };

    ghost door_faults = { λ s. s.door_faults };

    ghost connection_faults = { λ s. s.connection_faults };

    ghost serves = { λ s n. (s.fails ≡ []) × (n ≤ length s.facts.coming) };

    ghost takes = { λ s n. (s.fails ≡ []) × IsSome s.facts.here × (n ≤ s.room) };

    ghost has_room = { λ s n. (s.fails ≡ []) × (n ≤ s.room) };

    ghost heard = { λ s calls. s.heard ≡ calls };

    ghost has_read = { λ s counts. ReadSo s counts };

    fn open(&mut self, address: &[u8]) -> Result<(), Failed>
        ensures same { Some self.new.facts ≡ Some self.old.facts }
        ensures failed { OnErr result (Rose self.old.door_faults self.new.door_faults) }
        ensures grows { self.old.door_faults ≤ self.new.door_faults }
        ensures line { self.new.connection_faults ≡ self.old.connection_faults }
        ensures served { (n : ℕ) → (self.old.fails ≡ []) × (n ≤ length self.old.facts.coming)
            → IsOk result × ((self.new.fails ≡ []) × (n ≤ length self.new.facts.coming)) }
        ensures heard { (calls : List DoorCall) → self.old.heard ≡ calls → MatchResult result (λ _. self.new.heard ≡ calls ++ Opened address.now ∷ []) (λ _. self.new.heard ≡ calls) }
        ensures spare { (n : ℕ) → (self.old.fails ≡ []) × (n ≤ self.old.room) → (self.new.fails ≡ []) × (n ≤ self.new.room) }
        ensures counts { (counts : ReadCounts) → ReadSo self.old counts → ReadSo self.new counts }

        // Beyond a door's promise: which calls fail, and all that each call leaves.
        ensures fails { IsErr result ↔ Contains self.old.fails (counted self.old.calls) }
        ensures err { OnErr result (self.new ≡ record self.old { calls = counted self.old.calls; door_faults = counted self.old.door_faults }) }
        ensures ok { OnOk result (self.new ≡ record self.old { calls = counted self.old.calls; heard = self.old.heard ++ Opened address.now ∷ [] }) }
    {
        if self.is_to_fail() {
            return Err(self.door_fault());
        }
        self.heard = self.heard.and(&Call::opened(address));
        Ok(())
    }

    fn accept(&mut self) -> Result<(), Failed>
        ensures some { OnOk result (Tells (Some self.old.facts) (λ facts. 0 < length facts.coming)) }
        ensures after { OnOk result (Tells (Some self.old.facts) (λ facts. Some self.new.facts ≡ Some (after_accept facts))) }
        ensures same { OnErr result (Some self.new.facts ≡ Some self.old.facts) }
        ensures failed { OnErr result (Rose self.old.door_faults self.new.door_faults) }
        ensures grows { self.old.door_faults ≤ self.new.door_faults }
        ensures line { self.new.connection_faults ≡ self.old.connection_faults }
        ensures served { (n : ℕ) → (self.old.fails ≡ []) × (n ≤ length self.old.facts.coming) → 0 < n
            → IsOk result × ((self.new.fails ≡ []) × (n - 1 ≤ length self.new.facts.coming)) }
        ensures heard { (calls : List DoorCall) → self.old.heard ≡ calls → MatchResult result (λ _. self.new.heard ≡ calls ++ Accepted ∷ []) (λ _. self.new.heard ≡ calls) }
        ensures spare { (n : ℕ) → (self.old.fails ≡ []) × (n ≤ self.old.room)
            → (((self.new.fails ≡ []) × (n ≤ self.new.room))) × OnOk result ((self.new.fails ≡ []) × IsSome self.new.facts.here × (n ≤ self.new.room)) }
        ensures begun { OnOk result (ReadSo self.new none_read) }
        ensures counts { OnErr result ((counts : ReadCounts) → ReadSo self.old counts → ReadSo self.new counts) }

        // Beyond a door's promise: which calls fail, and all that each call leaves.
        ensures fails { IsErr result ↔ ((Contains self.old.fails (counted self.old.calls)) ⊎ (self.old.facts.coming ≡ [])) }
        ensures err { OnErr result (self.new ≡ record self.old { calls = counted self.old.calls; door_faults = counted self.old.door_faults }) }
        ensures ok { OnOk result (self.new ≡ record self.old { facts = after_accept self.old.facts; calls = counted self.old.calls; read = 0; read_before = 0; heard = self.old.heard ++ Accepted ∷ [] }) }
    {
        if self.is_to_fail() {
            return Err(self.door_fault());
        }
        match self.coming.pop_front() {
            None => Err(self.door_fault()),
            Some(bytes) => {
                self.here = Some(Unread::new(bytes));
                self.answers.begin();
                self.read = 0;
                self.read_before = 0;
                self.heard = self.heard.and(&Call::accepted());
                Ok(())
            }
        }
    }

    fn read(&mut self, buf: &mut [u8]) -> Result<usize, Failed>
        ensures within { IfOk result (λ count. count ≤ length buf.old) }
        ensures present { OnOk result (Tells (Some self.old.facts) (λ facts. IsSome facts.here)) }
        ensures bytes { IfOk result (λ count. Known (bytes_here (Some self.old.facts)) (λ all. (count ≤ length all) × (take count buf.new ≡ take count all))) }
        ensures after { IfOk result (λ count. Tells (Some self.old.facts) (λ facts. Some self.new.facts ≡ Some (after_read count facts))) }
        ensures end { IfOk result (λ count. Known (bytes_here (Some self.old.facts)) (λ all. count ≡ 0 → 0 < length buf.old → length all ≡ 0)) }
        ensures same { OnErr result (Some self.new.facts ≡ Some self.old.facts) }
        ensures failed { OnErr result (Rose self.old.connection_faults self.new.connection_faults) }
        ensures grows { self.old.connection_faults ≤ self.new.connection_faults }
        ensures door { self.new.door_faults ≡ self.old.door_faults }
        ensures served { (n : ℕ) → (self.old.fails ≡ []) × (n ≤ length self.old.facts.coming)
            → (self.new.fails ≡ []) × (n ≤ length self.new.facts.coming) }
        ensures reliable { (n : ℕ) → (self.old.fails ≡ []) × IsSome self.old.facts.here × (n ≤ self.old.room)
            → IsOk result × ((self.new.fails ≡ []) × IsSome self.new.facts.here × (n ≤ self.new.room)) }
        ensures spare { (n : ℕ) → (self.old.fails ≡ []) × (n ≤ self.old.room) → (self.new.fails ≡ []) × (n ≤ self.new.room) }
        ensures heard { (calls : List DoorCall) → self.old.heard ≡ calls → MatchResult result (λ _. self.new.heard ≡ calls) (λ _. self.new.heard ≡ calls ++ LineFailed ∷ []) }
        ensures counts { (counts : ReadCounts) → ReadSo self.old counts
            → MatchResult result (λ count. ReadSo self.new (read_more count counts)) (λ _. ReadSo self.new counts) }

        // Beyond a door's promise: which calls fail, and all that each call leaves.
        ensures fails { IsErr result ↔ ((Contains self.old.fails (counted self.old.calls)) ⊎ (self.old.facts.here ≡ None)) }
        ensures err { OnErr result (self.new ≡ record self.old { calls = counted self.old.calls; connection_faults = counted self.old.connection_faults; heard = self.old.heard ++ LineFailed ∷ [] }) }
        ensures count { IfOk result (λ count. Known self.old.facts.here (λ all. count ≡ min (length all) (length buf.old))) }
        ensures ok { IfOk result (λ count. self.new ≡ counted_read count (record self.old { facts = after_read count self.old.facts; calls = counted self.old.calls })) }
    {
        if self.is_to_fail() {
            return Err(self.line_fault());
        }
        match &mut self.here {
            None => Err(self.line_fault()),
            Some(unread) => {
                let count = unread.read(buf);
                self.read_before = self.read;
                self.read = self.read.saturating_add(count as u64);
                Ok(count)
            }
        }
    }

    fn write(&mut self, piece: &[u8]) -> Result<usize, Failed>
        ensures within { IfOk result (λ count. count ≤ length piece.now) }
        ensures some { IfOk result (λ count. 0 < length piece.now → 0 < count) }
        ensures present { OnOk result (Tells (Some self.old.facts) (λ facts. IsSome facts.here)) }
        ensures grown { IfOk result (λ count. Tells (Some self.old.facts) (λ facts. Some self.new.facts ≡ Some (after_write (take count piece.now) facts))) }
        ensures same { OnErr result (Some self.new.facts ≡ Some self.old.facts) }
        ensures failed { OnErr result (Rose self.old.connection_faults self.new.connection_faults) }
        ensures grows { self.old.connection_faults ≤ self.new.connection_faults }
        ensures door { self.new.door_faults ≡ self.old.door_faults }
        ensures served { (n : ℕ) → (self.old.fails ≡ []) × (n ≤ length self.old.facts.coming)
            → (self.new.fails ≡ []) × (n ≤ length self.new.facts.coming) }
        ensures room { (n : ℕ) → (self.old.fails ≡ []) × IsSome self.old.facts.here × (n ≤ self.old.room) → length piece.now ≤ n
            → IsOkAnd result (λ count. (self.new.fails ≡ []) × IsSome self.new.facts.here × (n - count ≤ self.new.room)) }
        ensures spare { (n : ℕ) → (self.old.fails ≡ []) × (n ≤ self.old.room)
            → MatchResult result (λ count. (self.new.fails ≡ []) × (n - count ≤ self.new.room)) (λ _. (self.new.fails ≡ []) × (n ≤ self.new.room)) }
        ensures heard { (calls : List DoorCall) → self.old.heard ≡ calls → MatchResult result (λ _. self.new.heard ≡ calls) (λ _. self.new.heard ≡ calls ++ LineFailed ∷ []) }
        ensures counts { (counts : ReadCounts) → ReadSo self.old counts → ReadSo self.new counts }

        // Beyond a door's promise: which calls fail, and all that each call leaves.
        ensures fails { IsErr result ↔ ((Contains self.old.fails (counted self.old.calls)) ⊎ ((self.old.facts.here ≡ None) ⊎ (self.old.room < length piece.now))) }
        ensures err { OnErr result (self.new ≡ record self.old { calls = counted self.old.calls; connection_faults = counted self.old.connection_faults; heard = self.old.heard ++ LineFailed ∷ [] }) }
        ensures ok { IfOk result (λ count. (count ≡ length piece.now)
            × (self.new ≡ record self.old { facts = after_write piece.now self.old.facts; room = self.old.room - count; calls = counted self.old.calls })) }
    {
        if self.is_to_fail() || self.here.is_none() || piece.len() > self.answers.room() {
            return Err(self.line_fault());
        }
        self.answers.add(piece);
        Ok(piece.len())
    }

    fn hang_up(&mut self)
        ensures after { Tells (Some self.old.facts) (λ facts. Some self.new.facts ≡ Some (after_hang_up facts)) }
        ensures door { self.new.door_faults ≡ self.old.door_faults }
        ensures line { self.new.connection_faults ≡ self.old.connection_faults }
        ensures served { (n : ℕ) → (self.old.fails ≡ []) × (n ≤ length self.old.facts.coming)
            → (self.new.fails ≡ []) × (n ≤ length self.new.facts.coming) }
        ensures spare { (n : ℕ) → (self.old.fails ≡ []) × (n ≤ self.old.room) → (self.new.fails ≡ []) × (n ≤ self.new.room) }
        ensures heard { (calls : List DoorCall) → self.old.heard ≡ calls → self.new.heard ≡ calls }
        ensures counts { (counts : ReadCounts) → ReadSo self.old counts → ReadSo self.new counts }

        // Beyond a door's promise: all that it leaves, and that it is no call that counts.
        ensures all { self.new ≡ record self.old { facts = after_hang_up self.old.facts } }
    {
        self.here = None;
    }
}
