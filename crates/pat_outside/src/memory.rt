//! A source and a sink in memory, with the calls that are to fail: for tests and for callers that embed the program.
ghost use Rattle.std.specs.Prelude.{ℕ, ◌≡◌, ◌<◌, ◌≤◌, ◌+◌, ◌-◌, ◌++◌, ◌↔◌, ◌⊎◌, [], length, take, drop, Some, Contains, min, IfOk, IsOk, IsOkAnd, IsErr, OnErr, vec_len, vec_capacity};
ghost use Rattle.pat_outside.specs.Outside.{Known, Rose};
ghost use Rattle.pat_outside.specs.Memory.{counted};

use crate::{Failed, Sink, Source};
use std::alloc::{AllocError, Global};
use std::marker::Model;

/// Bytes to be read. It gives as much as fits, and fails exactly at the calls of the listed numbers, counted from 1.
#[derive(Drop)]
pub struct MemorySource {
    bytes: Vec<u8>,
    at: usize,
    fails: Vec<u64>,
    calls: u64,
    faults: u64,
}

impl Model for MemorySource {
    ghost use Rattle.std.specs.Prelude.{◌≤◌, drop, vec_len};
    ghost use Rattle.pat_outside.specs.Memory.{Input};

    ghost Value = { Input };

    ghost view = { λ s. record { rest = drop s.at s.bytes.items; fails = s.fails.items; calls = s.calls; faults = s.faults } };

    ghost invariant = { λ s. s.at ≤ vec_len s.bytes };
}

impl MemorySource {
    /// A source of these bytes, of which the calls of these numbers fail.
    pub fn new(bytes: Vec<u8>, fails: Vec<u64>) -> Self
        ensures { result ≡ record { rest = bytes.items; fails = fails.items; calls = 0; faults = 0 } }
    {
        MemorySource {
            bytes,
            at: 0,
            fails,
            calls: 0,
            faults: 0,
        }
    }
}

impl Source for MemorySource {
    ghost rest = { λ s. Some s.rest };

    ghost faults = { λ s. s.faults };

    ghost is_reliable = { λ s. s.fails ≡ [] };

    fn read(&mut self, buf: &mut [u8]) -> Result<usize, Failed>
        ensures within { IfOk result (λ count. count ≤ length buf.old) }
        ensures bytes { IfOk result (λ count. Known (Some self.old.rest) (λ all. (count ≤ length all) × (take count buf.new ≡ take count all))) }
        ensures after { IfOk result (λ count. Known (Some self.old.rest) (λ all. Some self.new.rest ≡ Some (drop count all))) }
        ensures end { IfOk result (λ count. Known (Some self.old.rest) (λ all. count ≡ 0 → 0 < length buf.old → length all ≡ 0)) }
        ensures same { OnErr result (Some self.new.rest ≡ Some self.old.rest) }
        ensures failed { OnErr result (Rose self.old.faults self.new.faults) }
        ensures grows { self.old.faults ≤ self.new.faults }
        ensures reliable { self.old.fails ≡ [] → IsOk result × (self.new.fails ≡ []) }

        // Beyond a source's promise: which calls fail, and all that each call leaves.
        ensures fails { IsErr result ↔ Contains self.old.fails (counted self.old.calls) }
        ensures err { OnErr result (self.new ≡ record self.old { calls = counted self.old.calls; faults = counted self.old.faults }) }
        ensures ok { IfOk result (λ count. (count ≡ min (length self.old.rest) (length buf.old))
            × (self.new ≡ record self.old { rest = drop count self.old.rest; calls = counted self.old.calls })) }
    {
        self.calls = self.calls.saturating_add(1);
        if self.fails.contains(&self.calls) {
            self.faults = self.faults.saturating_add(1);
            return Err(Failed);
        }
        let left = &self.bytes[self.at..];
        let count = left.len().min(buf.len());
        buf[..count].copy_from_slice(&left[..count]);
        self.at += count;
        Ok(count)
    }
}

/// Bytes that were written, in room that was taken when it was made. It takes a whole piece at each call, and
/// fails exactly at the calls of the listed numbers, counted from 1, and for a piece longer than the room left.
#[derive(Drop)]
pub struct MemorySink {
    bytes: Vec<u8>,
    room: usize,
    fails: Vec<u64>,
    calls: u64,
    faults: u64,
}

impl Model for MemorySink {
    ghost use Rattle.std.specs.Prelude.{◌≤◌, ◌-◌, vec_len, vec_capacity};
    ghost use Rattle.pat_outside.specs.Memory.{Output};

    ghost Value = { Output };

    ghost view = { λ s. record { content = s.bytes.items; room = s.room - vec_len s.bytes; fails = s.fails.items; calls = s.calls; faults = s.faults } };

    ghost invariant = { λ s. (vec_len s.bytes ≤ s.room) × (s.room ≤ vec_capacity s.bytes) };
}

impl MemorySink {
    /// An empty sink with room for so many bytes, of which the calls of these numbers fail. It fails only for want of
    /// memory.
    pub fn new(alloc: Global, room: usize, fails: Vec<u64>) -> Result<Self, AllocError>
        ensures { IfOk result (λ sink. sink ≡ record { content = []; room = room; fails = fails.items; calls = 0; faults = 0 }) }
    {
        Ok(MemorySink {
            bytes: Vec::with_capacity(alloc, room)?,
            room,
            fails,
            calls: 0,
            faults: 0,
        })
    }

    /// The bytes written so far.
    pub fn bytes(&self) -> &[u8]
        ensures { result.now ≡ self.now.content }
    {
        &self.bytes
    }
}

impl Sink for MemorySink {
    ghost content = { λ s. Some s.content };

    ghost faults = { λ s. s.faults };

    ghost can_take = { λ s n. (s.fails ≡ []) × (n ≤ s.room) };

    fn write(&mut self, piece: &[u8]) -> Result<usize, Failed>
        ensures within { IfOk result (λ count. count ≤ length piece.now) }
        ensures some { IfOk result (λ count. 0 < length piece.now → 0 < count) }
        ensures grown { IfOk result (λ count. Known (Some self.old.content) (λ had. Some self.new.content ≡ Some (had ++ take count piece.now))) }
        ensures same { OnErr result (Some self.new.content ≡ Some self.old.content) }
        ensures failed { OnErr result (Rose self.old.faults self.new.faults) }
        ensures grows { self.old.faults ≤ self.new.faults }
        ensures room { (n : ℕ) → (self.old.fails ≡ []) × (n ≤ self.old.room) → length piece.now ≤ n
            → IsOkAnd result (λ count. (self.new.fails ≡ []) × (n - count ≤ self.new.room)) }

        // Beyond a sink's promise: which calls fail, and all that each call leaves.
        ensures fails { IsErr result ↔ ((Contains self.old.fails (counted self.old.calls)) ⊎ (self.old.room < length piece.now)) }
        ensures err { OnErr result (self.new ≡ record self.old { calls = counted self.old.calls; faults = counted self.old.faults }) }
        ensures ok { IfOk result (λ count. (count ≡ length piece.now)
            × (self.new ≡ record self.old { content = self.old.content ++ piece.now; room = self.old.room - count; calls = counted self.old.calls })) }
    {
        self.calls = self.calls.saturating_add(1);
        if self.fails.contains(&self.calls) || piece.len() > self.room - self.bytes.len() {
            self.faults = self.faults.saturating_add(1);
            return Err(Failed);
        }
        self.bytes.extend_from_slice(piece).unwrap();
        Ok(piece.len())
    }
}
