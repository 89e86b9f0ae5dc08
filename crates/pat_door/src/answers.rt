//! Answers of connections, one after another in one piece of memory.
ghost use Rattle.std.specs.Prelude.{◌≡◌, ◌≤◌, ◌<◌, ◌-◌, ◌++◌, [], ◌∷◌, length, IfOk, option_copied, slice_get, slice_range};
ghost use Rattle.pat_door.specs.Doors.{grow_last};

use std::alloc::{AllocError, Global};
use std::marker::Model;

/// What was answered on each connection, in room that was taken when it was made.
#[derive(Drop)]
pub struct Answers {
    bytes: Vec<u8>,
    // Where each answer begins. It ends where the next one begins, and the last one at the end.
    starts: Vec<usize>,
    room: usize,
    most: usize,
}

impl Model for Answers {
    ghost use Rattle.std.specs.Prelude.{◌≤◌, ◌-◌, length, vec_len, vec_capacity};
    ghost use Rattle.pat_door.specs.Memory.{AnswerState, AreInOrder, cut_at};

    ghost Value = { AnswerState };

    ghost view = { λ s. record { answers = cut_at s.starts.items s.bytes.items; room = s.room - vec_len s.bytes; unbegun = s.most - vec_len s.starts } };

    ghost invariant = { λ s. (AreInOrder s.starts.items (length s.bytes.items)) × (vec_len s.bytes ≤ s.room) × (s.room ≤ vec_capacity s.bytes)
        × (vec_len s.starts ≤ s.most) × (s.most ≤ vec_capacity s.starts) };
}

impl Answers {
    /// No answers, with room for `most` of them and for so many bytes of all of them together. It fails only for want of memory.
    pub fn new(alloc: Global, room: usize, most: usize) -> Result<Self, AllocError>
        ensures { IfOk result (λ made. made ≡ record { answers = []; room = room; unbegun = most }) }
    {
        Ok(Answers {
            bytes: Vec::with_capacity(alloc, room)?,
            starts: Vec::with_capacity(alloc, most)?,
            room,
            most,
        })
    }

    /// How many more bytes there is room for.
    pub fn room(&self) -> usize
        ensures { result ≡ self.now.room }
    {
        self.room - self.bytes.len()
    }

    /// Begins the next answer, which is empty.
    pub fn begin(&mut self)
        requires { 0 < self.old.unbegun }
        ensures { self.new ≡ record self.old { answers = self.old.answers ++ [] ∷ []; unbegun = self.old.unbegun - 1 } }
    {
        let end = self.bytes.as_slice().len();
        self.starts.push(end).unwrap();
    }

    /// Adds a piece to the last answer, where one was begun.
    pub fn add(&mut self, piece: &[u8])
        requires { length piece.now ≤ self.old.room }
        ensures { self.new ≡ record self.old { answers = grow_last piece.now self.old.answers; room = self.old.room - length piece.now } }
    {
        self.bytes.extend_from_slice(piece).unwrap();
    }

    /// The answer of this number, counted from 0, where it was begun.
    pub fn get(&self, number: usize) -> Option<&[u8]>
        ensures { option_copied result ≡ slice_get self.now.answers number }
    {
        let bytes = self.bytes.as_slice();
        let start = place_at(&self.starts, number)?;
        let end = place_at(&self.starts, number + 1).unwrap_or(bytes.len());
        Some(part(bytes, start, end))
    }
}

/// The place of this number, counted from 0, where there is one.
fn place_at(places: &[usize], number: usize) -> Option<usize>
    ensures { result ≡ slice_get places.now number }
{
    places.get(number).copied()
}

/// The bytes from one place to another.
fn part(bytes: &[u8], start: usize, end: usize) -> &[u8]
    requires ordered { start ≤ end }
    requires within { end ≤ length bytes.now }
    ensures { result.now ≡ slice_range bytes.now start end }
{
    &bytes[start..end]
}
