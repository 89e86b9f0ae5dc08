//! Sealed pieces of logs.
ghost use Rattle.std.specs.Prelude.{◌≡◌, ◌≤◌, length, take, IfOk};
ghost use Rattle.wal_model.specs.Sealed.{most_sealed};

use crate::Entry;
use pat_base::Shared;
use std::alloc::{AllocError, Global};
use std::marker::Model;

/// With how many entries a piece is sealed.
pub(crate) const MOST_SEALED: usize = 256;

/// A sealed piece of a log: entries that several logs share and none of them changes. A log that was cut counts only the first
/// of them, and a clause sees those alone.
#[derive(Drop)]
pub(crate) struct Piece {
    entries: Shared<Vec<Entry>>,
    count: usize,
}

impl Model for Piece {
    ghost use Rattle.std.specs.Prelude.{◌≤◌, List, length, take};
    ghost use Rattle.wal_model.specs.declared.entry.Entry.{Entry};
    ghost use Rattle.wal_model.specs.Sealed.{most_sealed};

    ghost Value = { List Entry };

    ghost view = { λ piece. take piece.count piece.entries.items };

    ghost invariant = { λ piece. (piece.count ≤ length piece.entries.items) × (length piece.entries.items ≤ most_sealed) };
}

impl Piece {
    /// A piece of these entries, at most 256, which it copies. It fails only for want of memory.
    pub(crate) fn new(alloc: Global, entries: &[Entry]) -> Result<Piece, AllocError>
        requires { length entries.now ≤ most_sealed }
        ensures { IfOk result (λ piece. piece ≡ entries.now) }
    {
        let mut owned = Vec::new(alloc);
        owned.extend_from_slice(entries)?;
        Ok(Piece {
            entries: Shared::new(alloc, owned)?,
            count: entries.len(),
        })
    }

    /// Its entries.
    pub(crate) fn entries(&self) -> &[Entry]
        ensures { result.now ≡ self.now }
    {
        &self.entries.get()[..self.count]
    }

    /// How many entries it has.
    pub(crate) fn len(&self) -> usize
        ensures count { result ≡ length self.now }
        ensures most { result ≤ most_sealed }
    {
        self.count
    }

    /// Keeps the first entries, so many, of which there are at least so many. Nobody who shares them sees that.
    pub(crate) fn truncate(&mut self, entries: usize)
        requires { entries ≤ length self.old }
        ensures { self.new ≡ take entries self.old }
    {
        self.count = entries;
    }

    /// The same piece once more, at no cost of its length. It fails only where the owners can't be counted any more.
    pub(crate) fn try_clone(&self) -> Result<Piece, AllocError>
        ensures { IfOk result (λ piece. piece ≡ self.now) }
    {
        Ok(Piece {
            entries: self.entries.try_clone()?,
            count: self.count,
        })
    }
}
