//! The sealed pieces of a log.
ghost use Rattle.std.specs.Prelude.{ℕ, ◌≡◌, ◌≤◌, ◌<◌, ◌+◌, ◌++◌, [], length, take, drop, IfOk, OnOk, OnErr, vec_len, vec_capacity};
ghost use Rattle.wal_model.specs.Log.{end_of, IsPrefixOf};
ghost use Rattle.wal_model.specs.Pieces.{AreChained, Continues, Holds, joined};
ghost use Rattle.wal_model.specs.Sealed.{most_in_pieces};

use crate::Entry;
use crate::placed::{Placed, pieces_before};
use pat_base::Lsn;
use std::alloc::{AllocError, Global};
use std::marker::Model;

/// How many entries may lie in pieces of a log, so that they can be counted.
const MOST_IN_PIECES: usize = 1 << 63;

/// The sealed pieces of a log, one behind another. Each knows how many entries stand before it and where it ends, so a
/// place is sought by halves, and nothing is added up over the pieces.
#[derive(Drop)]
pub(crate) struct Pieces {
    placed: Vec<Placed>,
    /// How many entries they have.
    count: usize,
}

impl Model for Pieces {
    ghost use Rattle.std.specs.Prelude.{List};
    ghost use Rattle.wal_model.specs.declared.entry.Entry.{Entry};
    ghost use Rattle.wal_model.specs.Pieces.{AreCounted, joined};

    ghost Value = { List Entry };

    ghost view = { λ pieces. joined pieces.placed.items };

    ghost invariant = { λ pieces. AreCounted pieces.placed.items pieces.count };
}

impl Pieces {
    /// No pieces, which takes no memory.
    pub(crate) fn new(alloc: Global) -> Pieces
        ensures { result ≡ [] }
    {
        Pieces {
            placed: Vec::new(alloc),
            count: 0,
        }
    }

    /// How many entries it has.
    pub(crate) fn len(&self) -> usize
        ensures count { result ≡ length self.now }
        ensures most { result ≤ most_in_pieces }
    {
        self.count
    }

    /// Where the first entries end, so many, of which there are at least so many. It costs those behind them in one piece.
    pub(crate) fn end_within(&self, entries: usize) -> Lsn
        requires { entries ≤ length self.now }
        ensures { result.position ≡ end_of (take entries self.now) }
    {
        end_within(&self.placed, entries)
    }

    /// The piece that has the entry at a place.
    pub(crate) fn holding(&self, place: usize) -> &Placed
        requires { place < length self.now }
        ensures { Holds result.now self.now place }
    {
        &self.placed[pieces_before(&self.placed, place + 1) - 1]
    }

    /// The entries from a place on that lie in one piece.
    pub(crate) fn run(&self, place: usize) -> &[Entry]
        requires { place < length self.now }
        ensures front { IsPrefixOf result.now (drop place self.now) }
        ensures some { 0 < length result.now }
    {
        let held = self.holding(place);
        &held.piece.entries()[place - held.before..]
    }

    /// Puts a piece behind the entries that stand before it, and drops those behind them. It fails only for want of memory, and
    /// then stays as it was.
    pub(crate) fn put(&mut self, next: Placed) -> Result<(), AllocError>
        requires { Continues next self.old }
        ensures ok { OnOk result (self.new ≡ take next.before self.old ++ next.piece) }
        ensures err { OnErr result (self.new ≡ self.old) }
    {
        if next.piece.len() > MOST_IN_PIECES.saturating_sub(next.before) {
            return Err(AllocError);
        }
        let count = next.before + next.piece.len();
        self.placed.reserve(1)?;
        cut(&mut self.placed, next.before);
        self.placed.push(next)?;
        self.count = count;
        Ok(())
    }

    /// Keeps the first entries, so many, of which there are at least so many, and drops the others. It takes no memory.
    pub(crate) fn truncate(&mut self, entries: usize)
        requires { entries ≤ length self.old }
        ensures { self.new ≡ take entries self.old }
    {
        cut(&mut self.placed, entries);
        self.count = entries;
    }

    /// The same pieces once more, each shared. It fails only for want of memory.
    pub(crate) fn try_clone(&self) -> Result<Pieces, AllocError>
        ensures { IfOk result (λ pieces. pieces ≡ self.now) }
    {
        let mut placed = Vec::new(*self.placed.allocator());
        placed.reserve(self.placed.len())?;
        for each in &self.placed {
            placed.push(each.try_clone()?)?;
        }
        Ok(Pieces {
            placed,
            count: self.count,
        })
    }
}

/// Where the first entries of pieces end, so many, of which there are at least so many.
fn end_within(placed: &[Placed], entries: usize) -> Lsn
    requires chained { AreChained placed.now }
    requires within { entries ≤ length (joined placed.now) }
    ensures { result.position ≡ end_of (take entries (joined placed.now)) }
{
    let kept = pieces_before(placed, entries);
    if kept == 0 {
        return Lsn { position: 0 };
    }
    let last = &placed[kept - 1];
    last.end_within(entries - last.before)
}

/// Keeps the first entries of pieces, so many, of which there are at least so many.
fn cut(placed: &mut Vec<Placed>, entries: usize)
    requires chained { AreChained placed.old.items }
    requires within { entries ≤ length (joined placed.old.items) }
    ensures chained { AreChained placed.new.items }
    ensures kept { joined placed.new.items ≡ take entries (joined placed.old.items) }
    ensures capacity { vec_capacity placed.new ≡ vec_capacity placed.old }
    ensures len { vec_len placed.new ≤ vec_len placed.old }
{
    let kept = pieces_before(placed, entries);
    placed.truncate(kept);
    if kept > 0 {
        let last = &mut placed[kept - 1];
        last.truncate(entries - last.before);
    }
}
