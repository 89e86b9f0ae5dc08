//! Sealed pieces where they stand.
ghost use Rattle.std.specs.Prelude.{ℕ, ◌≡◌, ◌≤◌, ◌<◌, ◌+◌, ◌-◌, length, take, drop, slice_index_or, IfOk};
ghost use Rattle.wal_model.specs.Log.{end_of};
ghost use Rattle.wal_model.specs.declared.placed.Placed.{Placed};
ghost use Rattle.wal_model.specs.Pieces.{AreChained};

use crate::piece::Piece;
use crate::run::bytes_of;
use pat_base::Lsn;
use std::alloc::AllocError;

/// A sealed piece and where it stands in a log.
#[derive(Drop)]
pub(crate) struct Placed {
    /// The piece.
    pub(crate) piece: Piece,
    /// How many entries of the log stand before it.
    pub(crate) before: usize,
    /// Where it ends, in bytes of the log.
    pub(crate) end: Lsn,
}

impl Placed {
    /// Where its first entries end, so many, of which there are at least so many. It costs those behind them.
    pub(crate) fn end_within(&self, entries: usize) -> Lsn
        requires within { entries ≤ length self.now.piece }
        requires end { end_of self.now.piece ≤ self.now.end.position }
        ensures { result.position + end_of (drop entries self.now.piece) ≡ self.now.end.position }
    {
        Lsn {
            position: self.end.position - bytes_of(&self.piece.entries()[entries..]),
        }
    }

    /// Keeps the first entries, so many, of which there are at least so many.
    pub(crate) fn truncate(&mut self, entries: usize)
        requires within { entries ≤ length self.old.piece }
        requires end { end_of self.old.piece ≤ self.old.end.position }
        ensures piece { self.new.piece ≡ take entries self.old.piece }
        ensures before { self.new.before ≡ self.old.before }
        ensures end { self.new.end.position + end_of (drop entries self.old.piece) ≡ self.old.end.position }
    {
        self.end = self.end_within(entries);
        self.piece.truncate(entries);
    }

    /// The same piece at the same place once more. It fails only where the owners can't be counted any more.
    pub(crate) fn try_clone(&self) -> Result<Placed, AllocError>
        ensures { IfOk result (λ placed. placed ≡ self.now) }
    {
        Ok(Placed {
            piece: self.piece.try_clone()?,
            before: self.before,
            end: self.end,
        })
    }
}

/// How many pieces of a log begin before so many entries.
pub(crate) fn pieces_before(placed: &[Placed], entries: usize) -> usize
    requires { AreChained placed.now }
    ensures within { result ≤ length placed.now }
    ensures before { (d : Placed) → 0 < result → (slice_index_or placed.now (result - 1) d).before < entries }
    ensures behind { (d : Placed) → result < length placed.now → entries ≤ (slice_index_or placed.now result d).before }
{
    placed.partition_point(|each| each.before < entries)
}
