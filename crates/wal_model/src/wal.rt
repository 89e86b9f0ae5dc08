//! Write-ahead logs.
ghost use Rattle.std.specs.Prelude.{ℕ, ◌≡◌, ◌≤◌, ◌<◌, ◌+◌, ◌-◌, ◌^◌, ◌++◌, ◌↔◌, [], ◌∷◌, length, take, drop, min, slice_get, IsTrue, IfOk, OnOk, OnErr, IsErrOf};
ghost use Rattle.pat_base.specs.Lsn.{lsn_at};
ghost use Rattle.wal_model.specs.Log.{end_of, IsPrefixOf, is_prefix, common_of, fork_of, received};
ghost use Rattle.wal_model.specs.Pieces.{Grows};
ghost use Rattle.wal_model.specs.Sealed.{IsLog, most_sealed};
ghost use Rattle.wal_model.specs.declared.wal.WalFault.TheVariants as faults;

use crate::Entry;
use crate::piece::{MOST_SEALED, Piece};
use crate::pieces::Pieces;
use crate::placed::Placed;
use crate::run::{bytes_of, common_len};
use pat_base::Lsn;
use std::alloc::{AllocError, Global};
use std::marker::Model;
use thiserror::Error;

/// The greatest end of a log, in bytes.
const GREATEST: u64 = 1 << 63;

/// Why an entry was not appended.
#[derive(Clone, Copy, Debug, PartialEq, Eq, Error)]
pub enum WalFault {
    /// The log would end past 2^63 bytes.
    #[error("the log is full")]
    Full,
    /// There was no memory for one more entry.
    #[error("out of memory")]
    Memory,
}

impl From<AllocError> for WalFault {
    ghost from_gives = { λ _ fault. fault ≡ faults.Memory };

    fn from(_: AllocError) -> WalFault {
        WalFault::Memory
    }
}

/// A write-ahead log (PostgreSQL's documentation, "Reliability and the Write-Ahead Log"): a list of entries that ends at
/// most at 2^63 bytes. Its front lies in sealed pieces, which logs share, and only its tail is its own. Its end is kept beside
/// them, so asking for it adds nothing up.
#[derive(Drop)]
pub struct Wal {
    pieces: Pieces,
    tail: Vec<Entry>,
    end: Lsn,
}

impl Model for Wal {
    ghost use Rattle.std.specs.Prelude.{◌++◌, List};
    ghost use Rattle.wal_model.specs.declared.entry.Entry.{Entry};
    ghost use Rattle.wal_model.specs.Sealed.{IsLog};

    ghost Value = { List Entry };

    ghost view = { λ wal. wal.pieces ++ wal.tail.items };

    ghost invariant = { λ wal. IsLog wal.pieces wal.tail.items wal.end.position };
}

impl Wal {
    /// A log without entries, which takes no memory.
    pub fn new(alloc: Global) -> Wal
        ensures { result ≡ [] }
    {
        Wal {
            pieces: Pieces::new(alloc),
            tail: Vec::new(alloc),
            end: Lsn { position: 0 },
        }
    }

    /// Appends an entry. `Full` exactly where the log would end past 2^63 bytes, `Memory` only for want of memory. A
    /// refused log stays as it was.
    pub fn append(&mut self, entry: Entry) -> Result<(), WalFault>
        ensures full { IsErrOf result faults.Full ↔ (2 ^ 63 < end_of self.old + entry.bytes) }
        ensures ok { OnOk result (self.new ≡ self.old ++ entry ∷ []) }
        ensures err { OnErr result (self.new ≡ self.old) }
    {
        if !self.fits(entry.bytes) {
            return Err(WalFault::Full);
        }
        self.push(entry)?;
        Ok(())
    }

    /// Appends an entry for which there are bytes. It fails only for want of memory, and then stays as it was.
    fn push(&mut self, entry: Entry) -> Result<(), AllocError>
        requires { end_of self.old + entry.bytes ≤ 2 ^ 63 }
        ensures ok { OnOk result (self.new ≡ self.old ++ entry ∷ []) }
        ensures err { OnErr result (self.new ≡ self.old) }
    {
        seal_full(&mut self.pieces, &mut self.tail, self.end)?;
        self.tail.push(entry)?;
        self.end = Lsn {
            position: self.end.position + entry.bytes,
        };
        Ok(())
    }

    /// Whether an entry of so many bytes may be appended.
    pub fn fits(&self, bytes: u64) -> bool
        ensures { IsTrue result ↔ (end_of self.now + bytes ≤ 2 ^ 63) }
    {
        bytes <= GREATEST - self.end.position
    }

    /// Where the log ends: behind all bytes of its entries.
    pub fn end(&self) -> Lsn
        ensures position { result.position ≡ end_of self.now }
        ensures at { result ≡ lsn_at (end_of self.now) }
    {
        self.end
    }

    /// How many entries it has.
    pub fn len(&self) -> usize
        ensures { result ≡ length self.now }
    {
        self.pieces.len() + self.tail.len()
    }

    /// Whether it has no entry.
    pub fn is_empty(&self) -> bool
        ensures { IsTrue result ↔ (self.now ≡ []) }
    {
        self.len() == 0
    }

    /// The entry at a place, counted from 0. `None` exactly past the last one.
    pub fn get(&self, place: usize) -> Option<Entry>
        ensures { result ≡ slice_get self.now place }
    {
        self.run(place).first().copied()
    }

    /// The entries from a place on that lie in one piece, or in the tail: some, unless the place is past the last one.
    fn run(&self, place: usize) -> &[Entry]
        ensures front { IsPrefixOf result.now (drop place self.now) }
        ensures some { place < length self.now → 0 < length result.now }
    {
        let sealed = self.pieces.len();
        if place < sealed {
            return self.pieces.run(place);
        }
        let first = (place - sealed).min(self.tail.len());
        &self.tail[first..]
    }

    /// Whether the other log begins with this one. It first looks at the last own entry alone, and so tells most logs
    /// that diverged without walking over them.
    pub fn is_prefix(&self, of: &Wal) -> bool
        ensures test { result ≡ is_prefix self.now of.now }
        ensures prefix { IsTrue result ↔ IsPrefixOf self.now of.now }
    {
        self.last_stands_in(of) && self.common(of) == self.len()
    }

    /// Whether the last entry, if there is one, stands at the same place of the other log.
    fn last_stands_in(&self, of: &Wal) -> bool
        ensures { IsPrefixOf self.now of.now → IsTrue result }
    {
        match self.len().checked_sub(1) {
            Some(place) => self.get(place) == of.get(place),
            None => true,
        }
    }

    /// Where the two logs part: the end of the longest list of entries with which both begin. It walks over that list.
    pub fn fork(&self, other: &Wal) -> Lsn
        ensures position { result.position ≡ fork_of self.now other.now }
        ensures at { result ≡ lsn_at (fork_of self.now other.now) }
    {
        self.end_within(self.common(other))
    }

    /// With how many entries both logs begin. It walks over them.
    pub fn common(&self, other: &Wal) -> usize
        ensures count { result ≡ length (common_of self.now other.now) }
        ensures front { take result self.now ≡ common_of self.now other.now }
        ensures within { result ≤ length self.now }
    {
        let most = self.len().min(other.len());
        let mut place = 0;
        while place < most {
            let same = common_len(self.run(place), other.run(place));
            if same == 0 {
                return place;
            }
            place += same;
        }
        place
    }

    /// Where the first entries end, so many, of which there are at least so many. It costs those behind them in the tail or in
    /// one piece.
    fn end_within(&self, entries: usize) -> Lsn
        requires { entries ≤ length self.now }
        ensures { result.position ≡ end_of (take entries self.now) }
    {
        let sealed = self.pieces.len();
        if entries < sealed {
            return self.pieces.end_within(entries);
        }
        Lsn {
            position: self.end.position - bytes_of(&self.tail[entries - sealed..]),
        }
    }

    /// Keeps the first entries, so many, of which there are at least so many, and drops the others. It takes no memory, and
    /// costs what it drops.
    pub fn truncate(&mut self, entries: usize)
        requires { entries ≤ length self.old }
        ensures { self.new ≡ take entries self.old }
    {
        self.end = self.end_within(entries);
        let sealed = self.pieces.len();
        self.tail.truncate(entries.saturating_sub(sealed));
        self.pieces.truncate(entries.min(sealed));
    }

    /// Appends the next entries of another log, at most so many, and answers how many there were. The other log begins
    /// with this one, which isn't tested here: the call costs the entries that move. It fails only for want of memory,
    /// and then stays as it was.
    pub fn receive(&mut self, from: &Wal, most: usize) -> Result<usize, AllocError>
        requires { IsPrefixOf self.old from.now }
        ensures count { IfOk result (λ count. count ≡ min most (length from.now - length self.old)) }
        ensures ok { OnOk result (self.new ≡ received self.old from.now most) }
        ensures err { OnErr result (self.new ≡ self.old) }
    {
        let held = self.len();
        let count = most.min(from.len() - held);
        if let Err(failed) = self.reach(from, held + count) {
            self.truncate(held);
            return Err(failed);
        }
        Ok(count)
    }

    /// Takes the next entries of another log until it has so many. Where it fails for want of memory, it may have some of them.
    fn reach(&mut self, from: &Wal, until: usize) -> Result<(), AllocError>
        requires prefix { IsPrefixOf self.old from.now }
        requires longer { length self.old ≤ until }
        requires within { until ≤ length from.now }
        ensures ok { OnOk result (self.new ≡ take until from.now) }
        ensures grows { Grows self.old self.new from.now until }
    {
        self.share(from, until)?;
        let end = from.end();
        for place in self.len()..until {
            if let Some(entry) = from.get(place) {
                self.push(entry)?;
            }
        }
        Ok(())
    }

    /// Shares those of the other log's next pieces that end within so many entries. Each has at least one entry that the own
    /// pieces don't have.
    fn share(&mut self, from: &Wal, until: usize) -> Result<(), AllocError>
        requires prefix { IsPrefixOf self.old from.now }
        requires longer { length self.old ≤ until }
        ensures { Grows self.old self.new from.now until }
    {
        for _entry in self.pieces.len()..from.pieces.len() {
            if !self.share_next(from, until)? {
                return Ok(());
            }
        }
        Ok(())
    }

    /// Shares the piece of the other log in which the own pieces end, and answers whether there is one that ends within so many
    /// entries. It takes the place of the own entries that it has. It fails only for want of memory, and then stays as
    /// it was.
    fn share_next(&mut self, from: &Wal, until: usize) -> Result<bool, AllocError>
        requires prefix { IsPrefixOf self.old from.now }
        requires longer { length self.old ≤ until }
        ensures { Grows self.old self.new from.now until }
    {
        let sealed = self.pieces.len();
        if sealed >= from.pieces.len() {
            return Ok(false);
        }
        let next = from.pieces.holding(sealed);
        let reached = next.before + next.piece.len();
        if reached > until {
            return Ok(false);
        }
        let had = sealed + self.tail.len();
        self.pieces.put(next.try_clone()?)?;
        drop_first(&mut self.tail, reached - sealed);
        if reached > had {
            self.end = next.end;
        }
        Ok(true)
    }

    /// The same log once more: it shares the pieces and copies the tail. It fails only for want of memory.
    pub fn try_clone(&self) -> Result<Wal, AllocError>
        ensures { IfOk result (λ wal. wal ≡ self.now) }
    {
        Ok(Wal {
            pieces: self.pieces.try_clone()?,
            tail: self.tail.clone()?,
            end: self.end,
        })
    }
}

/// Makes a piece of a full tail, so that there is room for an entry. It fails only for want of memory.
fn seal_full(pieces: &mut Pieces, tail: &mut Vec<Entry>, end: Lsn) -> Result<(), AllocError>
    requires { IsLog pieces.old tail.old.items end.position }
    ensures log { IsLog pieces.new tail.new.items end.position }
    ensures same { pieces.new ++ tail.new.items ≡ pieces.old ++ tail.old.items }
    ensures room { OnOk result (length tail.new.items < most_sealed) }
{
    if tail.len() < MOST_SEALED {
        return Ok(());
    }
    let full = Placed {
        piece: Piece::new(*tail.allocator(), tail)?,
        before: pieces.len(),
        end,
    };
    pieces.put(full)?;
    tail.clear();
    Ok(())
}

/// Drops the first entries, at most so many.
fn drop_first(entries: &mut Vec<Entry>, count: usize)
    ensures { entries.new.items ≡ drop count entries.old.items }
{
    let dropped = count.min(entries.len());
    let kept = entries.len() - dropped;
    entries.copy_within(dropped.., 0);
    entries.truncate(kept);
}
