//! The histories of timelines.
ghost use Rattle.std.specs.Prelude.{ℕ, ◌≡◌, ◌<◌, ◌-◌, ◌++◌, ◌↔◌, [], ◌∷◌, length, max, slice_get, IsTrue, IsOk, IfOk, OnOk, OnErr, option_copied};
ghost use Rattle.wal_model.specs.History.{Points, point_of, same_points};

use crate::HistoryPoint;
use pat_base::Lsn;
use std::alloc::{AllocError, Global};
use std::marker::Model;

/// The history of a server's timeline: a list of the points at which earlier timelines were left, the oldest first, and a
/// promise of room for more of them, so that a promotion that was decided can't fail for want of memory.
#[derive(Drop)]
pub struct History {
    points: Vec<HistoryPoint>,
    spare: usize,
}

impl Model for History {
    ghost use Rattle.std.specs.Prelude.{◌≤◌, ◌+◌, vec_len, vec_capacity};
    ghost use Rattle.wal_model.specs.History.{Points};

    ghost Value = { Points };

    ghost view = { λ history. record { points = history.points.items; spare = history.spare } };

    ghost invariant = { λ history. vec_len history.points + history.spare ≤ vec_capacity history.points };
}

impl History {
    /// A history without points, which takes no memory and promises no room.
    pub fn new(alloc: Global) -> History
        ensures { result ≡ record { points = []; spare = 0 } }
    {
        History {
            points: Vec::new(alloc),
            spare: 0,
        }
    }

    /// Adds a point behind the others, and uses up one point's room where there was room. It fails only for want of
    /// memory, never where there was room, and then stays as it was.
    pub fn add(&mut self, point: HistoryPoint) -> Result<(), AllocError>
        ensures room { 0 < self.old.spare → IsOk result }
        ensures ok { OnOk result (self.new ≡ record { points = self.old.points ++ point ∷ []; spare = self.old.spare - 1 }) }
        ensures err { OnErr result (self.new ≡ self.old) }
    {
        self.points.push(point)?;
        self.spare = self.spare.saturating_sub(1);
        Ok(())
    }

    /// Makes room for at least so many points more than it has. It fails only for want of memory, and then stays as it
    /// was.
    pub fn reserve(&mut self, points: usize) -> Result<(), AllocError>
        ensures ok { OnOk result (self.new ≡ record self.old { spare = max self.old.spare points }) }
        ensures err { OnErr result (self.new ≡ self.old) }
    {
        if points > self.spare {
            self.points.reserve(points)?;
            self.spare = points;
        }
        Ok(())
    }

    /// For how many more points there is room.
    pub fn spare(&self) -> usize
        ensures { result ≡ self.now.spare }
    {
        self.spare
    }

    /// How many points it has.
    pub fn len(&self) -> usize
        ensures { result ≡ length self.now.points }
    {
        self.points.len()
    }

    /// Whether it has no point.
    pub fn is_empty(&self) -> bool
        ensures { IsTrue result ↔ (self.now.points ≡ []) }
    {
        self.points.is_empty()
    }

    /// The point at a place, counted from 0. `None` exactly past the last one.
    pub fn get(&self, place: usize) -> Option<&HistoryPoint>
        ensures { option_copied result ≡ slice_get self.now.points place }
    {
        self.points.get(place)
    }

    /// Where a timeline was left, by the first point that lists it. `None` exactly where none does.
    pub fn point(&self, timeline: u64) -> Option<Lsn>
        ensures { result ≡ point_of timeline self.now.points }
    {
        self.points
            .iter()
            .find(|point| point.timeline == timeline)
            .map(|point| point.at)
    }

    /// Whether the other history has the same points, whatever room either has.
    pub fn same_points(&self, other: &History) -> bool
        ensures { result ≡ same_points self.now.points other.now.points }
    {
        self.points == other.points
    }

    /// The same points once more, without the room. It fails only for want of memory.
    pub fn try_clone(&self) -> Result<History, AllocError>
        ensures { IfOk result (λ history. history ≡ record { points = self.now.points; spare = 0 }) }
    {
        Ok(History {
            points: self.points.clone()?,
            spare: 0,
        })
    }

    /// Takes the points of another history in place of its own, and keeps its room. It fails only for want of memory,
    /// and then stays as it was.
    pub fn try_clone_from(&mut self, other: &History) -> Result<(), AllocError>
        ensures ok { OnOk result (self.new ≡ record self.old { points = other.now.points }) }
        ensures err { OnErr result (self.new ≡ self.old) }
    {
        if self.points != other.points {
            let mut points = other.points.clone()?;
            points.reserve(self.spare)?;
            self.points = points;
        }
        Ok(())
    }
}
