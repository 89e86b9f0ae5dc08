//! A log as one list, beside which logs in pieces are tried.
use crate::random_logs::TriedLog;
use std::alloc::Global;
use wal_model::Entry;

/// A log as the list of its entries.
#[derive(Drop)]
pub(crate) struct PlainLog {
    entries: Vec<Entry>,
}

impl PlainLog {
    /// A log without entries.
    pub(crate) fn new(alloc: Global) -> PlainLog {
        PlainLog {
            entries: Vec::new(alloc),
        }
    }
}

impl TriedLog for PlainLog {
    fn count(&self) -> usize {
        self.entries.len()
    }

    fn add(&mut self, entry: Entry) -> Option<()> {
        self.entries.push(entry).ok()
    }

    fn keep(&mut self, entries: usize) {
        self.entries.truncate(entries);
    }

    fn shared(&self, other: &PlainLog) -> usize {
        for place in 0..self.entries.len() {
            if other.entries.get(place) != self.entries.get(place) {
                return place;
            }
        }
        self.entries.len()
    }

    fn begins(&self, other: &PlainLog) -> bool {
        other.entries.starts_with(&self.entries)
    }

    fn follow(&mut self, other: &PlainLog, most: usize) -> Option<()> {
        for _ in 0..most {
            let Some(entry) = other.entries.get(self.entries.len()) else {
                return Some(());
            };
            self.entries.push(*entry).ok()?;
        }
        Some(())
    }

    fn imitate(&mut self, other: &PlainLog) -> Option<()> {
        self.entries = other.entries.clone().ok()?;
        Some(())
    }

    fn bytes(&self) -> u64 {
        let mut end: u64 = 0;
        for entry in &self.entries {
            end = end.wrapping_add(entry.bytes);
        }
        end
    }

    fn at(&self, place: usize) -> Option<Entry> {
        self.entries.get(place).copied()
    }
}
