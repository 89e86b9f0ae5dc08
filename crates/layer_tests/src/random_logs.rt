//! Random calls of two logs, in pieces or plain ones: what they tell is compared.
use std::alloc::Global;
use wal_model::{Entry, Wal};

/// A linear congruential generator (Knuth's MMIX).
#[derive(Drop)]
struct Random {
    state: u64,
}

impl Random {
    /// The next number below a bound, and 0 where that is 0.
    fn below(&mut self, bound: usize) -> usize {
        self.state = self
            .state
            .wrapping_mul(6364136223846793005)
            .wrapping_add(1442695040888963407);
        if bound == 0 {
            return 0;
        }
        (self.state >> 33) as usize % bound
    }
}

/// What is tried of a log. `None`: want of memory, or a log that is full.
pub(crate) trait TriedLog: Drop {
    /// How many entries it has.
    fn count(&self) -> usize;

    /// Appends an entry.
    fn add(&mut self, entry: Entry) -> Option<()>;

    /// Keeps the first entries, so many of them where there are as many.
    fn keep(&mut self, entries: usize);

    /// With how many entries both begin.
    fn shared(&self, other: &Self) -> usize;

    /// Whether the other one begins with it.
    fn begins(&self, other: &Self) -> bool;

    /// Appends the next entries of another one that begins with it, at most so many.
    fn follow(&mut self, other: &Self, most: usize) -> Option<()>;

    /// Becomes a copy of another one.
    fn imitate(&mut self, other: &Self) -> Option<()>;

    /// The sum of the bytes of its entries.
    fn bytes(&self) -> u64;

    /// The entry at a place.
    fn at(&self, place: usize) -> Option<Entry>;
}

impl TriedLog for Wal {
    fn count(&self) -> usize {
        self.len()
    }

    fn add(&mut self, entry: Entry) -> Option<()> {
        self.append(entry).ok()
    }

    fn keep(&mut self, entries: usize) {
        self.truncate(entries.min(self.len()));
    }

    fn shared(&self, other: &Wal) -> usize {
        self.common(other)
    }

    fn begins(&self, other: &Wal) -> bool {
        self.is_prefix(other)
    }

    fn follow(&mut self, other: &Wal, most: usize) -> Option<()> {
        if self.is_prefix(other) {
            self.receive(other, most).ok()?;
        }
        Some(())
    }

    fn imitate(&mut self, other: &Wal) -> Option<()> {
        *self = other.try_clone().ok()?;
        Some(())
    }

    fn bytes(&self) -> u64 {
        self.end().position
    }

    fn at(&self, place: usize) -> Option<Entry> {
        self.get(place)
    }
}

/// Appends so many entries of this timeline.
fn add_many<L: TriedLog>(log: &mut L, entries: usize, timeline: u64) -> Option<()> {
    for serial in 0..entries as u64 {
        log.add(Entry {
            serial,
            timeline,
            bytes: serial % 5,
        })?;
    }
    Some(())
}

/// A log that takes from another one first drops the entries that the other one hasn't.
fn take<L: TriedLog>(log: &mut L, other: &L, most: usize) -> Option<()> {
    if !log.begins(other) {
        log.keep(log.shared(other));
    }
    log.follow(other, most)
}

/// One random call.
fn step<L: TriedLog>(
    random: &mut Random,
    first: &mut L,
    second: &mut L,
    timeline: u64,
) -> Option<()> {
    match random.below(8) {
        0 | 1 => add_many(first, random.below(90), timeline),
        2 => {
            first.keep(first.count().saturating_sub(random.below(200)));
            Some(())
        }
        3 => second.imitate(first),
        4 => add_many(second, random.below(40), timeline),
        5 => take(first, second, random.below(300)),
        _ => take(second, first, random.below(300)),
    }
}

/// What a log tells of itself, of an entry, and of how it stands to another one.
#[derive(PartialEq, Drop)]
pub(crate) struct Told {
    count: usize,
    bytes: u64,
    entry: Option<Entry>,
    shared: usize,
    begins: bool,
}

fn made_told<L: TriedLog>(log: &L, other: &L, place: usize) -> Told {
    Told {
        count: log.count(),
        bytes: log.bytes(),
        entry: log.at(place),
        shared: log.shared(other),
        begins: log.begins(other),
    }
}

/// What two logs without entries tell, call by call.
pub(crate) fn all_told<L: TriedLog>(
    alloc: Global,
    mut first: L,
    mut second: L,
) -> Option<Vec<Told>> {
    let mut random = Random { state: 20 };
    let mut all = Vec::new(alloc);
    for timeline in 0..400 {
        step(&mut random, &mut first, &mut second, timeline)?;
        let place = random.below(first.count());
        all.push(made_told(&first, &second, place)).ok()?;
        all.push(made_told(&second, &first, place)).ok()?;
    }
    Some(all)
}
