//! Which commits a log has, by their serials.
ghost use Rattle.std.specs.Prelude.{ℕ, ◌≡◌, not, ◌||◌, List, IfOk, OnOk};
ghost use Rattle.std.specs.BTreeSet.{contains};
ghost use Rattle.std.specs.Ordering.{nat_cmp};
ghost use Rattle.wal_model.specs.Lacking.{is_entry_of, has_serial, lacks_in};
ghost use Rattle.wal_model.specs.Serials.{serials_of_run};
ghost use Rattle.wal_model.specs.declared.entry.Entry.{Entry};

use crate::serial_run::SerialRun;
use crate::{Entry, Serials, Wal};
use std::alloc::{AllocError, Global};
use std::collections::BTreeSet;

/// Whether there is such an entry, and it is that of the commit of this serial.
fn is_entry_of(entry: Option<Entry>, serial: u64) -> bool
    ensures { result ≡ is_entry_of entry serial }
{
    match entry {
        None => false,
        Some(entry) => entry.serial == serial,
    }
}

/// Whether the log has an entry of the commit of this serial. It is looked for from the end on.
pub fn has_serial(log: &Wal, serial: u64) -> bool
    ensures { result ≡ has_serial log.now serial }
{
    let mut place = log.len();
    while place > 0 {
        place -= 1;
        if is_entry_of(log.get(place), serial) {
            return true;
        }
    }
    false
}

/// Whether the log lacks one of these commits: it has no entry of that serial. It takes room for the
/// serials of the log, walks over both once, and fails only for want of memory.
pub fn lacks(log: &Wal, acknowledged: &Serials, alloc: Global) -> Result<bool, AllocError>
    ensures { IfOk result (λ lacks. lacks ≡ lacks_in log.now acknowledged.now) }
{
    let serials = serials_of(log, alloc)?;
    let runs = acknowledged.runs();
    for run in runs {
        if lacks_of_run(&serials, *run) {
            return Ok(true);
        }
    }
    Ok(false)
}

/// Whether a log whose entries have these serials lacks a commit of this run.
fn lacks_of_run(serials: &BTreeSet<u64>, run: SerialRun) -> bool
    ensures { (log : List Entry) → ((serial : ℕ) → contains nat_cmp serials.now serial ≡ has_serial log serial) → result ≡ lacks_in log (serials_of_run run) }
{
    for serial in run.first..run.last {
        if !serials.contains(&serial) {
            return true;
        }
    }
    !serials.contains(&run.last)
}

/// The serials of the entries of a log.
fn serials_of(log: &Wal, alloc: Global) -> Result<BTreeSet<u64>, AllocError>
    ensures { IfOk result (λ serials. (serial : ℕ) → contains nat_cmp serials serial ≡ has_serial log.now serial) }
{
    let mut serials = BTreeSet::new(alloc);
    for place in 0..log.len() {
        put_serial(&mut serials, log.get(place))?;
    }
    Ok(serials)
}

/// Puts the serial of an entry among those, where there is an entry.
fn put_serial(serials: &mut BTreeSet<u64>, entry: Option<Entry>) -> Result<(), AllocError>
    ensures { OnOk result ((serial : ℕ) → contains nat_cmp serials.new serial ≡ (is_entry_of entry serial || contains nat_cmp serials.old serial)) }
{
    if let Some(entry) = entry {
        serials.insert(entry.serial)?;
    }
    Ok(())
}
