//! What a happening changes, field by field of what a book determines.
ghost use Rattle.std.specs.Prelude.{◌≡◌, ◌≤◌, ◌<◌, ◌+◌, ◌^◌, OnOk, length};
ghost use Rattle.pat_base.specs.Changes.{with_changed};
ghost use Rattle.event_book.specs.Acknowledged.{acknowledged_after, commits_after};
ghost use Rattle.event_book.specs.Processes.{processes_after};
ghost use Rattle.event_book.specs.Clock.{now_after};
ghost use Rattle.event_book.specs.Flight.{sent_after};
ghost use Rattle.event_book.specs.Frozen.{frozen_after};
ghost use Rattle.event_book.specs.Keys.{keys_after};
ghost use Rattle.event_book.specs.Links.{cuts_after};
ghost use Rattle.event_book.specs.Watchdogs.{deadlines_after, holds_after};
ghost use Rattle.pat_base.specs.Moments.{latest};
ghost use Rattle.cluster_model.specs.FailsafeDeadlines.{failsafe_deadlines_after};
ghost use Rattle.world_model.specs.Comes.{IsBare};

use crate::processes::{change_process, reset_process};
use event_book::{
    AgentProcess, EventKind, LogEvent, MessageEvent, ReplicationEvent, ServerEvent, ServerOf,
};
use lease_store::Store;
use pat_base::Ticks;
use std::alloc::AllocError;
use wal_model::Serials;
use world_fields::links::CutLinks;
use world_fields::watchdogs::{change_deadline, change_failsafe_deadline, change_hold};

/// The moment after a happening.
pub fn now_after(now: Ticks, kind: &EventKind) -> Ticks
    requires { now.0 ≤ latest }
    ensures { result.0 ≡ now_after now.0 kind.now }
{
    match kind {
        EventKind::Tick => Ticks(now.0 + 1),
        _ => now,
    }
}

/// The keys after a happening of this moment.
pub fn change_keys(store: &mut Store, now: Ticks, kind: &EventKind)
    requires { IsBare kind.now }
    ensures { store.new ≡ keys_after now.0 store.old kind.now }
{
    if let EventKind::Tick = kind {
        store.drop_expired(now);
    }
}

/// The processes of agents after a happening.
pub fn change_processes(processes: &mut Vec<AgentProcess>, kind: &EventKind)
    ensures { processes.new.items ≡ processes_after processes.old.items kind.now }
{
    match kind {
        EventKind::Agent(happening) => change_process(processes, happening),
        EventKind::Watchdog(happening) => reset_process(processes, happening),
        _ => {}
    }
}

/// The deadlines of watchdogs after a happening.
pub fn change_deadlines(deadlines: &mut Vec<Option<Ticks>>, kind: &EventKind)
    ensures { deadlines.new.items ≡ deadlines_after deadlines.old.items kind.now }
{
    if let EventKind::Watchdog(happening) = kind {
        change_deadline(deadlines, happening);
    }
}

/// Whose deadlines acknowledgements of other members set last, after a happening.
pub fn change_failsafe_deadlines(failsafe_deadlines: &mut Vec<bool>, kind: &EventKind)
    ensures { failsafe_deadlines.new.items ≡ failsafe_deadlines_after failsafe_deadlines.old.items kind.now }
{
    if let EventKind::Watchdog(happening) = kind {
        change_failsafe_deadline(failsafe_deadlines, happening);
    }
}

/// The holds of members after a happening.
pub fn change_holds(holds: &mut Vec<Option<Ticks>>, kind: &EventKind)
    ensures { holds.new.items ≡ holds_after holds.old.items kind.now }
{
    if let EventKind::Watchdog(happening) = kind {
        change_hold(holds, happening);
    }
}

/// Which links are cut after a happening.
pub fn change_links(cuts: &mut CutLinks, kind: &EventKind)
    ensures { cuts.new ≡ cuts_after cuts.old kind.now }
{
    if let EventKind::Link(change) = kind {
        cuts.change(change);
    }
}

/// The number of the last message after a happening.
pub fn sent_after(sent: u64, kind: &EventKind) -> u64
    ensures { result ≡ sent_after sent kind.now }
{
    match kind {
        EventKind::Message(MessageEvent::Sent { number, .. }) => *number,
        _ => sent,
    }
}

/// Which servers are frozen after a happening.
pub fn change_frozen(frozen: &mut Vec<bool>, kind: &EventKind)
    ensures { frozen.new.items ≡ frozen_after frozen.old.items kind.now }
{
    match kind {
        EventKind::Server(ServerEvent::Frozen { server }) => set_frozen(frozen, *server, true),
        EventKind::Server(ServerEvent::Thawed { server }) => set_frozen(frozen, *server, false),
        _ => {}
    }
}

fn set_frozen(frozen: &mut Vec<bool>, server: ServerOf, is_frozen: bool)
    ensures { frozen.new.items ≡ with_changed frozen.old.items server.id.number (λ before. is_frozen) }
{
    let place = server.id.number as usize;
    if place < frozen.len() {
        frozen[place] = is_frozen;
    }
}

/// The number of the last commit after a happening.
pub fn commits_after(commits: u64, kind: &EventKind) -> u64
    ensures { result ≡ commits_after commits kind.now }
{
    match kind {
        EventKind::Log(LogEvent::Appended { entry, .. }) => entry.serial,
        _ => commits,
    }
}

/// The commits that are acknowledged after a happening. It fails only for want of memory.
pub fn change_acknowledged(told: &mut Serials, kind: &EventKind) -> Result<(), AllocError>
    ensures { OnOk result (told.new ≡ acknowledged_after told.old kind.now) }
{
    if let EventKind::Replication(ReplicationEvent::Acknowledged { commit, .. }) = kind {
        told.push(*commit)?;
    }
    Ok(())
}
