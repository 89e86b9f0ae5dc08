//! What one more event makes of each answer of the summary.
ghost use Rattle.std.specs.Prelude.{◌≡◌, ◌+◌, ◌^◌, ◌<◌};
ghost use Rattle.summary_model.specs.Noting.{ticks_after, first_if, is_past_margin, margin_at, late_if, pause_if, breach_by_watchdog, breach_by_txn, breach_by_store, breach_by_server, breach_of, broken_by, premises_after, has_mode, keeps_mode_in_txn, keeps_mode_in_store, keeps_mode_in_agent, keeps_mode, broken_unless, synchronous_after, count_after};

use event_book::{AgentEvent, EventKind, ReplicationEvent, ServerEvent, StoreEvent, WatchdogEvent};
use pat_base::{MemberId, Name, Ticks};
use store_keys::{OperatorTxn, Txn};
use summary_model::{Breach, FirstMoment, Premises, Synchronous};

/// The moment after an event.
pub fn ticks_after(clock: Ticks, kind: &EventKind) -> Ticks
    requires { clock.0 + 1 < 2 ^ 64 }
    ensures { result ≡ ticks_after clock kind.now }
{
    match kind {
        EventKind::Tick => Ticks(clock.0 + 1),
        _ => clock,
    }
}

/// The first moment of something that is so now where the test says it.
pub fn first_if(first: FirstMoment, test: bool, now: Ticks) -> FirstMoment
    ensures { result ≡ first_if first test now }
{
    match first {
        FirstMoment::At(moment) => FirstMoment::At(moment),
        FirstMoment::Never => {
            if test {
                FirstMoment::At(now)
            } else {
                FirstMoment::Never
            }
        }
    }
}

/// The margin of a member's watchdog. `None` where it has none, or where there is no such member.
fn margin_at(margins: &[Option<Ticks>], member: MemberId) -> Option<Ticks>
    ensures { result ≡ margin_at margins.now member.number }
{
    match margins.get(usize::from(member.number)) {
        None => None,
        Some(margin) => *margin,
    }
}

/// Whether so many ticks are past the margin.
fn is_past_margin(margin: Option<Ticks>, lateness: u64) -> bool
    ensures { result ≡ is_past_margin margin lateness }
{
    match margin {
        None => false,
        Some(margin) => margin.0 < lateness,
    }
}

fn late_if(test: bool, name: Name) -> Option<Breach>
    ensures { result ≡ late_if test name }
{
    if test {
        Some(Breach::LateWatchdog(name))
    } else {
        None
    }
}

fn pause_if(test: bool) -> Option<Breach>
    ensures { result ≡ pause_if test }
{
    if test { Some(Breach::Pause) } else { None }
}

/// The breach by what happens to a watchdog so many ticks after what it is measured from.
fn breach_by_watchdog(
    margins: &[Option<Ticks>],
    lateness: u64,
    event: &WatchdogEvent,
) -> Option<Breach>
    ensures { result ≡ breach_by_watchdog margins.now lateness event.now }
{
    match event {
        WatchdogEvent::Armed { member, .. } => {
            let margin = margin_at(margins, member.id);
            late_if(is_past_margin(margin, lateness), member.name)
        }
        WatchdogEvent::Fed { member, .. } => {
            let margin = margin_at(margins, member.id);
            late_if(is_past_margin(margin, lateness), member.name)
        }
        _ => None,
    }
}

fn breach_by_txn(txn: &Txn) -> Option<Breach>
    ensures { result ≡ breach_by_txn txn.now }
{
    match txn {
        Txn::Operators(OperatorTxn::SetConfig { config, .. }) => pause_if(config.config().pause),
        _ => None,
    }
}

fn breach_by_store(event: &StoreEvent) -> Option<Breach>
    ensures { result ≡ breach_by_store event.now }
{
    match event {
        StoreEvent::Granted { txn, .. } => breach_by_txn(txn.get()),
        _ => None,
    }
}

fn breach_by_server(event: &ServerEvent) -> Option<Breach>
    ensures { result ≡ breach_by_server event.now }
{
    match event {
        ServerEvent::Promoted { server } => Some(Breach::Operator(server.name)),
        _ => None,
    }
}

/// Which premise an event breaks, if it breaks one.
fn breach_of(margins: &[Option<Ticks>], lateness: u64, kind: &EventKind) -> Option<Breach>
    ensures { result ≡ breach_of margins.now lateness kind.now }
{
    match kind {
        EventKind::Watchdog(happening) => breach_by_watchdog(margins, lateness, happening),
        EventKind::Store(happening) => breach_by_store(happening),
        EventKind::Server(happening) => breach_by_server(happening),
        _ => None,
    }
}

/// Premises that were met, after this breach, if it is one.
pub fn broken_by(breach: Option<Breach>, now: Ticks) -> Premises
    ensures { result ≡ broken_by breach now }
{
    match breach {
        None => Premises::Met,
        Some(why) => Premises::Broken { tick: now, why },
    }
}

/// Whether the premises are met after an event of this moment.
pub fn premises_after(
    premises: Premises,
    now: Ticks,
    margins: &[Option<Ticks>],
    lateness: u64,
    kind: &EventKind,
) -> Premises
    ensures { result ≡ premises_after premises now margins.now lateness kind.now }
{
    match premises {
        Premises::Met => broken_by(breach_of(margins, lateness, kind), now),
        Premises::Broken { tick, why } => Premises::Broken { tick, why },
    }
}

fn has_mode(on: bool, mode: bool) -> bool
    ensures { result ≡ has_mode on mode }
{
    if on { mode } else { !mode }
}

fn keeps_mode_in_txn(on: bool, txn: &Txn) -> bool
    ensures { result ≡ keeps_mode_in_txn on txn.now }
{
    match txn {
        Txn::Operators(OperatorTxn::SetConfig { config, .. }) => has_mode(
            on,
            config.config().synchronous_mode,
        ),
        _ => true,
    }
}

fn keeps_mode_in_store(on: bool, event: &StoreEvent) -> bool
    ensures { result ≡ keeps_mode_in_store on event.now }
{
    match event {
        StoreEvent::Granted { txn, .. } => keeps_mode_in_txn(on, txn.get()),
        _ => true,
    }
}

fn keeps_mode_in_agent(event: &AgentEvent) -> bool
    ensures { result ≡ keeps_mode_in_agent event.now }
{
    match event {
        AgentEvent::Passed { .. } => false,
        _ => true,
    }
}

/// Whether after this event synchronous mode is on, or off, as before, and no member outside the sync key took the leader
/// key in it.
fn keeps_mode(on: bool, kind: &EventKind) -> bool
    ensures { result ≡ keeps_mode on kind.now }
{
    match kind {
        EventKind::Store(happening) => keeps_mode_in_store(on, happening),
        EventKind::Agent(happening) => keeps_mode_in_agent(happening),
        _ => true,
    }
}

fn broken_unless(test: bool, now: Ticks, before: Synchronous) -> Synchronous
    ensures { result ≡ broken_unless test now before }
{
    if test {
        before
    } else {
        Synchronous::Broken(now)
    }
}

/// Whether the cluster replicates synchronously after an event of this moment.
pub fn synchronous_after(before: Synchronous, now: Ticks, kind: &EventKind) -> Synchronous
    ensures { result ≡ synchronous_after before now kind.now }
{
    match before {
        Synchronous::On => broken_unless(keeps_mode(true, kind), now, Synchronous::On),
        Synchronous::Off => broken_unless(keeps_mode(false, kind), now, Synchronous::Off),
        Synchronous::Broken(tick) => Synchronous::Broken(tick),
    }
}

/// How many commits are acknowledged after an event.
pub fn count_after(count: u64, kind: &EventKind) -> u64
    requires { count + 1 < 2 ^ 64 }
    ensures { result ≡ count_after count kind.now }
{
    match kind {
        EventKind::Replication(ReplicationEvent::Acknowledged { .. }) => count + 1,
        _ => count,
    }
}
