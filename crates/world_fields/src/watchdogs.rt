//! Watchdogs and holds: what a happening changes of them, and whose machine is reset.
ghost use Rattle.std.specs.Prelude.{ℕ, ◌≡◌, ◌<◌, ◌≤◌, false, Some, None, IfSome, option_and_then, option_copied, slice_get};
ghost use Rattle.pat_base.specs.Changes.{with_changed};
ghost use Rattle.event_book.specs.Watchdogs.{deadlines_by, holds_by, is_acknowledged, later_of, prolonged_to};
ghost use Rattle.leader_key.specs.Watchdog.{is_due_at};
ghost use Rattle.cluster_model.specs.Commands.{disarm_at_start, disarm_if, disarm_of};
ghost use Rattle.cluster_model.specs.FailsafeDeadlines.{failsafe_deadlines_by, is_set_by_failsafe};
ghost use Rattle.cluster_model.specs.State.{Cluster};
ghost use Rattle.cluster_model.specs.Ticking.{reset_of};
ghost use Rattle.world_model.specs.Comes.{MayCome};
ghost use Rattle.world_model.specs.Idle.{NoneResets};

use agent_model::Machine;
use event_book::{AgentProcess, Basis, EventKind, Member, WatchdogEvent};
use pat_base::Ticks;

/// The deadlines after what happens to a watchdog.
pub fn change_deadline(deadlines: &mut Vec<Option<Ticks>>, happening: &WatchdogEvent)
    ensures { deadlines.new.items ≡ deadlines_by deadlines.old.items happening.now }
{
    match happening {
        WatchdogEvent::Armed { member, until, .. } => set_deadline(
            deadlines,
            *member,
            Some(*until),
        ),
        WatchdogEvent::Fed { member, until, .. } => set_deadline(deadlines, *member, Some(*until)),
        WatchdogEvent::Disarmed { member } => set_deadline(deadlines, *member, None),
        WatchdogEvent::Reset { member } => set_deadline(deadlines, *member, None),
        _ => {}
    }
}

fn set_deadline(deadlines: &mut Vec<Option<Ticks>>, member: Member, deadline: Option<Ticks>)
    ensures { deadlines.new.items ≡ with_changed deadlines.old.items member.id.number (λ before. deadline) }
{
    let place = member.id.number as usize;
    if place < deadlines.len() {
        deadlines[place] = deadline;
    }
}

/// Whose deadlines acknowledgements of other members set last, after what happens to a watchdog.
pub fn change_failsafe_deadline(failsafe_deadlines: &mut Vec<bool>, happening: &WatchdogEvent)
    ensures { failsafe_deadlines.new.items ≡ failsafe_deadlines_by failsafe_deadlines.old.items happening.now }
{
    match happening {
        WatchdogEvent::Armed { member, .. } => set_basis(failsafe_deadlines, *member, false),
        WatchdogEvent::Fed { member, basis, .. } => set_basis(
            failsafe_deadlines,
            *member,
            is_acknowledged(*basis),
        ),
        _ => {}
    }
}

fn set_basis(failsafe_deadlines: &mut Vec<bool>, member: Member, by_failsafe: bool)
    ensures { failsafe_deadlines.new.items ≡ with_changed failsafe_deadlines.old.items member.id.number (λ was. by_failsafe) }
{
    let place = member.id.number as usize;
    if place < failsafe_deadlines.len() {
        failsafe_deadlines[place] = by_failsafe;
    }
}

/// Whether acknowledgements let a leader feed its watchdog, and no grant.
fn is_acknowledged(basis: Basis) -> bool
    ensures { result ≡ is_acknowledged basis }
{
    matches!(basis, Basis::Acknowledgements { .. })
}

/// Whether acknowledgements set the deadline of a member's watchdog last.
pub fn is_set_by_failsafe(failsafe_deadlines: &[bool], member: Member) -> bool
    ensures { result ≡ is_set_by_failsafe (slice_get failsafe_deadlines.now member.id.number) }
{
    match failsafe_deadlines.get(member.id.number as usize) {
        None => false,
        Some(by_failsafe) => *by_failsafe,
    }
}

/// The holds after one was taken, if one was.
pub fn change_hold(holds: &mut Vec<Option<Ticks>>, happening: &WatchdogEvent)
    ensures { holds.new.items ≡ holds_by holds.old.items happening.now }
{
    if let WatchdogEvent::HoldTaken { member, until, .. } = happening {
        prolong(holds, *member, *until);
    }
}

fn prolong(holds: &mut Vec<Option<Ticks>>, member: Member, until: Ticks)
    ensures { holds.new.items ≡ with_changed holds.old.items member.id.number (prolonged_to until) }
{
    let place = member.id.number as usize;
    if place < holds.len() {
        holds[place] = Some(prolonged_to(until, holds[place]));
    }
}

/// The end of a hold until this moment, taken by a member that may have one.
fn prolonged_to(until: Ticks, hold: Option<Ticks>) -> Ticks
    ensures { prolonged_to until hold ≡ Some result }
{
    match hold {
        None => until,
        Some(before) => later_of(before, until),
    }
}

fn later_of(a: Ticks, b: Ticks) -> Ticks
    ensures { result ≡ later_of a b }
{
    Ticks(a.0.max(b.0))
}

/// The reset of a machine: what happens where its watchdog is due at this moment.
pub fn reset_of(deadlines: &[Option<Ticks>], now: Ticks, member: Member) -> Option<EventKind>
    ensures kind { result ≡ option_and_then (reset_of now.0 member) (slice_get deadlines.now member.id.number) }
    ensures comes { (cluster : Cluster) → IfSome result (MayCome cluster) }
{
    let deadline = *deadlines.get(member.id.number as usize)?;
    if is_due_at(now, deadline) {
        Some(EventKind::Watchdog(WatchdogEvent::Reset { member }))
    } else {
        None
    }
}

fn is_due_at(now: Ticks, deadline: Option<Ticks>) -> bool
    ensures { result ≡ is_due_at now.0 deadline }
{
    match deadline {
        None => false,
        Some(deadline) => deadline <= now,
    }
}

/// What an agent that is started does to its watchdog. One that runs already does nothing.
pub fn disarm_at_start(
    member: Member,
    process: AgentProcess,
    machine: Option<&Machine>,
) -> Option<EventKind>
    ensures kind { result ≡ disarm_at_start member process (option_copied machine.entry) }
    ensures comes { (cluster : Cluster) → IfSome result (MayCome cluster) }
{
    if process.running {
        None
    } else {
        disarm_of(member, machine)
    }
}

/// What an agent that starts does to its watchdog: over a live server it leaves the deadline, and else removes one.
fn disarm_of(member: Member, machine: Option<&Machine>) -> Option<EventKind>
    ensures kind { result ≡ disarm_of member (option_copied machine.entry) }
    ensures comes { (cluster : Cluster) → IfSome result (MayCome cluster) }
{
    let machine = machine?;
    if machine.server.state.live() {
        None
    } else {
        disarm_if(member, machine.watchdog.deadline())
    }
}

fn disarm_if(member: Member, deadline: Option<Ticks>) -> Option<EventKind>
    ensures kind { result ≡ disarm_if member deadline }
    ensures comes { (cluster : Cluster) → IfSome result (MayCome cluster) }
{
    match deadline {
        None => None,
        Some(_) => Some(EventKind::Watchdog(WatchdogEvent::Disarmed { member })),
    }
}

/// A moment, or the first of these deadlines where that comes sooner.
pub fn first_deadline(deadlines: &[Option<Ticks>], most: Ticks) -> Ticks
    ensures within { result.0 ≤ most.0 }
    ensures before { (now : ℕ) → now < result.0 → NoneResets now deadlines.now }
{
    let mut first = most;
    for deadline in deadlines {
        first = sooner_deadline(first, *deadline);
    }
    first
}

/// A moment, or the deadline where that comes sooner.
fn sooner_deadline(most: Ticks, deadline: Option<Ticks>) -> Ticks
    ensures within { result.0 ≤ most.0 }
    ensures before { (now : ℕ) → now < result.0 → is_due_at now deadline ≡ false }
{
    match deadline {
        None => most,
        Some(deadline) => { if deadline < most { deadline } else { most } }
    }
}
