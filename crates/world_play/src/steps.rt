//! The steps of a run: ticks, and what commands come to.
ghost use Rattle.std.specs.Prelude.{◌≡◌, ◌<◌, ◌+◌, ◌*◌, OnOk, IfOk, IfSome, Some};
ghost use Rattle.script_model.specs.Script.{IsCommand};
ghost use Rattle.cluster_model.specs.Acknowledging.{AreAcknowledged};
ghost use Rattle.cluster_model.specs.Limits.{most_rounds};
ghost use Rattle.cluster_model.specs.Next.{round_events, rounds_events, declared, command_events, command_kind, scheduled_events, step_events, next_events};
ghost use Rattle.cluster_model.specs.Steps.{IsStep, names_in};
ghost use Rattle.world_model.specs.Comes.{MayCome};
ghost use Rattle.world_model.specs.Emits.{Emits};
ghost use Rattle.cluster_model.specs.Ticking.{tick_events};
ghost use Rattle.world_model.specs.Idle.{IfCaughtUp};
ghost use Rattle.world_model.specs.Room.{HasRoom, HasRoomFor, command_cost, round_cost, rounds_cost, schedule_cost, step_cost, tick_cost};
ghost use Rattle.world_acts.specs.Asleep.{AreAsleep};
ghost use Rattle.world_play.specs.Lull.{IsLull};

use crate::ctl::take_words;
use crate::lull::{Lull, still_caught_up};
use crate::messages::{deliver, lose, pass_messages};
use crate::requests::{make_request, receive_visit};
use cluster_model::{Asker, Step};
use event_book::EventKind;
use event_list::EventList;
use rest_message::Verb;
use script_model::Command;
use std::alloc::AllocError;
use world_acts::Sleepers;
use world_acts::servers::promote;
use world_acts::wakes::{start_agent, turn, wakes};
use world_fields::links::{cut_of, join_of};
use world_orders::server_commands::{commit_of, crash_of, freezing_of, slow_of};
use world_parts::processes::{kill_of, resume_of, suspend_of};
use world_stage::Stage;
use world_ticks::receiving::{all_receive, receive};
use world_ticks::ticks::tick;

/// The most rounds of one tick.
const MOST_ROUNDS: usize = 40;

/// One step of a run with these members: what happens in it, and then the acknowledgements, which aren't looked for where all is known to
/// be settled still. On Err, want of memory, the stage isn't to be used any more.
pub fn take_step(
    stage: &mut Stage,
    step: &Step,
    lull: &mut Lull,
    events: &mut EventList,
) -> Result<(), AllocError>
    requires room { HasRoomFor stage.old 1 }
    requires declared { IsStep stage.old.facts.members step.now }
    requires lull { IsLull lull.old stage.old }
    ensures emits { OnOk result (Emits stage.old stage.new events.old events.new (next_events stage.old step.now) step_cost) }
    ensures acknowledged { OnOk result (AreAcknowledged stage.new.facts.members stage.new.facts.servers) }
    ensures lull { OnOk result (IsLull lull.new stage.new) }
{
    let caught_up = perform(stage, step, lull, events)?;
    if lull.settled {
        return Ok(());
    }
    let from = events.len();
    stage.acknowledge_all(events)?;
    lull.settled = still_caught_up(caught_up, events, from);
    lull.asleep.pass(events, from);
    Ok(())
}

/// What happens in a step. Answers whether all servers are known to have caught up behind it.
fn perform(
    stage: &mut Stage,
    step: &Step,
    lull: &mut Lull,
    events: &mut EventList,
) -> Result<bool, AllocError>
    requires room { HasRoomFor stage.old 1 }
    requires declared { IsStep stage.old.facts.members step.now }
    requires lull { IsLull lull.old stage.old }
    ensures emits { OnOk result (Emits stage.old stage.new events.old events.new (step_events stage.old step.now) step_cost) }
    ensures caught_up { IfOk result (λ known. IfCaughtUp known stage.new) }
    ensures lull { OnOk result (IsLull lull.new stage.new) }
{
    match step {
        Step::Scheduled => {
            take_tick(stage, lull, events)?;
            scheduled(stage, lull, events)
        }
        Step::Tick => {
            take_tick(stage, lull, events)?;
            Ok(lull.settled)
        }
        Step::Command(command) => {
            let from = events.len();
            take_command(stage, command, events)?;
            lull.pass(events, from);
            Ok(lull.settled)
        }
        Step::Connection(id, visit) => {
            let from = events.len();
            let member = stage.declared(*id);
            receive_visit(stage, member, visit, events)?;
            lull.pass(events, from);
            Ok(lull.settled)
        }
    }
}

/// The clock grows by one. Nothing is known to be at rest behind a tick with which something ends.
fn take_tick(stage: &mut Stage, lull: &mut Lull, events: &mut EventList) -> Result<(), AllocError>
    requires room { HasRoom stage.old tick_cost }
    requires lull { IsLull lull.old stage.old }
    ensures emits { OnOk result (Emits stage.old stage.new events.old events.new (tick_events stage.old) tick_cost) }
    ensures lull { OnOk result (IsLull lull.new stage.new) }
{
    if !tick(stage, events)? {
        *lull = Lull::unknown();
    }
    Ok(())
}

/// A tick of the default schedule: replicas receive, and then agents are woken and messages come. Answers whether all servers are known to
/// have caught up behind it.
fn scheduled(stage: &mut Stage, lull: &mut Lull, events: &mut EventList) -> Result<bool, AllocError>
    requires room { HasRoom stage.old schedule_cost }
    requires lull { IsLull lull.old stage.old }
    ensures emits { OnOk result (Emits stage.old stage.new events.old events.new (scheduled_events stage.old) schedule_cost) }
    ensures caught_up { IfOk result (λ known. IfCaughtUp known stage.new) }
    ensures lull { OnOk result (IsLull lull.new stage.new) }
{
    let before = events.len();
    let received = all_receive(stage, lull.settled, events)?;
    lull.pass(events, before);
    let from = events.len();
    rounds(stage, &mut lull.asleep, events)?;
    lull.settled = still_caught_up(lull.settled, events, from);
    Ok(still_caught_up(received, events, from))
}

/// What a command comes to.
fn take_command(
    stage: &mut Stage,
    command: &Command,
    events: &mut EventList,
) -> Result<(), AllocError>
    requires room { HasRoom stage.old command_cost }
    requires declared { IsCommand (names_in stage.old.facts.members) command.now }
    ensures { OnOk result (Emits stage.old stage.new events.old events.new (command_events stage.old command.now) command_cost) }
{
    match command {
        Command::Turn(id) => {
            let member = stage.declared(*id);
            turn(stage, member, events)
        }
        Command::Deliver(number) => deliver(stage, *number, events),
        Command::Lose(number) => lose(stage, *number, events),
        Command::StartAgent(id) => {
            let member = stage.declared(*id);
            start_agent(stage, member, events)
        }
        Command::Promote(id) => {
            let member = stage.declared(*id);
            promote(stage, member, events)
        }
        Command::Stream(id, most) => {
            let member = stage.declared(*id);
            receive(stage, member, *most, events)
        }
        Command::Rest(id, request) => {
            let member = stage.declared(*id);
            let request = request.get();
            make_request(
                stage,
                member,
                Asker::Line,
                Verb::of(request.method.as_slice()),
                request.target_text(),
                request.body.as_slice(),
                events,
            )
        }
        Command::Ctl(said) => take_words(stage, said.as_text(), events),
        _ => {
            let kind = command_kind(stage, command);
            stage.happen_if(kind, events)
        }
    }
}

/// What a command comes to that brings one event at most.
fn command_kind(stage: &Stage, command: &Command) -> Option<EventKind>
    requires room { HasRoom stage.now 1 }
    requires declared { IsCommand (names_in stage.now.facts.members) command.now }
    ensures kind { result ≡ command_kind stage.now command.now }
    ensures comes { IfSome result (MayCome stage.now) }
{
    match command {
        Command::Suspend(id) => {
            let member = stage.declared(*id);
            suspend_of(member, stage.process(member)?)
        }
        Command::Resume(id) => {
            let member = stage.declared(*id);
            resume_of(member, stage.process(member)?)
        }
        Command::Kill(id) => {
            let member = stage.declared(*id);
            kill_of(member, stage.process(member)?)
        }
        Command::Crash(id) => crash_of(stage.servers(), stage.declared(*id)),
        Command::Commit(id, size) => {
            let member = stage.declared(*id);
            Some(commit_of(stage.servers(), member, stage.commits() + 1, size.bytes))
        }
        Command::Freeze(id) => freezing_of(stage.frozen(), stage.declared(*id), true),
        Command::Thaw(id) => freezing_of(stage.frozen(), stage.declared(*id), false),
        Command::Slow(id, slowed, delay) => {
            slow_of(stage.servers(), stage.declared(*id), *slowed, *delay)
        }
        Command::Cut(first, second) => cut_of(stage.cuts(), stage.link(*first, *second)),
        Command::Join(first, second) => join_of(stage.cuts(), stage.link(*first, *second)),
        _ => None,
    }
}

/// The rounds of a tick. A round in which nothing happens is the last. Only agents are looked at that aren't known to have nothing to do.
fn rounds(
    stage: &mut Stage,
    asleep: &mut Sleepers,
    events: &mut EventList,
) -> Result<(), AllocError>
    requires room { HasRoom stage.old rounds_cost }
    requires asleep { AreAsleep asleep.old stage.old }
    ensures emits { OnOk result (Emits stage.old stage.new events.old events.new (rounds_events stage.old most_rounds) rounds_cost) }
    ensures asleep { OnOk result (AreAsleep asleep.new stage.new) }
{
    for done in 0..MOST_ROUNDS {
        let before = events.len();
        round(stage, asleep, events)?;
        if events.len() == before {
            return Ok(());
        }
    }
    Ok(())
}

/// A round: each due agent is woken, and then each message that is in flight at that point moves.
fn round(stage: &mut Stage, asleep: &mut Sleepers, events: &mut EventList) -> Result<(), AllocError>
    requires room { HasRoom stage.old round_cost }
    requires asleep { AreAsleep asleep.old stage.old }
    ensures emits { OnOk result (Emits stage.old stage.new events.old events.new (round_events stage.old) round_cost) }
    ensures asleep { OnOk result (AreAsleep asleep.new stage.new) }
{
    wakes(stage, asleep, events)?;
    pass_messages(stage, asleep, events)
}
