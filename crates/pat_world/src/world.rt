//! The world: it takes the steps of a run and hands out what happens.
ghost use Rattle.std.specs.Prelude.{ℕ, List, ◌≡◌, ◌<◌, ◌≤◌, ◌+◌, ◌^◌, ◌++◌, [], false, is_err, is_some, replicate, IfOk, IsErr, IsTrue, OnErr, OnOk};
ghost use Rattle.script_model.specs.Script.{HeadText, IsHead};
ghost use Rattle.event_book.specs.declared.event.Event.{Event};
ghost use Rattle.event_book.specs.declared.event.EventKind.TheVariants as kinds;
ghost use Rattle.cluster_model.specs.Acknowledging.{AreAcknowledged};
ghost use Rattle.cluster_model.specs.Cluster.{cluster_over};
ghost use Rattle.cluster_model.specs.Next.{next_events, run_events};
ghost use Rattle.cluster_model.specs.Parts.{event_of};
ghost use Rattle.cluster_model.specs.Starting.{cluster_of};
ghost use Rattle.cluster_model.specs.State.{Cluster};
ghost use Rattle.cluster_model.specs.Steps.{IsStep};
ghost use Rattle.simulation.specs.Book.{StandsFor, left_by, next_of};
ghost use Rattle.world_model.specs.Idle.{BringsTicks, IsIdleBefore, IsIdleIn, NothingEnds, NothingIsDue};
ghost use Rattle.pat_world.specs.Fenced.{KeepsFencing};
ghost use Rattle.pat_world.specs.KeptCommits.{KeepsAcknowledged};
ghost use Rattle.pat_world.specs.OnePrimary.{KeepsOnePrimary};
ghost use Rattle.pat_world.specs.OneWriter.{KeepsOneWriter};
ghost use Rattle.simulation.specs.Steps.{HasStepsLeft, TookSteps, IsCounted};
ghost use Rattle.world_model.specs.Emits.{Emits};
ghost use Rattle.world_model.specs.Room.{most_steps, step_cost};
ghost use Rattle.world_model.specs.Running.{agent_runs};
ghost use Rattle.world_stage.specs.AgentViews.{IsViewOf};

use cluster_model::Step;
use cluster_view::AgentView;
use event_list::EventList;
use pat_base::{MemberId, Ticks};
use script_model::Head;
use std::alloc::{AllocError, Global};
use std::marker::Model;
use world_play::{Lull, bare_tick, due_from, ends_from, take_step};
use world_stage::Stage;

/// A cluster at a moment, which takes the steps of a run. It can't be dropped, since an agent can't: `World::close` ends
/// one.
///
/// Time is counted in ticks of 100 ms, from 0 on. A world takes at most 2^30 steps: its caller sees to that, and within them no counter
/// comes to its end.
///
/// Most ticks bring nothing but themselves. Up to when that is so is found once, where a step of the default schedule brought its
/// tick alone, or behind a plain tick; until then a tick costs the same little however many members there are, and many of them no
/// more than one.
pub struct World {
    stage: Stage,
    /// How many steps were taken.
    steps: u64,
    /// Whether memory ran out in a step: what the stage is then isn't known, so no more are taken.
    spent: bool,
    /// Before this moment steps of the default schedule bring nothing but their ticks; 0 where nothing is known of that.
    idle_before: u64,
    /// Before this moment plain ticks bring nothing but themselves, whatever agents have to do; 0 where nothing is known of that.
    ticks_idle_before: u64,
    /// What is known to be at rest.
    lull: Lull,
}

impl Model for World {
    ghost use Rattle.cluster_model.specs.declared.step.Step.TheVariants.{Scheduled, Tick};
    ghost use Rattle.simulation.specs.Steps.{WorldFacts};
    ghost use Rattle.world_model.specs.Idle.{IsIdleBefore};
    ghost use Rattle.world_play.specs.Lull.{IsLull};

    ghost Value = { WorldFacts };

    ghost view = { λ w. record { cluster = w.stage; steps = w.steps; spent = w.spent } };

    ghost invariant = { λ w. IsIdleBefore Scheduled w.idle_before w.stage × IsIdleBefore Tick w.ticks_idle_before w.stage × IsLull w.lull w.stage };
}

impl World {
    /// The world of a script's head, before the first step: it stands for the empty book, and may take 2^30 steps. It fails only for
    /// want of memory.
    pub fn new(alloc: Global, head: &Head) -> Result<World, AllocError>
        ensures cluster { IfOk result (λ world. world.cluster ≡ cluster_of head.now) }
        ensures steps { IfOk result (λ world. world.steps ≡ 0) }
        ensures book { IfOk result (λ world. StandsFor (cluster_of head.now) [] world.cluster) }
        ensures room { IfOk result (λ world. HasStepsLeft world most_steps) }
        ensures counted { IfOk result IsCounted }
        ensures unspent { IfOk result (λ world. world.spent ≡ false) }
    {
        let stage = Stage::new(alloc, head)?;
        Ok(World {
            stage,
            steps: 0,
            spent: false,
            idle_before: 0,
            ticks_idle_before: 0,
            lull: Lull::unknown(),
        })
    }

    /// Ends a world, and with it all agents that run.
    pub fn close(self) {
        let World {
            stage,
            steps: _,
            spent: _,
            idle_before: _,
            ticks_idle_before: _,
            lull: _,
        } = self;
        stage.close();
    }

    /// The moment, in ticks of 100 ms.
    pub fn clock(&self) -> Ticks
        ensures { result.0 ≡ self.now.cluster.facts.clock }
    {
        self.stage.clock()
    }

    /// How many steps it took.
    pub fn steps(&self) -> u64
        ensures { result ≡ self.now.steps }
    {
        self.steps
    }

    /// What the agent of a member shows of itself and of its server at this moment. `None` exactly where that agent doesn't run, also
    /// since no member of this number is declared.
    pub fn view(&self, id: MemberId) -> Option<AgentView<'_>>
        ensures shows { IsViewOf self.now.cluster id result }
        ensures running { (head : HeadText) (book : List Event) → IsHead head → StandsFor (cluster_of head) book self.now.cluster → is_some result ≡ agent_runs self.now.cluster id }
    {
        self.stage.view(id)
    }

    /// One step of a run with these members, into an empty list. The premises: fewer than 2^30 steps were taken, a command names
    /// declared members only, and a connection comes to a declared member. On Ok the events are those that come next, whether messages are
    /// traced in the list stays, and the world is what the events leave: a world that stood for a book stands for that book with them at its
    /// end. No commit is left that may be acknowledged. On Err, want of memory, the list is empty again, and the world is spent: whatever
    /// further step is asked of it, it answers Err again.
    pub fn step(&mut self, step: &Step, events: &mut EventList) -> Result<(), AllocError>
        requires room { self.old.spent ≡ false → HasStepsLeft self.old 1 }
        requires declared { self.old.spent ≡ false → IsStep self.old.cluster.facts.members step.now }
        requires empty { events.old.items ≡ [] }
        ensures emits { OnOk result (Emits self.old.cluster self.new.cluster events.old events.new (next_events self.old.cluster step.now) step_cost) }
        ensures taken { OnOk result (TookSteps self.old self.new 1) }
        ensures book { OnOk result ((start : Cluster) (book : List Event) → StandsFor start book self.old.cluster
            → (events.new.items ≡ events.old.items ++ next_of start book step.now) × StandsFor start (book ++ next_of start book step.now) self.new.cluster) }
        // At most one server accepts writes at every moment of it, where a run brought this world and the premises are met.
        ensures one_writer { OnOk result (KeepsOneWriter self.old.cluster events.new.items) }
        // So a load balancer that asks agents which of them is the primary finds one at most, at every such moment.
        ensures one_primary { OnOk result (KeepsOnePrimary self.old.cluster events.new.items) }
        // Each server that accepts writes has each acknowledged commit then, where the run began with synchronous mode on, which stays on.
        ensures commits { OnOk result (KeepsAcknowledged self.old.cluster events.new.items) }
        // Who writes under a lease is granted that only while the leader key is as the lease left it, where a run brought this world.
        ensures fenced { OnOk result (KeepsFencing self.old.cluster events.new.items) }
        ensures acknowledged { OnOk result (AreAcknowledged self.new.cluster.facts.members self.new.cluster.facts.servers) }
        ensures refused { OnErr result (events.new.items ≡ events.old.items) }
        ensures spent { self.new.spent ≡ is_err result }
        // Whoever steps a spent world gets that answer again, and needs no premise but the empty list.
        ensures again { IsTrue self.old.spent → IsErr result }
    {
        if self.spent {
            return Err(AllocError);
        }
        let taken = self.attempt(step, events);
        if taken.is_err() {
            events.clear();
        }
        taken
    }

    /// Takes so many steps of one kind at once as are known to bring nothing but their ticks, at most as many as wanted, and
    /// answers how many. 0 where the next one may bring more, for a command and for a connection, and where memory ran out in a step
    /// before. It costs the same however many they are. The premise, of a world that isn't spent: with as many as wanted, at most 2^30 steps are
    /// taken.
    pub fn idle_for(&mut self, step: &Step, most: u64) -> u64
        requires { self.old.spent ≡ false → self.old.steps + most ≤ most_steps }
        ensures most { result ≤ most }
        ensures ticks { BringsTicks self.old.cluster step.now result }
        ensures world { self.new.cluster ≡ cluster_over self.old.cluster (run_events self.old.cluster (replicate result step.now)) }
        ensures taken { TookSteps self.old self.new result }
        ensures book { (start : Cluster) (book : List Event) → StandsFor start book self.old.cluster
            → StandsFor start (book ++ run_events (left_by start book) (replicate result step.now)) self.new.cluster }
        ensures one_writer { KeepsOneWriter self.old.cluster (run_events self.old.cluster (replicate result step.now)) }
        ensures one_primary { KeepsOnePrimary self.old.cluster (run_events self.old.cluster (replicate result step.now)) }
        ensures commits { KeepsAcknowledged self.old.cluster (run_events self.old.cluster (replicate result step.now)) }
        ensures acknowledged { 0 < result → AreAcknowledged self.new.cluster.facts.members self.new.cluster.facts.servers }
        ensures spent { self.new.spent ≡ self.old.spent }
        ensures none { IsTrue self.old.spent → result ≡ 0 }
    {
        let ticks = self.idle_ticks(step, most);
        self.steps += ticks;
        self.stage.pass(ticks);
        ticks
    }

    /// A step, and whether memory ran out in it.
    fn attempt(&mut self, step: &Step, events: &mut EventList) -> Result<(), AllocError>
        requires room { HasStepsLeft self.old 1 }
        requires declared { IsStep self.old.cluster.facts.members step.now }
        requires empty { events.old.items ≡ [] }
        ensures emits { OnOk result (Emits self.old.cluster self.new.cluster events.old events.new (next_events self.old.cluster step.now) step_cost) }
        ensures steps { self.new.steps ≡ self.old.steps + 1 }
        ensures acknowledged { OnOk result (AreAcknowledged self.new.cluster.facts.members self.new.cluster.facts.servers) }
        ensures spent { self.new.spent ≡ is_err result }
    {
        let taken = self.tick_or_take(step, events);
        self.spent = taken.is_err();
        taken
    }

    /// A step: a tick that is known to bring nothing else, or any other one.
    fn tick_or_take(&mut self, step: &Step, events: &mut EventList) -> Result<(), AllocError>
        requires room { HasStepsLeft self.old 1 }
        requires declared { IsStep self.old.cluster.facts.members step.now }
        requires empty { events.old.items ≡ [] }
        ensures emits { OnOk result (Emits self.old.cluster self.new.cluster events.old events.new (next_events self.old.cluster step.now) step_cost) }
        ensures steps { self.new.steps ≡ self.old.steps + 1 }
        ensures acknowledged { OnOk result (AreAcknowledged self.new.cluster.facts.members self.new.cluster.facts.servers) }
    {
        if self.idle_ticks(step, 1) == 0 {
            return self.take(step, events);
        }
        self.tick(step, events)
    }

    /// A tick that is known to bring nothing else.
    fn tick(&mut self, step: &Step, events: &mut EventList) -> Result<(), AllocError>
        requires room { HasStepsLeft self.old 1 }
        requires idle { IsIdleIn step.now (self.old.cluster.facts.clock + 1) self.old.cluster }
        ensures emits { OnOk result (Emits self.old.cluster self.new.cluster events.old events.new (next_events self.old.cluster step.now) step_cost) }
        ensures steps { self.new.steps ≡ self.old.steps + 1 }
        ensures acknowledged { OnOk result (AreAcknowledged self.new.cluster.facts.members self.new.cluster.facts.servers) }
    {
        self.steps += 1;
        bare_tick(&mut self.stage, events)
    }

    /// Any step. Behind one that brought nothing but the tick of the default schedule it is found up to when that stays so, and behind
    /// a plain tick, up to when plain ticks bring nothing.
    fn take(&mut self, step: &Step, events: &mut EventList) -> Result<(), AllocError>
        requires room { HasStepsLeft self.old 1 }
        requires declared { IsStep self.old.cluster.facts.members step.now }
        requires empty { events.old.items ≡ [] }
        ensures emits { OnOk result (Emits self.old.cluster self.new.cluster events.old events.new (next_events self.old.cluster step.now) step_cost) }
        ensures steps { self.new.steps ≡ self.old.steps + 1 }
        ensures acknowledged { OnOk result (AreAcknowledged self.new.cluster.facts.members self.new.cluster.facts.servers) }
    {
        self.steps += 1;
        self.idle_before = 0;
        self.ticks_idle_before = 0;
        if let Err(failed) = take_step(&mut self.stage, step, &mut self.lull, events) {
            // nothing is known of a stage where memory ran out
            self.lull = Lull::unknown();
            return Err(failed);
        }
        self.idle_before = idle_before(&self.stage, step, events.len());
        self.ticks_idle_before = ticks_idle_before(&self.stage, step);
        Ok(())
    }

    /// How many of the next steps of one kind are known to bring nothing but their ticks, at most as many as wanted; 0 where memory ran out.
    fn idle_ticks(&self, step: &Step, most: u64) -> u64
        ensures most { result ≤ most }
        ensures fits { self.now.cluster.facts.clock + result < 2 ^ 64 }
        ensures idle { 0 < result → IsIdleIn step.now (self.now.cluster.facts.clock + result) self.now.cluster }
        ensures none { IsTrue self.now.spent → result ≡ 0 }
    {
        let clock = self.stage.clock().0;
        if self.spent {
            return 0;
        }
        let before = self.steps_idle_before(step);
        if before <= clock {
            return 0;
        }
        let left = before - clock - 1;
        if left < most { left } else { most }
    }

    /// Before which moment steps of one kind are known to bring nothing but their ticks; 0 where nothing is known of that. Where those of
    /// the default schedule bring nothing else, plain ticks don't either.
    fn steps_idle_before(&self, step: &Step) -> u64
        ensures { IsIdleBefore step.now result self.now.cluster }
    {
        match step {
            Step::Scheduled => self.idle_before,
            Step::Tick if self.ticks_idle_before < self.idle_before => self.idle_before,
            Step::Tick => self.ticks_idle_before,
            Step::Command(_) | Step::Connection(..) => 0,
        }
    }
}

/// Before which moment a stage is idle after a step that brought so many events; 0 where that isn't known. Where a step of the default
/// schedule brought one event, that was its tick.
fn idle_before(stage: &Stage, step: &Step, events: usize) -> u64
    ensures scheduled { 0 < result → step.now ≡ Step.Scheduled }
    ensures one { 0 < result → events ≡ 1 }
    ensures due { (now : ℕ) → now < result → NothingIsDue now stage.now }
{
    if events != 1 {
        return 0;
    }
    match step {
        Step::Scheduled => due_from(stage).0,
        _ => 0,
    }
}

/// Before which moment plain ticks bring nothing but themselves to a stage after a step; 0 where that isn't looked for, since the step was
/// none.
fn ticks_idle_before(stage: &Stage, step: &Step) -> u64
    ensures { (now : ℕ) → now < result → NothingEnds now stage.now }
{
    match step {
        Step::Tick => ends_from(stage).0,
        _ => 0,
    }
}
