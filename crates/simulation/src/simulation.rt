//! A cluster that takes the steps of a run.
ghost use Rattle.std.specs.Prelude.{◌≡◌, ◌+◌, ◌≤◌, [], false, is_err, IfOk, IsErr, IsTrue, OnOk, replicate};
ghost use Rattle.cluster_model.specs.Cluster.{cluster_over};
ghost use Rattle.cluster_model.specs.Next.{next_events, run_events};
ghost use Rattle.cluster_model.specs.Starting.{cluster_of};
ghost use Rattle.cluster_model.specs.Steps.{IsStep};
ghost use Rattle.simulation.specs.Steps.{HasStepsLeft, IsCounted, TookSteps, WorldFacts};
ghost use Rattle.world_model.specs.Emits.{Emits};
ghost use Rattle.world_model.specs.Idle.{BringsTicks};
ghost use Rattle.world_model.specs.Room.{most_steps, step_cost};

use cluster_model::Step;
use event_list::EventList;
use script_model::Head;
use std::alloc::{AllocError, Global};

/// A cluster at a moment, which takes the steps of a run, at most 2^30 of them. Its value need not be one that can be dropped:
/// `Simulation::close` ends one.
pub trait Simulation {
    // The cluster, how many steps it took, and whether memory ran out in one.
    ghost facts: { Self → WorldFacts };

    /// The cluster of a script's head, before the first step. It fails only for want of memory.
    fn begin(alloc: Global, head: &Head) -> Result<Self, AllocError>
        ensures cluster { IfOk result (λ world. (facts world).cluster ≡ cluster_of head.now) }
        ensures steps { IfOk result (λ world. (facts world).steps ≡ 0) }
        ensures room { IfOk result (λ world. HasStepsLeft (facts world) most_steps) }
        ensures counted { IfOk result (λ world. IsCounted (facts world)) }
        ensures unspent { IfOk result (λ world. (facts world).spent ≡ false) };

    /// Ends it.
    fn close(self);

    /// One step of a run with these members, into an empty list. On Ok the events are those that come next, whether messages are traced in
    /// the list stays, and the cluster is what they leave. On Err, want of memory, it is spent: whatever further step is asked of it, it
    /// answers Err again.
    fn step(&mut self, step: &Step, events: &mut EventList) -> Result<(), AllocError>
        requires room { (facts self.old).spent ≡ false → HasStepsLeft (facts self.old) 1 }
        requires declared { (facts self.old).spent ≡ false → IsStep (facts self.old).cluster.facts.members step.now }
        requires empty { events.old.items ≡ [] }
        ensures emits { OnOk result (Emits (facts self.old).cluster (facts self.new).cluster events.old events.new (next_events (facts self.old).cluster step.now) step_cost) }
        ensures taken { OnOk result (TookSteps (facts self.old) (facts self.new) 1) }
        ensures spent { (facts self.new).spent ≡ is_err result }
        ensures again { IsTrue (facts self.old).spent → IsErr result };

    /// Takes so many steps of one kind at once as are known to bring nothing but their ticks, at most as many as wanted, and answers how
    /// many; none where memory ran out in a step before.
    fn idle_for(&mut self, step: &Step, most: u64) -> u64
        requires { (facts self.old).spent ≡ false → (facts self.old).steps + most ≤ most_steps }
        ensures most { result ≤ most }
        ensures ticks { BringsTicks (facts self.old).cluster step.now result }
        ensures world { (facts self.new).cluster ≡ cluster_over (facts self.old).cluster (run_events (facts self.old).cluster (replicate result step.now)) }
        ensures taken { TookSteps (facts self.old) (facts self.new) result }
        ensures spent { (facts self.new).spent ≡ (facts self.old).spent }
        ensures none { IsTrue (facts self.old).spent → result ≡ 0 };
}
