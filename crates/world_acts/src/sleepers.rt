//! Agents that are known to have nothing to do.
ghost use Rattle.std.specs.Prelude.{ℕ, ◌≡◌, ◌≢◌, drop, false};
ghost use Rattle.event_list.specs.Marks.{rouse_agents};
ghost use Rattle.cluster_model.specs.Cluster.{cluster_over};
ghost use Rattle.cluster_model.specs.State.{Cluster};
ghost use Rattle.world_acts.specs.Asleep.{AreAsleep, until_of};

use event_list::EventList;
use pat_base::{MOST_MEMBERS, MemberId, Ticks};

/// Until when each agent is known to have nothing to do, as long as nothing happens that rouses it.
#[derive(Drop)]
pub struct Sleepers {
    /// By the number of the member: before this moment its agent has nothing to do. 0 where nothing is known of that.
    until: [Ticks; MOST_MEMBERS],
}

impl Sleepers {
    /// Nothing is known of any agent.
    pub fn none() -> Sleepers
        ensures { (k : ℕ) → until_of result k ≡ 0 }
    {
        Sleepers {
            until: [Ticks(0); MOST_MEMBERS],
        }
    }

    /// Before which moment the agent of a member has nothing to do. 0 where nothing is known of that.
    pub fn until(&self, member: MemberId) -> Ticks
        ensures { result.0 ≡ until_of self.now member.number }
    {
        self.until[member.number as usize]
    }

    /// The agent of a member has nothing to do before this moment.
    pub fn set(&mut self, member: MemberId, until: Ticks)
        ensures same { until_of self.new member.number ≡ until.0 }
        ensures others { (k : ℕ) → k ≢ member.number → until_of self.new k ≡ until_of self.old k }
    {
        self.until[member.number as usize] = until;
    }

    /// Nothing is known any more of the agent of a member.
    pub fn forget(&mut self, member: MemberId)
        ensures same { until_of self.new member.number ≡ 0 }
        ensures others { (k : ℕ) → k ≢ member.number → until_of self.new k ≡ until_of self.old k }
    {
        self.set(member, Ticks(0));
    }

    /// These events happen behind the first so many of a list: nothing is known any more where one may rouse agents, and else what was
    /// known still is.
    pub fn pass(&mut self, events: &EventList, from: usize)
        ensures kept { rouse_agents (drop from events.now.items) ≡ false → (k : ℕ) → until_of self.new k ≡ until_of self.old k }
        ensures asleep { (cluster : Cluster) → AreAsleep self.old cluster → AreAsleep self.new (cluster_over cluster (drop from events.now.items)) }
    {
        if events.rouse_agents(from) {
            *self = Sleepers::none();
        }
    }
}
