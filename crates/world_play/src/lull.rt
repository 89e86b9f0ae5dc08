//! What is known to be at rest in a cluster.
ghost use Rattle.std.specs.Prelude.{ℕ, ◌≡◌, ◌&&◌, not, drop, false};
ghost use Rattle.event_list.specs.Marks.{rouse_agents, stir_replicas};
ghost use Rattle.cluster_model.specs.Cluster.{cluster_over};
ghost use Rattle.cluster_model.specs.State.{Cluster};
ghost use Rattle.world_acts.specs.Asleep.{AreAsleep, until_of};
ghost use Rattle.world_play.specs.Lull.{IsLull};

use event_list::EventList;
use world_acts::Sleepers;

/// What is known to be at rest behind a step, so that the next one needn't look for what may happen there.
#[derive(Drop)]
pub struct Lull {
    /// Whether all servers are known to have caught up with whom they follow, and no commit may be acknowledged.
    pub(crate) settled: bool,
    /// Until when agents are known to have nothing to do.
    pub(crate) asleep: Sleepers,
}

impl Lull {
    /// Nothing is known.
    pub fn unknown() -> Lull
        ensures { (cluster : Cluster) → IsLull result cluster }
    {
        Lull {
            settled: false,
            asleep: Sleepers::none(),
        }
    }

    /// These events happen behind the first so many of a list: what they may change isn't known any more, and all else still is.
    pub(crate) fn pass(&mut self, events: &EventList, from: usize)
        ensures settled { self.new.settled ≡ (self.old.settled && not (stir_replicas (drop from events.now.items))) }
        ensures kept { rouse_agents (drop from events.now.items) ≡ false → (k : ℕ) → until_of self.new.asleep k ≡ until_of self.old.asleep k }
        ensures asleep { (cluster : Cluster) → AreAsleep self.old.asleep cluster → AreAsleep self.new.asleep (cluster_over cluster (drop from events.now.items)) }
    {
        self.settled = still_caught_up(self.settled, events, from);
        self.asleep.pass(events, from);
    }
}

/// Whether all servers are known to have caught up behind all of these events, given whether they were behind the first so many.
pub(crate) fn still_caught_up(caught_up: bool, events: &EventList, from: usize) -> bool
    ensures { result ≡ (caught_up && not (stir_replicas (drop from events.now.items))) }
{
    caught_up && !events.stir_replicas(from)
}
