//! When something is due next.
ghost use Rattle.std.specs.Prelude.{ℕ, ◌<◌, ◌≤◌, All};
ghost use Rattle.world_model.specs.Idle.{NothingEnds, NothingIsDue, SleepsAt};

use pat_base::Ticks;
use world_fields::watchdogs::first_deadline;
use world_stage::Stage;

/// From when on something is due by the clock, as long as nothing else happens: something ends, or an agent has something to
/// do.
pub fn due_from(stage: &Stage) -> Ticks
    ensures { (now : ℕ) → now < result.0 → NothingIsDue now stage.now }
{
    wakes_from(stage, ends_from(stage))
}

/// From when on something ends by the clock, as long as nothing else happens: before it no watchdog resets its machine, no key
/// expires, and no start or stop of a server is complete.
pub fn ends_from(stage: &Stage) -> Ticks
    ensures { (now : ℕ) → now < result.0 → NothingEnds now stage.now }
{
    let keys = stage.store().next_expiry(Ticks(u64::MAX));
    let completions = stage.servers().next_completion(keys);
    first_deadline(stage.deadlines(), completions)
}

/// A moment, or the first at which an agent is to be woken where that comes sooner.
fn wakes_from(stage: &Stage, most: Ticks) -> Ticks
    ensures within { result.0 ≤ most.0 }
    ensures asleep { (now : ℕ) → now < result.0 → All (SleepsAt now stage.now) stage.now.facts.members }
{
    let mut first = most;
    for place in 0..stage.member_count() {
        first = stage.wake_from(stage.member(place), first);
    }
    first
}
