//! How the parts of a step go together.
ghost use Rattle.std.specs.Prelude.{ℕ, ◌≡◌, ◌+◌, ◌≤◌, List};
ghost use Rattle.cluster_model.specs.declared.step.Step.{Step};
ghost use Rattle.event_book.specs.declared.event.Event.{Event};
ghost use Rattle.event_book.specs.declared.event.EventKind.{EventKind};
ghost use Rattle.event_book.specs.declared.event.EventKind.TheVariants as kinds;
ghost use Rattle.event_list.specs.Listed.{Listed};
ghost use Rattle.cluster_model.specs.Cluster.{cluster_after};
ghost use Rattle.cluster_model.specs.Next.{next_events};
ghost use Rattle.cluster_model.specs.Parts.{event_of, events_then};
ghost use Rattle.cluster_model.specs.State.{Cluster};
ghost use Rattle.world_model.specs.Comes.{Counts};
ghost use Rattle.world_model.specs.Emits.{Emits};
ghost use Rattle.world_model.specs.Idle.{IsIdleIn};
ghost use Rattle.world_model.specs.Room.{HasRoom, event_cost};

/// A part of a step, and then what comes after it, are a part whose cost is that of both.
pub fn parts_follow_one_another()
    ensures { (first second third : Cluster) (had has all : Listed) (events : List Event) (more : Cluster → List Event) (cost next : ℕ)
        → Emits first second had has events cost → Emits second third has all (more second) next → Emits first third had all (events_then first events more) (cost + next) }
{}

/// What counts its number up by one at most leaves room for what it costs less.
pub fn what_comes_fits_the_room()
    ensures { (cluster : Cluster) (kind : EventKind) (cost : ℕ) → Counts cluster kind → HasRoom cluster (event_cost kind + cost) → HasRoom (cluster_after cluster kind) cost }
{}

/// Where steps of a kind bring nothing but their ticks up to a moment, the next one does, if its tick isn't past that.
pub fn idle_steps_bring_their_ticks()
    ensures { (step : Step) (cluster : Cluster) (later : ℕ) → cluster.facts.clock + 1 ≤ later → IsIdleIn step later cluster → next_events cluster step ≡ event_of cluster kinds.Tick }
{}
