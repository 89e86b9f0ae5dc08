//! One connection served by a world.
ghost use Rattle.std.specs.Prelude.{ℕ, ◌≡◌, ◌≤◌, ◌++◌, OnOk};
ghost use Rattle.commit_runs.specs.Runs.{KeepsCommitsIn};
ghost use Rattle.event_book.specs.Writers.{HasOneWriter};
ghost use Rattle.lease_parts.specs.Kept.{WhereMet};
ghost use Rattle.cluster_model.specs.Starting.{cluster_of};
ghost use Rattle.cluster_model.specs.Steps.{names_in};
ghost use Rattle.pat_serve.specs.Serving.{Brings, GoesOn, Serves};
ghost use Rattle.promise_law.specs.Claims.{KeepsPromises};
ghost use Rattle.run_model.specs.Run.{Played, run_of};
ghost use Rattle.script_model.specs.Script.{IsHead, IsMember};
ghost use Rattle.serve_model.specs.Connections.{Connection, connection_cost, steps_of_connection};
ghost use Rattle.simulation.specs.Book.{StandsFor};
ghost use Rattle.simulation.specs.Steps.{HasStepsLeft};

use event_list::EventList;
use pat_base::MemberId;
use pat_door::Door;
use pat_serve::serve_one;
use pat_world::World;
use std::alloc::{AllocError, Global};

/// Serves the present connection of a door by the agent of a declared member of a world, and ends it: as `serve_one` does, with what every run
/// keeps said of the run behind which the connection comes. On Err, want of memory, it is with the world as there.
pub fn serve_world<D: Door>(
    alloc: Global,
    world: &mut World,
    member: MemberId,
    door: &mut D,
    events: &mut Vec<EventList>,
) -> Result<(), AllocError>
    requires room { HasStepsLeft world.old connection_cost }
    requires declared { IsMember (names_in world.old.cluster.facts.members) member }
    ensures serves { OnOk result ((connection : Connection)
        × Brings world.old world.new events.old.items events.new.items (steps_of_connection world.old.cluster member connection)
        × Serves D.Door door.old door.new (D.told door.new) world.old.cluster member connection) }
    // Whichever run brought the world here goes on, and at most one server accepts writes in it while the premises are met.
    ensures one_writer { OnOk result ((played : Played) → IsHead played.head → StandsFor (cluster_of played.head) (run_of played) world.old.cluster
        → (on : GoesOn played world.old.cluster world.new.cluster events.old.items events.new.items) × WhereMet played.head (run_of (record { head = played.head; steps = played.steps ++ on.more })) HasOneWriter) }
    // While synchronous mode is on too, each server that accepts writes has each acknowledged commit.
    ensures commits { OnOk result ((played : Played) → IsHead played.head → StandsFor (cluster_of played.head) (run_of played) world.old.cluster
        → (on : GoesOn played world.old.cluster world.new.cluster events.old.items events.new.items) × KeepsCommitsIn played.head (run_of (record { head = played.head; steps = played.steps ++ on.more }))) }
    // So it is with all that every run keeps.
    ensures promises { OnOk result ((played : Played) → IsHead played.head → StandsFor (cluster_of played.head) (run_of played) world.old.cluster
        → (on : GoesOn played world.old.cluster world.new.cluster events.old.items events.new.items) × KeepsPromises (record { head = played.head; steps = played.steps ++ on.more })) }
    ensures grows { D.connection_faults door.old ≤ D.connection_faults door.new }
    ensures door { D.door_faults door.new ≡ D.door_faults door.old }
    ensures served { (n : ℕ) → D.serves door.old n → D.serves door.new n }
{
    serve_one(alloc, world, member, door, events)
}
