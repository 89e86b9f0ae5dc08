//! Connections served behind a script.
ghost use Rattle.std.specs.Prelude.{List, [], ◌∷◌, ◌≡◌, ◌+◌, ◌*◌, ◌≤◌, length};
ghost use Rattle.script_model.specs.Script.{IsMember, names_of};
ghost use Rattle.cluster_model.specs.Starting.{cluster_of};
ghost use Rattle.cluster_model.specs.Steps.{names_in, steps_of};
ghost use Rattle.pat_door.specs.Doors.{Opened};
ghost use Rattle.serve_model.specs.Connections.{Connection, connection_cost};
ghost use Rattle.simulation.specs.Steps.{HasStepsLeft};
ghost use Rattle.world_model.specs.Room.{most_steps};
ghost use Rattle.run_player.specs.Playing.{player_of};
ghost use Rattle.run_serving.specs.Receiving.{Receives, ReceivesAll};
ghost use Rattle.run_serving.specs.Served.{ComeApart, Serves};
ghost use Rattle.run_model.specs.Visits.{after_steps};

use crate::ServeError;
use pat_base::MemberId;
use pat_door::Door;
use pat_outside::Sink;
use pat_serve::serve_one;
use run_player::Player;
use run_printing::{print_closing, show};
use script_model::Script;
use simulation::Simulation;
use std::alloc::Global;

/// Which connections are served.
#[derive(Clone, Copy, PartialEq, Eq)]
pub struct Service<'a> {
    /// The member to whose agent they come.
    pub member: MemberId,
    /// Where it listens, as `127.0.0.1:8008`.
    pub address: &'a [u8],
    /// How many there are.
    pub count: u64,
}

/// Takes the steps of a script from its head on, and prints what happens; then opens the door, and serves connections, one after another:
/// what each brings comes next in the run, and is printed once it is answered. The closing summary comes last. Each line is written in one
/// piece. On Ok all connections were served, and it answers the world after the last step; on Err the world is closed. Where memory is
/// wanting, what was printed are the lines of whole steps, and nothing of the summary; where the door can't be opened or brings no
/// connection, the lines of all steps, and nothing of the summary.
pub fn serve<W: Simulation, K: Sink, D: Door>(
    alloc: Global,
    script: Script,
    service: &Service<'_>,
    door: &mut D,
    out: &mut K,
) -> Result<W, ServeError>
    requires room { length (steps_of script.body) + connection_cost * service.now.count ≤ most_steps }
    requires declared { IsMember (names_of script.head) service.now.member }
    ensures { (visitors : List Connection) × Serves K.Sink D.Door W.facts out.old out.new door.old door.new result script service.now.member service.now.count visitors
        × ComeApart D.Door door.old door.new result (after_steps (cluster_of script.head) (steps_of script.body)) service.now.member (Opened service.now.address.now ∷ []) visitors }
{
    let mut player = Player::<W>::new(alloc, script.head())?;
    match receive_all(&mut player, script, service, door, out) {
        Ok(()) => Ok(player.into_world()),
        Err(error) => {
            player.into_world().close();
            Err(error)
        }
    }
}

/// The lines of a script, then connections, and then the closing summary.
fn receive_all<W: Simulation, K: Sink, D: Door>(
    player: &mut Player<W>,
    script: Script,
    service: &Service<'_>,
    door: &mut D,
    out: &mut K,
) -> Result<(), ServeError>
    requires room { HasStepsLeft (W.facts player.old.world) (length (steps_of script.body) + connection_cost * service.now.count) }
    requires members { names_in (W.facts player.old.world).cluster.facts.members ≡ names_of script.head }
    requires declared { IsMember (names_of script.head) service.now.member }
    ensures { (visitors : List Connection) × ReceivesAll K.Sink D.Door (player_of W.facts player.old) (player_of W.facts player.new) out.old out.new door.old door.new result (steps_of script.body) service.now.member service.now.count visitors
        × ComeApart D.Door door.old door.new result (after_steps (W.facts player.old.world).cluster (steps_of script.body)) service.now.member (Opened service.now.address.now ∷ []) visitors }
{
    player.play_body(script, out)?;
    receive(player, service, door, out)?;
    print_closing(player.alloc, &player.summary.closing(), out)?;
    Ok(())
}

/// Opens the door, and serves connections, one after another.
fn receive<W: Simulation, K: Sink, D: Door>(
    player: &mut Player<W>,
    service: &Service<'_>,
    door: &mut D,
    out: &mut K,
) -> Result<(), ServeError>
    requires room { HasStepsLeft (W.facts player.old.world) (connection_cost * service.now.count) }
    requires declared { IsMember (names_in (W.facts player.old.world).cluster.facts.members) service.now.member }
    ensures { (visitors : List Connection) × Receives K.Sink D.Door (player_of W.facts player.old) (player_of W.facts player.new) out.old out.new door.old door.new result service.now.member service.now.count visitors
        × ComeApart D.Door door.old door.new result (W.facts player.old.world).cluster service.now.member (Opened service.now.address.now ∷ []) visitors }
{
    let Ok(()) = door.open(service.address) else {
        return Err(ServeError::Door);
    };
    for _ in 0..service.count {
        receive_next(player, service.member, door, out)?;
    }
    Ok(())
}

/// Serves the next connection.
fn receive_next<W: Simulation, K: Sink, D: Door>(
    player: &mut Player<W>,
    member: MemberId,
    door: &mut D,
    out: &mut K,
) -> Result<(), ServeError>
    requires room { HasStepsLeft (W.facts player.old.world) connection_cost }
    requires declared { IsMember (names_in (W.facts player.old.world).cluster.facts.members) member }
    ensures { (visitors : List Connection) × Receives K.Sink D.Door (player_of W.facts player.old) (player_of W.facts player.new) out.old out.new door.old door.new result member 1 visitors
        × ComeApart D.Door door.old door.new result (W.facts player.old.world).cluster member [] visitors }
{
    let Ok(()) = door.accept() else {
        return Err(ServeError::Door);
    };
    let mut brought = Vec::new(player.alloc);
    serve_one(player.alloc, &mut player.world, member, door, &mut brought)?;
    show(
        &mut player.summary,
        &mut player.text,
        player.trace,
        &brought,
        out,
    )?;
    Ok(())
}
