//! Commands carried out.
ghost use Rattle.std.specs.Prelude.{ℕ, List, Some};
ghost use Rattle.command_line.specs.Commands.{Serve, order_command};
ghost use Rattle.program_commands.specs.Carried.{GoesBy, IsCarriedOut};

use command_line::{Ending, Order, drawn_script, member_named, print_script, script_from};
use pat_door::Door;
use pat_outside::{Sink, Source};
use run_player::{drill, play};
use run_serving::{MOST_WAITING, Service, serve};
use simulation::Simulation;
use std::alloc::Global;

/// Does what a command asks for. On Ok it answers the world after the last step, where a run was played.
pub fn carry_out<W: Simulation, S: Source, K: Sink, D: Door>(
    order: Order<'_>,
    alloc: Global,
    input: &mut S,
    out: &mut K,
    door: &mut D,
) -> Result<Option<W>, Ending>
    ensures { (bytes : List ℕ) × GoesBy (Some (order_command order.entry)) (S.rest input.old) bytes
        × IsCarriedOut S.Source K.Sink D.Door W.facts input.old input.new out.old out.new door.old door.new (order_command order.entry) bytes result }
{
    match order {
        Order::Run => {
            let script = script_from(alloc, 0, input)?;
            let world = play(alloc, script, out)?;
            Ok(Some(world))
        }
        Order::Serve {
            member,
            address,
            count,
        } => serve_script(alloc, member, address, count, input, out, door),
        Order::Print => {
            let script = script_from(alloc, 0, input)?;
            print_script(alloc, &script, out)?;
            Ok(None)
        }
        Order::Generate { seed, count } => {
            let script = drawn_script(alloc, seed, count)?;
            print_script(alloc, &script, out)?;
            Ok(None)
        }
        Order::Drill { seed, count } => {
            let script = drawn_script(alloc, seed, count)?;
            let world = drill(alloc, script, out)?;
            Ok(Some(world))
        }
    }
}

/// Reads a script, writes its printed run, and serves so many connections before the closing summary. On Ok it answers the world after the
/// last step.
fn serve_script<W: Simulation, S: Source, K: Sink, D: Door>(
    alloc: Global,
    name: &[u8],
    address: &[u8],
    count: u64,
    input: &mut S,
    out: &mut K,
    door: &mut D,
) -> Result<Option<W>, Ending>
    ensures { (bytes : List ℕ) × GoesBy (Some (Serve name.now address.now count)) (S.rest input.old) bytes
        × IsCarriedOut S.Source K.Sink D.Door W.facts input.old input.new out.old out.new door.old door.new (Serve name.now address.now count) bytes result }
{
    let script = script_from(alloc, MOST_WAITING.saturating_mul(count), input)?;
    let Some(member) = member_named(script.head(), name) else {
        return Err(Ending::UnknownMember);
    };
    let service = Service {
        member,
        address,
        count,
    };
    let world = serve(alloc, script, &service, door, out)?;
    Ok(Some(world))
}
