//! The top call.
ghost use Rattle.std.specs.Prelude.{ℕ, List, ◌≡◌, ◌↔◌, None, map, string_bytes};
ghost use Rattle.serve_model.specs.Connections.{Connection};
ghost use Rattle.promise_law.specs.Claims.{KeepsPromises};
ghost use Rattle.command_line.specs.Commands.{command_of};
ghost use Rattle.command_line.specs.Status.{status_of, message_of, IsReported};
ghost use Rattle.program_commands.specs.Carried.{Carries, GoesBy};
ghost use Rattle.program_commands.specs.Verdicts.{IfPlayed, Says, verdict_of};

use crate::Ended;
use command_line::{Ending, Order, Status, report};
use pat_door::Door;
use pat_outside::{Sink, Source};
use program_commands::carry_out;
use std::alloc::Global;

/// The program: all that it does with its words, its input, its two outputs and its door.
///
/// The word `run` reads a script from the input, at most 1,048,577 bytes of it, and writes its printed run on `out`. The words
/// `serve MEMBER ADDRESS COUNT` do so too; but before the closing summary the door is opened at that address, and so many connections are
/// served, one after another, by that member's agent: what each brings comes next in the run, and is printed once it is answered. The word
/// `print` reads a script, and writes it as it is spelled canonically. The words `gen SEED COUNT` read nothing, and write the script that
/// is made of this number with so many lines that are drawn, at most 2,400. `drill SEED COUNT` plays such a script, and writes the closing
/// summary of its run: its last seven lines.
///
/// The whole script is read before anything is written. Judged are first the words, then the count of lines that are to be drawn, then the
/// input, then the limits of scripts, to whose ticks come 600 for each connection, then the lines, then the member, and then the output and
/// the door. Each line is written in one piece, and where memory is wanting what was written are the lines of whole steps. What isn't done
/// is said in one line on `err`; that `err` fails changes nothing else.
///
/// What is answered has the world after the last step, exactly where the status is `Done` and a run was played. On every other path the
/// world that was made is closed.
pub fn run<S: Source, K: Sink, E: Sink, D: Door>(
    alloc: Global,
    words: &[String],
    input: &mut S,
    out: &mut K,
    err: &mut E,
    door: &mut D,
) -> Ended
    // The words are a command, or that is all that is said.
    ensures usage { (result.status ≡ Status.Usage) ↔ (command_of (map string_bytes words.now) ≡ None) }
    // There are bytes, those that the input tells where it tells any, and these connections came: the status says what came of the words
    // by both, what was written of that, and what was sent on each; and a run that was played leaves its world. The line told is that of
    // the status; the fault with its line, or the limit, that it names is that of these bytes or of the words.
    ensures carried { (bytes : List ℕ) × GoesBy (command_of (map string_bytes words.now)) (S.rest input.old) bytes
        × ((visitors : List Connection) × Carries S.Source K.Sink D.Door input.old input.new out.old out.new door.old door.new (command_of (map string_bytes words.now)) bytes visitors (record { status = result.status; world = result.world }))
        × (ending : Ending) × (status_of ending ≡ result.status)
        × ((visitors : List Connection) → Says ending (verdict_of (command_of (map string_bytes words.now)) visitors bytes))
        × IsReported E.Sink err.old err.new (message_of ending) }
    // What is played, of any bytes, has one writer while the premises are met, keeps commits while synchronous mode is on too, and its
    // summary is true, whoever connects.
    ensures promises { (visitors : List Connection) (bytes : List ℕ) → IfPlayed KeepsPromises (verdict_of (command_of (map string_bytes words.now)) visitors bytes) }
{
    let Some(order) = Order::read(words) else {
        report(err, Ending::Usage);
        return Ended {
            status: Status::Usage,
            world: None,
        };
    };
    match carry_out(order, alloc, input, out, door) {
        Ok(world) => {
            report(err, Ending::Done);
            Ended {
                status: Status::Done,
                world,
            }
        }
        Err(ending) => {
            report(err, ending);
            Ended {
                status: ending.status(),
                world: None,
            }
        }
    }
}
