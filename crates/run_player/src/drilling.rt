//! Scripts played of which the closing summary alone is printed.
ghost use Rattle.std.specs.Prelude.{◌≡◌, ◌≤◌, length, IfOk, IsErrOf};
ghost use Rattle.pat_outside.specs.Prints.{Prints};
ghost use Rattle.cluster_model.specs.Steps.{steps_of};
ghost use Rattle.world_model.specs.Room.{most_steps};
ghost use Rattle.run_player.specs.Left.{IsLeftBy};
ghost use Rattle.run_model.specs.Run.{played_of, summary_of_run};

use crate::player::Player;
use pat_outside::Sink;
use run_printing::PrintError;
use script_model::Script;
use simulation::Simulation;
use std::alloc::Global;

/// Takes the steps of a script from its head on, and prints the closing summary alone, each line in one piece. On Ok it answers the world
/// after the last step; on Err the world is closed. Where memory is wanting, nothing was printed.
pub fn drill<W: Simulation, K: Sink>(
    alloc: Global,
    script: Script,
    out: &mut K,
) -> Result<W, PrintError>
    requires { length (steps_of script.body) ≤ most_steps }
    ensures printed { Prints K.Sink out.old out.new PrintError.Write result (summary_of_run (played_of script)) }
    ensures memory { IsErrOf result PrintError.Memory → out.new ≡ out.old }
    ensures world { IfOk result (λ world. IsLeftBy (played_of script) (W.facts world)) }
{
    let mut player = Player::<W>::new(alloc, script.head())?;
    match player.drill(script, out) {
        Ok(()) => Ok(player.into_world()),
        Err(error) => {
            player.into_world().close();
            Err(error)
        }
    }
}
