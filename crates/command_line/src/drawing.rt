//! Scripts that nobody wrote.
ghost use Rattle.std.specs.Prelude.{◌≡◌, IfOk, IfErr};
ghost use Rattle.generator_model.specs.Generating.{generated_script};
ghost use Rattle.command_line.specs.Drawing.{CanBeDrawn, RefusesToDraw};

use crate::ending::Ending;
use generator_model::MOST_GENERATED;
use script_generator::generate;
use script_model::Script;
use std::alloc::Global;

/// The script that is made of this number, with so many lines that are drawn, at most 2,400.
pub fn drawn_script(alloc: Global, seed: u64, count: u64) -> Result<Script, Ending>
    ensures script { IfOk result (λ script. CanBeDrawn count × (script ≡ generated_script seed count)) }
    ensures refused { IfErr result (RefusesToDraw count) }
{
    if count > MOST_GENERATED {
        return Err(Ending::PastCount);
    }
    let script = generate(alloc, seed, count)?;
    Ok(script)
}
