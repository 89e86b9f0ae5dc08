//! A script made of a number.
ghost use Rattle.std.specs.Prelude.{◌≡◌, ◌≤◌, ◌∷◌, ◌++◌, [], IfOk, OnOk};
ghost use Rattle.generator_model.specs.Drawing.{drawn_line};
ghost use Rattle.generator_model.specs.NumberSequence.{draw_of};
ghost use Rattle.generator_model.specs.Generating.{generated_body, generated_script};
ghost use Rattle.generator_model.specs.declared.bounds.TheConstants.{MOST_GENERATED};

use crate::drawing::drawn_line;
use crate::number_sequence::{draw_of, next_number};
use crate::opening::generated_head;
use generator_model::MOST_GENERATED;
use script_model::{Line, Script};
use std::alloc::{AllocError, Global};

/// Before the lines that are drawn the cluster runs for so many ticks, to find its leader.
const TICKS_BEFORE: u64 = 100;

/// Behind them it runs for so many ticks, to come to rest.
const TICKS_BEHIND: u64 = 600;

/// The script of a number: so many lines drawn by a linear congruential sequence that begins with it, behind a run of 10 s and
/// before one of 60 s, for the cluster `gen` of the members `a`, `b` and `c`. The same number gives the same script. It fails only
/// for want of memory.
pub fn generate(alloc: Global, seed: u64, count: u64) -> Result<Script, AllocError>
    requires { count ≤ MOST_GENERATED }
    ensures { IfOk result (λ script. script ≡ generated_script seed count) }
{
    let head = generated_head(alloc)?;
    let body = generated_body(alloc, seed, count)?;
    Ok(Script::new(head, body))
}

fn generated_body(alloc: Global, seed: u64, count: u64) -> Result<Vec<Line>, AllocError>
    ensures { IfOk result (λ body. body.items ≡ generated_body seed count) }
{
    let mut body = Vec::new(alloc);
    body.push(Line::Run(TICKS_BEFORE))?;
    let mut number = seed;
    for _drawn in 0..count {
        number = next_number(number);
        push_drawn(&mut body, number)?;
    }
    body.push(Line::Run(TICKS_BEHIND))?;
    Ok(body)
}

/// Puts the line that is drawn by a number behind the others.
fn push_drawn(body: &mut Vec<Line>, number: u64) -> Result<(), AllocError>
    ensures { OnOk result (body.new.items ≡ body.old.items ++ drawn_line (draw_of number) ∷ []) }
{
    body.push(drawn_line(draw_of(number)))?;
    Ok(())
}
