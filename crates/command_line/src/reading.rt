//! The script of a source.
ghost use Rattle.std.specs.Prelude.{ℕ, ◌≡◌, ◌≢◌, List, Some, None, Ok, Err, [], IfOk, IfErr, IsErrOf, MatchResult};
ghost use Rattle.pat_outside.specs.Outside.{Known, Rose, Consumed};
ghost use Rattle.script_grammar.specs.Limits.{limit_of};
ghost use Rattle.script_grammar.specs.Reading.{script_of};
ghost use Rattle.command_line.specs.Limits.{KeepsLimits, most_read};
ghost use Rattle.command_line.specs.Status.{Refuses, IsRefusal};

use crate::ending::Ending;
use cluster_script::ScriptLines;
use pat_outside::{Source, read_at_most};
use script_model::Script;
use std::alloc::Global;

/// The most bytes that are read: one more than a script may have.
const MOST_READ: usize = 1_048_577;

/// Reads the script of a source to its end, and at most one byte more than a script may have. Limits are judged before
/// the faults of lines; so many ticks come beside those of the lines.
pub fn script_from<S: Source>(alloc: Global, waited: u64, input: &mut S) -> Result<Script, Ending>
    ensures script { IfOk result (λ script. Known (S.rest input.old) (λ bytes. (limit_of waited bytes ≡ None) × (script_of bytes ≡ Ok script))) }
    ensures end { IfOk result (λ _. Known (S.rest input.old) (λ _. S.rest input.new ≡ Some [])) }
    ensures few { IfOk result (KeepsLimits waited) }
    ensures refused { IfErr result IsRefusal }
    ensures refuses { IfErr result (λ ending. Known (S.rest input.old) (Refuses waited ending)) }
    ensures fault { IsErrOf result Ending.ReadFault → Rose (S.faults input.old) (S.faults input.new) }
    ensures reliable { S.is_reliable input.old → result ≢ Err Ending.ReadFault }
    ensures consumed { Consumed (S.rest input.old) (S.rest input.new) most_read }
    // Also of a source that tells nothing: there are bytes, those that it tells where it does, of which this is the script, or the refusal.
    ensures bytes { (bytes : List ℕ) × Known (S.rest input.old) (λ all. bytes ≡ all)
        × MatchResult result (λ script. (limit_of waited bytes ≡ None) × (script_of bytes ≡ Ok script)) (λ ending. Refuses waited ending bytes) }
{
    let bytes = read_at_most(alloc, input, MOST_READ)?;
    script_in(alloc, waited, &bytes)
}

/// The script that the bytes are, where they pass no limit.
fn script_in(alloc: Global, waited: u64, bytes: &[u8]) -> Result<Script, Ending>
    ensures script { IfOk result (λ script. (limit_of waited bytes.now ≡ None) × (script_of bytes.now ≡ Ok script)) }
    ensures few { IfOk result (KeepsLimits waited) }
    ensures refused { IfErr result IsRefusal }
    ensures refuses { IfErr result (λ ending. Refuses waited ending bytes.now) }
    ensures read { result ≢ Err Ending.ReadFault }
{
    let lines = ScriptLines::of(bytes);
    if let Some(limit) = lines.limit_passed(waited) {
        return Err(Ending::Limit(limit));
    }
    let script = lines.read(alloc)?;
    Ok(script)
}
