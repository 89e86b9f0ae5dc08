//! The law of inputs of agents in synchronous mode.
ghost use Rattle.script_model.specs.Script.{HeadText, IsHead};
ghost use Rattle.run_promise.specs.Members.{IsDeclared};
ghost use Rattle.run_promise.specs.Parts.{InputsUphold};
ghost use Rattle.commit_parts.specs.Bridged.{kept_commits};

/// While synchronous mode is on and the premises of one writer are met, each input of an agent upholds kept commits, at each moment inside
/// it too: the wake of one, what an operator has one do, and a message that comes to one.
pub fn inputs_uphold_commits()
    ensures { (head : HeadText) → IsHead head → InputsUphold (IsDeclared head) (kept_commits head) }
{}
