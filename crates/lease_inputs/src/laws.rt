//! The law of inputs of agents.
ghost use Rattle.script_model.specs.Script.{HeadText};
ghost use Rattle.lease_parts.specs.Kept.{one_writer};
ghost use Rattle.run_promise.specs.Members.{IsDeclared};
ghost use Rattle.run_promise.specs.Parts.{InputsUphold};

/// While the premises are met, each input of an agent upholds that at most one server accepts writes, at each moment inside it too: the wake
/// of one, what an operator has one do, and a message that comes to one.
pub fn inputs_uphold_one_writer()
    ensures { (head : HeadText) → InputsUphold (IsDeclared head) (one_writer head) }
{}
