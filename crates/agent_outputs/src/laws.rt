//! Laws of outputs.
ghost use Rattle.std.specs.Prelude.{List, []};
ghost use Rattle.pat_base.specs.declared.ticks.Ticks.{Ticks};
ghost use Rattle.wal_model.specs.declared.entry.HistoryPoint.{HistoryPoint};
ghost use Rattle.agent_model.specs.declared.heard.Heard.{Heard};
ghost use Rattle.agent_model.specs.declared.knowledge.Knowledge.{Knowledge};
ghost use Rattle.agent_model.specs.declared.machine.Machine.{Machine};
ghost use Rattle.agent_model.specs.Agents.{RoleFacts, outcome_from};
ghost use Rattle.agent_outputs.specs.Orders.{IsCarriedOut};
ghost use Rattle.agent_model.specs.Table.{step};

/// The outputs of an input are all that becomes of its machine: the machine that it leaves is what they, carried out in their
/// order, make of the machine before. Of another member none asks more than how far its server is,
/// and whether this one may stay primary.
pub fn outputs_make_the_machine()
    ensures { (now : Ticks) (points : List HistoryPoint) (heard : Heard) (role : RoleFacts) (knows : Knowledge) (machine : Machine) → IsCarriedOut now machine (step now points heard (outcome_from role knows machine [])) }
{}
