//! The law of questions.
ghost use Rattle.std.specs.Prelude.{List, []};
ghost use Rattle.pat_base.specs.declared.ticks.Ticks.{Ticks};
ghost use Rattle.wal_model.specs.declared.entry.HistoryPoint.{HistoryPoint};
ghost use Rattle.agent_model.specs.declared.heard.Heard.{Heard};
ghost use Rattle.agent_model.specs.declared.knowledge.Knowledge.{Knowledge};
ghost use Rattle.agent_model.specs.declared.machine.Machine.{Machine};
ghost use Rattle.agent_model.specs.Agents.{RoleFacts, outcome_from};
ghost use Rattle.agent_model.specs.Table.{step};
ghost use Rattle.agent_questions.specs.Questions.{AsksAnew};

/// An input asks under new numbers: the agent goes on in its incarnation, and waits for what it waited for, for nothing, or for what it asks now.
pub fn inputs_ask_anew()
    ensures { (now : Ticks) (points : List HistoryPoint) (heard : Heard) (role : RoleFacts) (knows : Knowledge) (machine : Machine) → AsksAnew now knows (step now points heard (outcome_from role knows machine [])).knows (step now points heard (outcome_from role knows machine [])).outputs }
{}
