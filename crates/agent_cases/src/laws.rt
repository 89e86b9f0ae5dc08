//! A law of the decision table that the agent and whoever carries out its outputs need.
ghost use Rattle.std.specs.Prelude.{List};
ghost use Rattle.pat_base.specs.declared.ticks.Ticks.{Ticks};
ghost use Rattle.wal_model.specs.declared.entry.HistoryPoint.{HistoryPoint};
ghost use Rattle.agent_model.specs.declared.heard.Heard.{Heard};
ghost use Rattle.agent_model.specs.Agents.{Outcome};
ghost use Rattle.agent_cases.specs.Bounds.{IsSmall};
ghost use Rattle.agent_model.specs.Table.{step};

/// An input brings at most 40 messages and 40 outputs, and asks the key store for leases that it can write.
pub fn inputs_are_small()
    ensures { (now : Ticks) (points : List HistoryPoint) (heard : Heard) (o : Outcome) → IsSmall o (step now points heard o) }
{}
