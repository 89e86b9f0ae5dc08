//! Laws of what an agent sends.
ghost use Rattle.std.specs.Prelude.{Bool, List, [], All};
ghost use Rattle.pat_base.specs.declared.ticks.Ticks.{Ticks};
ghost use Rattle.wal_model.specs.declared.entry.HistoryPoint.{HistoryPoint};
ghost use Rattle.agent_model.specs.declared.heard.Heard.{Heard};
ghost use Rattle.agent_model.specs.declared.knowledge.Knowledge.{Knowledge};
ghost use Rattle.agent_model.specs.declared.machine.Machine.{Machine};
ghost use Rattle.agent_model.specs.Agents.{RoleFacts, IsSoundAgent, outcome_from};
ghost use Rattle.agent_model.specs.Table.{step};
ghost use Rattle.agent_sending.specs.Asking.{AsksAsWaited};
ghost use Rattle.agent_sending.specs.Modes.{AsksMode, HearsMode, LeavesMode};

/// What an agent knows of failsafe mode stays so, while each snapshot has the mode as it is declared.
pub fn the_mode_is_kept()
    ensures known { (now : Ticks) (points : List HistoryPoint) (heard : Heard) (role : RoleFacts) (knows : Knowledge) (machine : Machine) → IsSoundAgent role knows → LeavesMode heard (outcome_from role knows machine []) (step now points heard (outcome_from role knows machine [])) }
    // A configuration that is asked for has it so, where an operator's has.
    ensures asked { (now : Ticks) (points : List HistoryPoint) (heard : Heard) (role : RoleFacts) (knows : Knowledge) (machine : Machine) → IsSoundAgent role knows → (mode : Bool) → HearsMode mode heard → All (AsksMode mode) (step now points heard (outcome_from role knows machine [])).outputs }
{}

/// An input asks under new numbers, and the create or the renewal that its agent waits for after it was waited for before, or is
/// asked in it: at this moment, and for leases of the span that is noted with it.
pub fn what_is_asked_is_waited_for()
    ensures { (now : Ticks) (points : List HistoryPoint) (heard : Heard) (role : RoleFacts) (knows : Knowledge) (machine : Machine) → IsSoundAgent role knows → AsksAsWaited now heard (outcome_from role knows machine []) (step now points heard (outcome_from role knows machine [])) }
{}
