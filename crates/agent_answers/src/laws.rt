//! Laws of answers.
ghost use Rattle.std.specs.Prelude.{List, [], All};
ghost use Rattle.pat_base.specs.declared.ticks.Ticks.{Ticks};
ghost use Rattle.wal_model.specs.declared.entry.HistoryPoint.{HistoryPoint};
ghost use Rattle.agent_model.specs.declared.heard.Heard.{Heard};
ghost use Rattle.agent_model.specs.declared.knowledge.Knowledge.{Knowledge};
ghost use Rattle.agent_model.specs.declared.machine.Machine.{Machine};
ghost use Rattle.agent_model.specs.Agents.{RoleFacts, outcome_from};
ghost use Rattle.agent_answers.specs.OperatorAnswers.{told_in, AnswersOneAtMost, HaveCauses, TellsDecision, WaitsAsAsked};
ghost use Rattle.agent_answers.specs.Replies.{RepliesTo};
ghost use Rattle.agent_model.specs.Table.{step};

/// Who answers another member was asked by that one, and answers under the number of its ask.
pub fn who_asks_is_answered()
    ensures { (now : Ticks) (points : List HistoryPoint) (heard : Heard) (role : RoleFacts) (knows : Knowledge) (machine : Machine) → All (RepliesTo heard) (step now points heard (outcome_from role knows machine [])).outputs }
{}

/// An operator is answered at most once. An input answers at most one request: the one that waited before, for its reason, and
/// then none waits any more; or the one that is heard, where that is done at once, as a restart is. What waits after an input
/// waited before, or is the request that is heard, for which the key store is asked at this moment. So where each request has a
/// number of its own, one that was answered doesn't wait again, and one that neither waits nor is heard is never answered.
pub fn an_operator_is_answered_once()
    ensures answers { (now : Ticks) (points : List HistoryPoint) (heard : Heard) (role : RoleFacts) (knows : Knowledge) (machine : Machine) → AnswersOneAtMost now heard (outcome_from role knows machine []) (step now points heard (outcome_from role knows machine [])) (told_in (step now points heard (outcome_from role knows machine [])).outputs) }
    ensures waits { (now : Ticks) (points : List HistoryPoint) (heard : Heard) (role : RoleFacts) (knows : Knowledge) (machine : Machine) → WaitsAsAsked now heard (outcome_from role knows machine []) (step now points heard (outcome_from role knows machine [])) }
{}

/// Refusals and delays are told for their cause. That no result came in time an operator hears 600 ticks after the key store was
/// asked, and no earlier. That its configuration was not written it hears with status 409 only where the key store refused that, and
/// with 503 only where no answer was heard until `retry_timeout` was over; an answer that is heard is told at once.
pub fn refusals_and_delays_are_told_for_cause()
    ensures causes { (now : Ticks) (points : List HistoryPoint) (heard : Heard) (role : RoleFacts) (knows : Knowledge) (machine : Machine) → HaveCauses now heard knows (step now points heard (outcome_from role knows machine [])).outputs }
    ensures decisions { (now : Ticks) (points : List HistoryPoint) (heard : Heard) (role : RoleFacts) (knows : Knowledge) (machine : Machine) → TellsDecision heard knows (step now points heard (outcome_from role knows machine [])).outputs }
{}
