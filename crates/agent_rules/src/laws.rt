//! Laws of what inputs need.
ghost use Rattle.std.specs.Prelude.{ℕ, List, [], false};
ghost use Rattle.pat_base.specs.declared.member_id.MemberId.{MemberId};
ghost use Rattle.pat_base.specs.declared.ticks.Ticks.{Ticks};
ghost use Rattle.wal_model.specs.declared.entry.HistoryPoint.{HistoryPoint};
ghost use Rattle.event_book.specs.declared.reason.Reason.TheVariants.{FailsafeNotAcknowledged, StoreOutOfReach};
ghost use Rattle.agent_model.specs.declared.heard.Heard.{Heard};
ghost use Rattle.agent_model.specs.declared.knowledge.Knowledge.{Knowledge};
ghost use Rattle.agent_model.specs.declared.machine.Machine.{Machine};
ghost use Rattle.agent_model.specs.declared.heard.Heard.TheVariants as heards;
ghost use Rattle.agent_model.specs.Agents.{RoleFacts, IsSoundAgent, Outcome, outcome_from};
ghost use Rattle.agent_model.specs.Reconciling.{reconciled};
ghost use Rattle.agent_model.specs.Table.{step};
ghost use Rattle.agent_rules.specs.Grounds.{HasGrounds};
ghost use Rattle.agent_rules.specs.OutOfReach.{AsksToStay, EndsServer, IsOutOfReach, IsUnacknowledged, WaitsForTurn};
ghost use Rattle.agent_rules.specs.Pauses.{RestrainsInPause};
ghost use Rattle.agent_rules.specs.Turns.{ReadsInTurn};

/// Each input has its grounds. The leader key is asked for by who read that nobody leads, and its renewal by who read that it leads itself; a set
/// for the failsafe key goes with that only from a leader whose deadline acknowledgements didn't set last. The key is taken, and the sync key
/// claimed, only under the whole rule of taking the leader key; the sync key is written or removed, and others required, only by the plan that
/// the granted snapshot calls for, as such a write settles, or where the server begins. A watchdog gets a deadline only by the grant that is
/// waited for, by the acknowledgement with which all have acknowledged, or where a leader that can't reach the key store knows no other
/// member: now plus the timeout for the span that was asked for; one that is off or broken gets none. Only such a leader sends
/// failsafe requests, to each other member that it knows. Only a follower takes a hold, whose server isn't live, while it waits for no lease.
/// A log is rewound, and a server copied or wiped, only where that isn't live; and who gave a lease back doesn't have it.
pub fn inputs_have_grounds()
    ensures { (now : Ticks) (points : List HistoryPoint) (heard : Heard) (role : RoleFacts) (knows : Knowledge) (machine : Machine) → IsSoundAgent role knows → HasGrounds now heard (reconciled now (outcome_from role knows machine [])) (step now points heard (outcome_from role knows machine [])) }
{}

/// A leader that can't reach the key store ends its server: outside a pause, once its read or its renewal is unanswered when the time for that is over.
/// That is `retry_timeout` seconds after the turn began that asks it. Behind that its lease is given up with the server's end. With failsafe mode it first
/// asks the other members, and ends its server once one of them refuses, or its time is over before all have acknowledged.
pub fn a_leader_out_of_reach_ends_its_server()
    ensures ends { (now : Ticks) (points : List HistoryPoint) (revision : ℕ) (o : Outcome) → IsOutOfReach now revision o → EndsServer StoreOutOfReach now revision o (step now points heards.Wake o) }
    ensures unacknowledged { (now : Ticks) (points : List HistoryPoint) (revision : ℕ) (o : Outcome) → IsUnacknowledged now revision o → EndsServer FailsafeNotAcknowledged now revision o (step now points heards.Wake o) }
    ensures refused { (now : Ticks) (points : List HistoryPoint) (revision sequence : ℕ) (from : MemberId) (sent : Ticks) (o : Outcome) → AsksToStay sequence revision o → EndsServer FailsafeNotAcknowledged now revision o (step now points (heards.FailsafeAnswered from sequence false sent) o) }
    ensures waits { (now : Ticks) (points : List HistoryPoint) (heard : Heard) (o : Outcome) → WaitsForTurn now o (step now points heard o) }
{}

/// In a pause no agent ends, starts or rewinds a server by itself, but for a handover: an input behind which the cluster is paused ends the server only to
/// hand over, starts it as a replica only after a handover of its own, has only a replica begin that an operator wants to lead, and rewinds
/// nothing. What else it does to the server an operator asks for.
pub fn in_a_pause_servers_are_left_alone()
    ensures { (now : Ticks) (points : List HistoryPoint) (heard : Heard) (role : RoleFacts) (knows : Knowledge) (machine : Machine) → RestrainsInPause heard (reconciled now (outcome_from role knows machine [])) (step now points heard (outcome_from role knows machine [])) }
{}

/// A turn that is due reads: a wake in which a turn has come and nothing is waited for asks the key store what it holds, under the newest number of a
/// message, and waits for that answer. So does one behind a question whose time is over, unless another question follows that at once,
/// or the agent ends its server. Who ends its server reads nothing, and neither does an agent without a lease until its server has ended.
pub fn a_due_turn_reads()
    ensures { (now : Ticks) (points : List HistoryPoint) (heard : Heard) (o : Outcome) → ReadsInTurn now heard (reconciled now o) (step now points heard o) }
{}
