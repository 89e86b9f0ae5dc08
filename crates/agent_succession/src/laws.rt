//! Laws of succession.
ghost use Rattle.std.specs.Prelude.{ℕ, ◌≡◌, ◌⊎◌, List, [], Some, None, false, true};
ghost use Rattle.std.specs.List.{Contains};
ghost use Rattle.pat_base.specs.declared.member_id.MemberId.{MemberId};
ghost use Rattle.pat_base.specs.declared.peer_answer.PeerAnswer.{PeerAnswer};
ghost use Rattle.pat_base.specs.declared.ticks.Ticks.{Ticks};
ghost use Rattle.pat_base.specs.declared.ineligibility.Ineligibility.{Ineligibility};
ghost use Rattle.wal_model.specs.declared.entry.HistoryPoint.{HistoryPoint};
ghost use Rattle.cluster_view.specs.Snapshots.{SnapshotFacts};
ghost use Rattle.leader_race.specs.Eligibility.{eligibility_of};
ghost use Rattle.leader_race.specs.Outcome.{outcome_by};
ghost use Rattle.agent_model.specs.declared.heard.Heard.{Heard};
ghost use Rattle.agent_model.specs.declared.heard.Heard.TheVariants as heard;
ghost use Rattle.agent_model.specs.declared.knowledge.PendingQuestion.{PendingQuestion};
ghost use Rattle.agent_model.specs.declared.output.Output.TheVariants as outputs;
ghost use Rattle.agent_model.specs.declared.output.Noting.TheVariants as notings;
ghost use Rattle.event_book.specs.declared.agent_note.AgentNote.TheVariants as agent_notes;
ghost use Rattle.agent_model.specs.Agents.{Outcome};
ghost use Rattle.agent_model.specs.Answers.{with_answer, all_answered};
ghost use Rattle.agent_model.specs.Reconciling.{reconciled};
ghost use Rattle.agent_succession.specs.FreeKey.{HearsFree, StaysOut, AsksForKey, AsksOthers, HearsLast, RunsLate, LosesRace, LosesAndTurns, AsksWhereFree, AsksWhereWon, BeginsWhereGranted};
ghost use Rattle.agent_succession.specs.TurnReads.{KeepsTurnKeys};
ghost use Rattle.agent_model.specs.HandingOver.{handover_judged};
ghost use Rattle.agent_succession.specs.Handovers.{HandsOverTo};
ghost use Rattle.agent_model.specs.Racing.{can_start, turn_keys};
ghost use Rattle.agent_model.specs.Table.{prepared, step};
ghost use Rattle.agent_model.specs.Views.{shown};

/// A leader hands over only to a member that may lead next, by what it answered: one that accepts no writes, may fail over, lags no
/// further than `maximum_lag_on_failover` and, at a switchover in synchronous mode, is a standby in the sync key. Then the leader ends
/// its server, and keeps its lease until that has ended.
pub fn a_leader_hands_over_to_who_may_lead()
    ensures { (now : Ticks) (revision : ℕ) (candidate : MemberId) (o : Outcome) → Contains (handover_judged now revision o).outputs (outputs.Note (notings.Agent (agent_notes.HandsOver candidate))) → Contains o.outputs (outputs.Note (notings.Agent (agent_notes.HandsOver candidate))) ⊎ HandsOverTo revision candidate o (handover_judged now revision o) }
{}

/// Who is barred doesn't ask for a free leader key: where the answer to its read tells that nobody leads, an agent without a
/// server that can start tells what bars it, tells of itself, and does nothing else.
pub fn who_is_barred_stays_out()
    ensures { (now : Ticks) (points : List HistoryPoint) (sequence : ℕ) (snapshot : SnapshotFacts) (bar : Ineligibility) (o : Outcome) → HearsFree sequence snapshot (prepared now (heard.ReadAnswered sequence snapshot) o) → can_start (prepared now (heard.ReadAnswered sequence snapshot) o).machine.server ≡ false → eligibility_of (shown now (prepared now (heard.ReadAnswered sequence snapshot) o)) snapshot ≡ Some bar → StaysOut snapshot bar (prepared now (heard.ReadAnswered sequence snapshot) o) (step now points (heard.ReadAnswered sequence snapshot) o) }
{}

/// A free leader key is raced for: where the answer to its read tells that nobody leads, an agent that nothing bars asks every
/// other member how far its server is, and waits for the answers; it is to be judged by the keys that this read told. Where there is
/// no other member, it asks for the key at once, and waits for the answer. Only a running replica is barred by nothing.
pub fn a_free_key_is_asked_for()
    ensures others { (now : Ticks) (points : List HistoryPoint) (sequence : ℕ) (snapshot : SnapshotFacts) (o : Outcome) → HearsFree sequence snapshot (prepared now (heard.ReadAnswered sequence snapshot) o) → eligibility_of (shown now (prepared now (heard.ReadAnswered sequence snapshot) o)) snapshot ≡ None → all_answered (prepared now (heard.ReadAnswered sequence snapshot) o).knows.who [] ≡ false → AsksOthers now snapshot (prepared now (heard.ReadAnswered sequence snapshot) o) (step now points (heard.ReadAnswered sequence snapshot) o) }
    ensures alone { (now : Ticks) (points : List HistoryPoint) (sequence : ℕ) (snapshot : SnapshotFacts) (o : Outcome) → HearsFree sequence snapshot (prepared now (heard.ReadAnswered sequence snapshot) o) → eligibility_of (shown now (prepared now (heard.ReadAnswered sequence snapshot) o)) snapshot ≡ None → all_answered (prepared now (heard.ReadAnswered sequence snapshot) o).knows.who [] ≡ true → AsksForKey (prepared now (heard.ReadAnswered sequence snapshot) o) (step now points (heard.ReadAnswered sequence snapshot) o) }
{}

/// A race is judged by the answers of the others, as soon as each of them answered, and by the failover key, the sync key and the
/// synchronous mode as the turn that asked read them: what an operator's answer brought meanwhile counts from the next turn on. Who
/// wins asks for the key, and waits for the answer; who loses tells what bars it, tells of itself, and does nothing else.
pub fn the_last_answer_decides()
    ensures won { (now : Ticks) (points : List HistoryPoint) (waited : PendingQuestion) (sequence : ℕ) (answer : PeerAnswer) (o : Outcome) → HearsLast waited sequence answer (reconciled now o) → outcome_by (shown now (reconciled now o)) (turn_keys (reconciled now o).knows) (with_answer answer (reconciled now o).knows.answers) ≡ None → AsksForKey (reconciled now o) (step now points (heard.Answered sequence answer) o) }
    ensures lost { (now : Ticks) (points : List HistoryPoint) (waited : PendingQuestion) (sequence : ℕ) (answer : PeerAnswer) (bar : Ineligibility) (o : Outcome) → HearsLast waited sequence answer (reconciled now o) → outcome_by (shown now (reconciled now o)) (turn_keys (reconciled now o).knows) (with_answer answer (reconciled now o).knows.answers) ≡ Some bar → LosesRace bar (reconciled now o) (step now points (heard.Answered sequence answer) o) }
{}

/// Once their time is over, a race is judged by the answers that there are, in the same way.
pub fn late_answers_are_not_waited_for()
    ensures won { (now : Ticks) (points : List HistoryPoint) (waited : PendingQuestion) (o : Outcome) → RunsLate now waited (prepared now heard.Wake o) → outcome_by (shown now (prepared now heard.Wake o)) (turn_keys (prepared now heard.Wake o).knows) (prepared now heard.Wake o).knows.answers ≡ None → AsksForKey (prepared now heard.Wake o) (step now points heard.Wake o) }
    ensures lost { (now : Ticks) (points : List HistoryPoint) (waited : PendingQuestion) (bar : Ineligibility) (o : Outcome) → RunsLate now waited (prepared now heard.Wake o) → outcome_by (shown now (prepared now heard.Wake o)) (turn_keys (prepared now heard.Wake o).knows) (prepared now heard.Wake o).knows.answers ≡ Some bar → LosesAndTurns now bar (prepared now heard.Wake o) (step now points heard.Wake o) }
{}

/// What a race is judged by of the key store stays until the next turn reads it, whatever comes meanwhile: no input changes it but the
/// answer to the read that is waited for.
pub fn what_a_turn_read_stays()
    ensures { (now : Ticks) (points : List HistoryPoint) (heard : Heard) (o : Outcome) → KeepsTurnKeys heard o (step now points heard o) }
{}

/// A free leader key is asked for, by whom nothing bars and who wins; and whom it is granted to begins, where it hears that in
/// time for its watchdog.
pub fn a_free_key_finds_a_leader()
    ensures free_key { (now : Ticks) (points : List HistoryPoint) (heard : Heard) (o : Outcome) → AsksWhereFree now heard (prepared now heard o) (step now points heard o) }
    ensures won_race { (now : Ticks) (points : List HistoryPoint) (heard : Heard) (o : Outcome) → AsksWhereWon now heard (prepared now heard o) (step now points heard o) }
    ensures granted_key { (now : Ticks) (points : List HistoryPoint) (heard : Heard) (o : Outcome) → BeginsWhereGranted now heard (prepared now heard o) (step now points heard o) }
{}
