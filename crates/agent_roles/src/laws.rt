//! Laws of roles, leases and watchdogs.
ghost use Rattle.std.specs.Prelude.{ℕ, ◌⊎◌, Bool, List};
ghost use Rattle.pat_base.specs.declared.member_id.MemberId.{MemberId};
ghost use Rattle.pat_base.specs.declared.peer_answer.PeerAnswer.{PeerAnswer};
ghost use Rattle.pat_base.specs.declared.ticks.Ticks.{Ticks};
ghost use Rattle.pat_base.specs.ServerState.{live};
ghost use Rattle.store_keys.specs.declared.action.OperatorAction.{OperatorAction};
ghost use Rattle.lease_store.specs.declared.granted.Granted.{Granted};
ghost use Rattle.store_keys.specs.declared.key.Key.{Key};
ghost use Rattle.store_keys.specs.declared.txn.Expected.{Expected};
ghost use Rattle.wal_model.specs.declared.entry.HistoryPoint.{HistoryPoint};
ghost use Rattle.cluster_view.specs.Snapshots.{SnapshotFacts};
ghost use Rattle.agent_model.specs.declared.heard.Heard.{Heard};
ghost use Rattle.agent_model.specs.declared.heard.Heard.TheVariants as heard;
ghost use Rattle.agent_model.specs.Agents.{Outcome, EndsAlone, HasCounted};
ghost use Rattle.agent_model.specs.Reconciling.{reconciled};
ghost use Rattle.agent_model.specs.Fits.{Fits};
ghost use Rattle.agent_roles.specs.Powers.{Acknowledges, AcknowledgesOperated, BringsNothing, GrantMay, LeavesMachine, StaysAlone, StaysByWord};
ghost use Rattle.agent_model.specs.Table.{step};

/// What comes before an input makes the role fit the server: nobody is about to lead, or follows, whose server is live, and
/// nobody leads whose server has ended.
pub fn role_fits_server()
    ensures { (now : Ticks) (o : Outcome) → Fits (reconciled now o).role (live (reconciled now o).machine.server.state) }
{}

/// Only a grant lets an agent lead: after any other input no server is live that wasn't live before, nobody leads who didn't lead
/// before, and nobody has a lease that it didn't have before.
pub fn only_a_grant_lets_lead()
    ensures wake { (now : Ticks) (points : List HistoryPoint) (o : Outcome) → BringsNothing o (step now points heard.Wake o) }
    ensures read { (now : Ticks) (points : List HistoryPoint) (sequence : ℕ) (snapshot : SnapshotFacts) (o : Outcome) → BringsNothing o (step now points (heard.ReadAnswered sequence snapshot) o) }
    ensures refusal { (now : Ticks) (points : List HistoryPoint) (sequence : ℕ) (key : Key) (found : Expected) (o : Outcome) → BringsNothing o (step now points (heard.Mismatch sequence key found) o) }
    ensures ask { (now : Ticks) (points : List HistoryPoint) (from : MemberId) (incarnation sequence : ℕ) (o : Outcome) → BringsNothing o (step now points (heard.Asked from incarnation sequence) o) }
    ensures answer { (now : Ticks) (points : List HistoryPoint) (sequence : ℕ) (answer : PeerAnswer) (o : Outcome) → BringsNothing o (step now points (heard.Answered sequence answer) o) }
    ensures failsafe_ask { (now : Ticks) (points : List HistoryPoint) (from : MemberId) (incarnation sequence : ℕ) (ttl : Ticks) (o : Outcome) → BringsNothing o (step now points (heard.FailsafeAsked from incarnation sequence ttl) o) }
    ensures failsafe_answer { (now : Ticks) (points : List HistoryPoint) (from : MemberId) (sequence : ℕ) (accepted : Bool) (sent : Ticks) (o : Outcome) → BringsNothing o (step now points (heard.FailsafeAnswered from sequence accepted sent) o) }
    ensures action { (now : Ticks) (points : List HistoryPoint) (action : OperatorAction) (o : Outcome) → BringsNothing o (step now points (heard.Operated action) o) }
{}

/// Only a grant sets a deadline, or the word of all other members: any other input leaves the watchdog and the hold as they were, but for
/// a deadline that is removed where nobody acts after it, or where an agent that was about to begin found its server live. By
/// that word a leader's watchdog is fed that leads on, at an answer to its failsafe request that outside a pause doesn't come too
/// late, or as it has nobody to ask. Only who acknowledges such a request, by a message or by the REST interface, takes a hold,
/// which lasts at least for its span.
pub fn only_a_grant_sets_deadlines()
    ensures wake { (now : Ticks) (points : List HistoryPoint) (o : Outcome) → LeavesMachine o (step now points heard.Wake o) ⊎ StaysAlone now o (step now points heard.Wake o) }
    ensures read { (now : Ticks) (points : List HistoryPoint) (sequence : ℕ) (snapshot : SnapshotFacts) (o : Outcome) → LeavesMachine o (step now points (heard.ReadAnswered sequence snapshot) o) }
    ensures refusal { (now : Ticks) (points : List HistoryPoint) (sequence : ℕ) (key : Key) (found : Expected) (o : Outcome) → LeavesMachine o (step now points (heard.Mismatch sequence key found) o) }
    ensures ask { (now : Ticks) (points : List HistoryPoint) (from : MemberId) (incarnation sequence : ℕ) (o : Outcome) → LeavesMachine o (step now points (heard.Asked from incarnation sequence) o) }
    ensures answer { (now : Ticks) (points : List HistoryPoint) (sequence : ℕ) (answer : PeerAnswer) (o : Outcome) → LeavesMachine o (step now points (heard.Answered sequence answer) o) }
    ensures failsafe_ask { (now : Ticks) (points : List HistoryPoint) (from : MemberId) (incarnation sequence : ℕ) (ttl : Ticks) (o : Outcome) → LeavesMachine o (step now points (heard.FailsafeAsked from incarnation sequence ttl) o) ⊎ Acknowledges now ttl o (step now points (heard.FailsafeAsked from incarnation sequence ttl) o) }
    ensures failsafe_answer { (now : Ticks) (points : List HistoryPoint) (from : MemberId) (sequence : ℕ) (accepted : Bool) (sent : Ticks) (o : Outcome) → LeavesMachine o (step now points (heard.FailsafeAnswered from sequence accepted sent) o) ⊎ StaysByWord now from sent o (step now points (heard.FailsafeAnswered from sequence accepted sent) o) }
    ensures action { (now : Ticks) (points : List HistoryPoint) (action : OperatorAction) (o : Outcome) → LeavesMachine o (step now points (heard.Operated action) o) ⊎ AcknowledgesOperated now action.asked o (step now points (heard.Operated action) o) }
{}

/// A grant gives at most the lease of its revision, where that is waited for, with the watchdog fed on it for the span that was
/// asked for. One that comes too late for the watchdog arms and feeds nothing: of it only who leads has the lease, and keeps its
/// deadline. A server becomes live by a grant only where no hold is active, and where the watchdog was armed or isn't needed.
pub fn a_grant_feeds_the_watchdog()
    ensures { (now : Ticks) (points : List HistoryPoint) (sequence : ℕ) (grant : Granted) (snapshot : SnapshotFacts) (o : Outcome) → GrantMay now sequence grant snapshot (reconciled now o) (step now points (heard.Granted sequence grant snapshot) o) }
{}

/// Who ends its server goes on waiting for no answer, and what is waited for has a number that is counted.
pub fn agents_stay_sound()
    ensures ends { (now : Ticks) (points : List HistoryPoint) (heard : Heard) (o : Outcome) → EndsAlone o.role o.knows.waited → EndsAlone (step now points heard o).role (step now points heard o).knows.waited }
    ensures counted { (now : Ticks) (points : List HistoryPoint) (heard : Heard) (o : Outcome) → HasCounted o.knows → HasCounted (step now points heard o).knows }
{}
