//! Laws of what a leader does at each of its inputs: at the decision table, and in the cluster.
ghost use Rattle.agent_model.specs.Acting.{comes_late};
ghost use Rattle.agent_model.specs.Agents.{Outcome};
ghost use Rattle.agent_model.specs.Decisions.{is_write_of};
ghost use Rattle.agent_model.specs.Operators.{awaits_number};
ghost use Rattle.agent_model.specs.Pausing.{is_paused};
ghost use Rattle.agent_model.specs.Snapshots.{awaits_read, informed};
ghost use Rattle.agent_model.specs.Table.{step};
ghost use Rattle.agent_model.specs.declared.heard.Heard.{Heard};
ghost use Rattle.agent_model.specs.declared.knowledge.PendingQuestion.{PendingQuestion};
ghost use Rattle.agent_model.specs.declared.knowledge.Question.TheVariants.{Renewing, Syncing};
ghost use Rattle.agent_model.specs.declared.knowledge.Settling.{Settling};
ghost use Rattle.agent_roles.specs.Powers.{IsAwaitedLease};
ghost use Rattle.cluster_model.specs.Cluster.{cluster_after, cluster_over};
ghost use Rattle.cluster_model.specs.Hearing.{heard_from};
ghost use Rattle.cluster_model.specs.Inputs.{moment_of, standing_of};
ghost use Rattle.cluster_model.specs.Machines.{points_of};
ghost use Rattle.cluster_model.specs.Messages.{hear_events, wake_events_of};
ghost use Rattle.cluster_model.specs.State.{Cluster};
ghost use Rattle.cluster_view.specs.Snapshots.{SnapshotFacts, leader_in, settings_in};
ghost use Rattle.cluster_view.specs.declared.snapshot.LeaderEntry.{LeaderEntry};
ghost use Rattle.event_book.specs.Flight.{InFlightFacts, in_flight};
ghost use Rattle.event_book.specs.declared.agent_process.AgentProcess.{AgentProcess};
ghost use Rattle.event_book.specs.declared.event.EventKind.TheVariants.{Message};
ghost use Rattle.event_book.specs.declared.event.MessageEvent.TheVariants.{Delivered};
ghost use Rattle.event_book.specs.declared.member.Member.{Member};
ghost use Rattle.leading_law.specs.Leading.{AnswersAlone, AnswersNumber, AwaitsNoPeer, IsPeerAnswer, AsksRenewal, BeginsTurn, HasSynced, IsLeading, IsRenewed};
ghost use Rattle.leading_law.specs.OwnInputs.{AnswersOnly, GoesOn, HasRoom, HasSettled, LeadsOnAt, NumbersRise, SleepsOn, TakesTurn};
ghost use Rattle.lease_store.specs.declared.granted.Granted.{Granted};
ghost use Rattle.pat_base.specs.declared.member_id.MemberId.{MemberId};
ghost use Rattle.pat_base.specs.declared.ticks.Ticks.{Ticks};
ghost use Rattle.std.specs.Prelude.{List, None, Some, false, nat_le, slice_get, true, ℕ, ◌==◌, ◌≡◌};
ghost use Rattle.store_keys.specs.declared.key.Key.{Key};
ghost use Rattle.store_keys.specs.declared.txn.Expected.{Expected};
ghost use Rattle.wal_model.specs.declared.entry.HistoryPoint.{HistoryPoint};
ghost use Rattle.agent_model.specs.declared.heard.Heard.TheVariants as heard;
ghost use Rattle.event_book.specs.declared.link.LinkEnd.TheVariants as ends;

/// A leader takes its turn and leads on: once its turn is due it reads the key store; where it finds its own key it asks for the renewal; and where it hears that
/// this is granted, its watchdog is fed, and at most one write of the sync key is left to wait for. Before its turn, and whatever the others ask, it does nothing but answer.
pub fn a_leader_keeps_its_turn()
    ensures begins { (now : Ticks) (points : List HistoryPoint) (o : Outcome) → IsLeading o → o.knows.waited ≡ None → nat_le o.knows.next_turn.0 now.0 ≡ true → BeginsTurn now o (step now points heard.Wake o) }
    ensures sleeps { (now : Ticks) (points : List HistoryPoint) (o : Outcome) → IsLeading o → o.knows.waited ≡ None → nat_le o.knows.next_turn.0 now.0 ≡ false → step now points heard.Wake o ≡ o }
    ensures waits { (now : Ticks) (points : List HistoryPoint) (waited : PendingQuestion) (o : Outcome) → IsLeading o → o.knows.waited ≡ Some waited → nat_le waited.until.0 now.0 ≡ false → step now points heard.Wake o ≡ o }
    ensures renews { (now : Ticks) (points : List HistoryPoint) (sequence : ℕ) (snapshot : SnapshotFacts) (leader : LeaderEntry) (o : Outcome) → IsLeading o → awaits_read o.knows.waited sequence ≡ true → leader_in snapshot ≡ Some leader → leader.holder.number == o.knows.who.me.number ≡ true
        → AsksRenewal now snapshot leader.revision o (step now points (heard.ReadAnswered sequence snapshot) o) }
    ensures renewed { (now : Ticks) (points : List HistoryPoint) (sequence : ℕ) (grant : Granted) (snapshot : SnapshotFacts) (o : Outcome) → IsLeading o → (awaited : IsAwaitedLease sequence grant o.knows) → awaited.waited.question ≡ Renewing → is_paused (informed snapshot o.knows) ≡ false → comes_late now awaited.waited o.machine ≡ false → o.knows.turn_failover ≡ None
        → IsRenewed now awaited.waited.ttl grant.revision snapshot o (step now points (heard.Granted sequence grant snapshot) o) }
    ensures asked { (now : Ticks) (points : List HistoryPoint) (from : MemberId) (incarnation sequence : ℕ) (o : Outcome) → IsLeading o → AnswersAlone o (step now points (heard.Asked from incarnation sequence) o) }
    ensures refuses { (now : Ticks) (points : List HistoryPoint) (from : MemberId) (incarnation sequence : ℕ) (ttl : Ticks) (o : Outcome) → IsLeading o → AnswersAlone o (step now points (heard.FailsafeAsked from incarnation sequence ttl) o) }
    // While no operator waits for it, the answer to a question that it doesn't wait for changes nothing; and the decision on its write of the sync key ends its turn.
    ensures drops { (now : Ticks) (points : List HistoryPoint) (o : Outcome) → IsLeading o → o.knows.operating ≡ None → (number : ℕ) (heard : Heard) → AnswersNumber number heard → awaits_number o.knows.waited number ≡ false → step now points heard o ≡ o }
    ensures peers { (now : Ticks) (points : List HistoryPoint) (o : Outcome) → IsLeading o → o.knows.operating ≡ None → (heard : Heard) → IsPeerAnswer heard → AwaitsNoPeer o.knows.waited → step now points heard o ≡ o }
    ensures synced { (now : Ticks) (points : List HistoryPoint) (o : Outcome) → IsLeading o → o.knows.operating ≡ None → (waited : PendingQuestion) (settling : Settling) (grant : Granted) (snapshot : SnapshotFacts) → o.knows.waited ≡ Some waited → waited.question ≡ Syncing settling
        → is_write_of o.knows.who.me grant ≡ true → HasSynced (settings_in o.knows.settings snapshot) o (step now points (heard.Granted waited.sequence grant snapshot) o) }
    ensures unsynced { (now : Ticks) (points : List HistoryPoint) (o : Outcome) → IsLeading o → o.knows.operating ≡ None → (waited : PendingQuestion) (settling : Settling) (key : Key) (there : Expected) → o.knows.waited ≡ Some waited → waited.question ≡ Syncing settling
        → HasSynced o.knows.settings o (step now points (heard.Mismatch waited.sequence key there) o) }
{}

/// What a leader does in its turn, as events of the cluster: it puts one question in flight at a time, under the next number, and orders its server nothing.
pub fn a_leaders_inputs_in_the_cluster()
    // Woken when its turn is due, it asks to read the key store.
    ensures turns { (member : Member) (cluster : Cluster) (process : AgentProcess) (o : Outcome) → slice_get cluster.facts.processes member.id.number ≡ Some process → standing_of cluster member ≡ Some o → IsLeading o
        → o.knows.waited ≡ None → nat_le o.knows.next_turn.0 cluster.facts.clock ≡ true → HasRoom cluster → TakesTurn member process o cluster (cluster_over cluster (wake_events_of cluster member)) }
    // Woken before, or while it waits, it does nothing.
    ensures sleeps { (member : Member) (cluster : Cluster) (process : AgentProcess) (o : Outcome) → slice_get cluster.facts.processes member.id.number ≡ Some process → standing_of cluster member ≡ Some o → IsLeading o
        → o.knows.waited ≡ None → nat_le o.knows.next_turn.0 cluster.facts.clock ≡ false → SleepsOn member o cluster (cluster_over cluster (wake_events_of cluster member)) }
    ensures waits { (member : Member) (cluster : Cluster) (process : AgentProcess) (o : Outcome) → slice_get cluster.facts.processes member.id.number ≡ Some process → standing_of cluster member ≡ Some o → IsLeading o
        → (waited : PendingQuestion) → o.knows.waited ≡ Some waited → nat_le waited.until.0 cluster.facts.clock ≡ false → SleepsOn member o cluster (cluster_over cluster (wake_events_of cluster member)) }
    // The answer that shows its own key has it ask for the renewal.
    ensures renews { (member : Member) (cluster : Cluster) (process : AgentProcess) (o : Outcome) (number : ℕ) (carried : InFlightFacts) → slice_get cluster.facts.processes member.id.number ≡ Some process → standing_of cluster member ≡ Some o → IsLeading o
        → in_flight cluster.facts.flight number ≡ Some carried → carried.message.to ≡ ends.Member member
        → (sequence : ℕ) (snapshot : SnapshotFacts) (leader : LeaderEntry) → heard_from cluster carried ≡ Some (heard.ReadAnswered sequence snapshot) → awaits_read o.knows.waited sequence ≡ true → leader_in snapshot ≡ Some leader
        → leader.holder.number == o.knows.who.me.number ≡ true → HasRoom (cluster_after cluster (Message (Delivered number)))
        → GoesOn member process snapshot leader.revision o (cluster_after cluster (Message (Delivered number))) (cluster_over cluster (hear_events cluster number carried member)) }
    // The grant of the renewal feeds its watchdog; and it asks for one write of the sync key at most.
    ensures feeds { (member : Member) (cluster : Cluster) (process : AgentProcess) (o : Outcome) (number : ℕ) (carried : InFlightFacts) → slice_get cluster.facts.processes member.id.number ≡ Some process → standing_of cluster member ≡ Some o → IsLeading o
        → in_flight cluster.facts.flight number ≡ Some carried → carried.message.to ≡ ends.Member member
        → (sequence : ℕ) (grant : Granted) (snapshot : SnapshotFacts) → heard_from cluster carried ≡ Some (heard.Granted sequence grant snapshot) → (awaited : IsAwaitedLease sequence grant o.knows) → awaited.waited.question ≡ Renewing
        → is_paused (informed snapshot o.knows) ≡ false → comes_late (moment_of cluster) awaited.waited o.machine ≡ false → o.knows.turn_failover ≡ None
        → ((waited : PendingQuestion) → (step (moment_of cluster) (points_of cluster member) (heard.Granted sequence grant snapshot) o).knows.waited ≡ Some waited → HasRoom (cluster_after cluster (Message (Delivered number))))
        → LeadsOnAt member process awaited.waited.ttl grant.revision snapshot o (cluster_after cluster (Message (Delivered number))) (cluster_over cluster (hear_events cluster number carried member)) }
    // The answer to a question that it doesn't wait for changes nothing while no operator waits for it; the decision on its write of the sync key ends its turn.
    ensures drops { (member : Member) (cluster : Cluster) (process : AgentProcess) (o : Outcome) (number : ℕ) (carried : InFlightFacts) → slice_get cluster.facts.processes member.id.number ≡ Some process → standing_of cluster member ≡ Some o → IsLeading o
        → in_flight cluster.facts.flight number ≡ Some carried → carried.message.to ≡ ends.Member member
        → (sequence : ℕ) (told : Heard) → heard_from cluster carried ≡ Some told → AnswersNumber sequence told → o.knows.operating ≡ None → awaits_number o.knows.waited sequence ≡ false
        → SleepsOn member o (cluster_after cluster (Message (Delivered number))) (cluster_over cluster (hear_events cluster number carried member)) }
    ensures peers { (member : Member) (cluster : Cluster) (process : AgentProcess) (o : Outcome) (number : ℕ) (carried : InFlightFacts) → slice_get cluster.facts.processes member.id.number ≡ Some process → standing_of cluster member ≡ Some o → IsLeading o
        → in_flight cluster.facts.flight number ≡ Some carried → carried.message.to ≡ ends.Member member
        → (told : Heard) → heard_from cluster carried ≡ Some told → IsPeerAnswer told → o.knows.operating ≡ None → AwaitsNoPeer o.knows.waited
        → SleepsOn member o (cluster_after cluster (Message (Delivered number))) (cluster_over cluster (hear_events cluster number carried member)) }
    ensures syncs { (member : Member) (cluster : Cluster) (process : AgentProcess) (o : Outcome) (number : ℕ) (carried : InFlightFacts) → slice_get cluster.facts.processes member.id.number ≡ Some process → standing_of cluster member ≡ Some o → IsLeading o
        → in_flight cluster.facts.flight number ≡ Some carried → carried.message.to ≡ ends.Member member
        → (waited : PendingQuestion) (settling : Settling) (grant : Granted) (snapshot : SnapshotFacts) → heard_from cluster carried ≡ Some (heard.Granted waited.sequence grant snapshot) → o.knows.operating ≡ None → o.knows.waited ≡ Some waited
        → waited.question ≡ Syncing settling → is_write_of o.knows.who.me grant ≡ true → HasSettled member (settings_in o.knows.settings snapshot) o (cluster_after cluster (Message (Delivered number))) (cluster_over cluster (hear_events cluster number carried member)) }
    ensures unsynced { (member : Member) (cluster : Cluster) (process : AgentProcess) (o : Outcome) (number : ℕ) (carried : InFlightFacts) → slice_get cluster.facts.processes member.id.number ≡ Some process → standing_of cluster member ≡ Some o → IsLeading o
        → in_flight cluster.facts.flight number ≡ Some carried → carried.message.to ≡ ends.Member member
        → (waited : PendingQuestion) (settling : Settling) (key : Key) (there : Expected) → heard_from cluster carried ≡ Some (heard.Mismatch waited.sequence key there) → o.knows.operating ≡ None → o.knows.waited ≡ Some waited
        → waited.question ≡ Syncing settling → HasSettled member o.knows.settings o (cluster_after cluster (Message (Delivered number))) (cluster_over cluster (hear_events cluster number carried member)) }
    // Whatever other members ask, it answers alone.
    ensures answers { (member : Member) (cluster : Cluster) (process : AgentProcess) (o : Outcome) (number : ℕ) (carried : InFlightFacts) → NumbersRise cluster → slice_get cluster.facts.processes member.id.number ≡ Some process → standing_of cluster member ≡ Some o → IsLeading o
        → in_flight cluster.facts.flight number ≡ Some carried → carried.message.to ≡ ends.Member member
        → (from : MemberId) (incarnation sequence : ℕ) → heard_from cluster carried ≡ Some (heard.Asked from incarnation sequence)
        → AnswersOnly member o (cluster_after cluster (Message (Delivered number))) (cluster_over cluster (hear_events cluster number carried member)) }
    ensures refuses { (member : Member) (cluster : Cluster) (process : AgentProcess) (o : Outcome) (number : ℕ) (carried : InFlightFacts) → NumbersRise cluster → slice_get cluster.facts.processes member.id.number ≡ Some process → standing_of cluster member ≡ Some o → IsLeading o
        → in_flight cluster.facts.flight number ≡ Some carried → carried.message.to ≡ ends.Member member
        → (from : MemberId) (incarnation sequence : ℕ) (ttl : Ticks) → heard_from cluster carried ≡ Some (heard.FailsafeAsked from incarnation sequence ttl)
        → AnswersOnly member o (cluster_after cluster (Message (Delivered number))) (cluster_over cluster (hear_events cluster number carried member)) }
{}
