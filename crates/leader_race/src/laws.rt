//! What the rules of the race come to. Each is a function without a body whose contract is what is proved.
ghost use Rattle.std.specs.Prelude.{◌≡◌, ◌≤◌, Bool, List, ◌∷◌, ◌++◌, Option, Some, None, true, false, IsSome, Contains, int_lt};
ghost use Rattle.pat_base.specs.declared.member_id.MemberId.{MemberId};
ghost use Rattle.pat_base.specs.declared.server_state.State.TheVariants as states;
ghost use Rattle.store_keys.specs.declared.value.SyncKey.{SyncKey};
ghost use Rattle.pat_base.specs.declared.peer_answer.PeerAnswer.{PeerAnswer};
ghost use Rattle.cluster_view.specs.declared.view.AgentView.{AgentView};
ghost use Rattle.cluster_view.specs.KeyValues.{failover_in, active_sync_in};
ghost use Rattle.cluster_view.specs.Naming.{is_candidate, is_failover_to, is_named};
ghost use Rattle.cluster_view.specs.Snapshots.{SnapshotFacts};
ghost use Rattle.leader_race.specs.Eligibility.{may_fail_over, holding, eligibility_of};
ghost use Rattle.leader_race.specs.declared.racer.RaceKeys.{RaceKeys};
ghost use Rattle.leader_race.specs.Outcome.{racer_of, outcome_by, ComparesWith};
ghost use Rattle.leader_race.specs.Peers.{counts, is_compared, is_below, is_level, first_of};

/// Whoever may race runs as a replica, may fail over and holds nothing; and where the synchronous mode is active, the sync
/// key names it, or a failover does that names no leader.
pub fn who_may_race()
    ensures replica { (view : AgentView) (seen : SnapshotFacts) → eligibility_of view seen ≡ None → view.state ≡ states.Replica }
    ensures tags { (view : AgentView) (seen : SnapshotFacts) → eligibility_of view seen ≡ None → may_fail_over view.tags ≡ true }
    ensures hold { (view : AgentView) (seen : SnapshotFacts) → eligibility_of view seen ≡ None → holding view.moment view.hold ≡ None }
    ensures sync { (view : AgentView) (seen : SnapshotFacts) (sync : SyncKey) → eligibility_of view seen ≡ None → active_sync_in seen ≡ Some sync → is_failover_to view.me (failover_in seen) ≡ false → is_named view.me sync ≡ true }
{}

/// Whoever wins, by whatever keys it is judged, heard of no other server that accepts writes; and unless a failover names it
/// as candidate, nobody that it was compared with is ahead of it, or ends where it does with a higher priority.
pub fn who_wins()
    ensures no_writer { (view : AgentView) (keys : RaceKeys) (answers : List PeerAnswer) (answer : PeerAnswer) → outcome_by view keys answers ≡ None → Contains answers answer → counts view.me answer ≡ true → answer.writes ≡ false }
    ensures not_behind { (view : AgentView) (keys : RaceKeys) (answers : List PeerAnswer) (answer : PeerAnswer) → outcome_by view keys answers ≡ None → is_candidate view.me keys.failover ≡ false → Contains answers answer → is_compared (racer_of view keys) answer ≡ true → is_below view.end answer.end ≡ false }
    ensures preferred { (view : AgentView) (keys : RaceKeys) (answers : List PeerAnswer) (answer : PeerAnswer) → outcome_by view keys answers ≡ None → is_candidate view.me keys.failover ≡ false → Contains answers answer → is_compared (racer_of view keys) answer ≡ true → is_level view.end answer.end ≡ true → int_lt view.tags.failover_priority answer.tags.failover_priority ≡ false }
{}

/// What an answer of its own says changes nothing for a member, wherever it stands among the answers.
pub fn own_answers_never_count()
    ensures { (view : AgentView) (keys : RaceKeys) (before : List PeerAnswer) (answer : PeerAnswer) (after : List PeerAnswer) → answer.member.number ≡ view.me.number → outcome_by view keys (before ++ answer ∷ after) ≡ outcome_by view keys (before ++ after) }
{}

/// Of the members that bar by one rule, the one is named that the script declares first, in whatever order the answers came.
pub fn the_first_declared_bars()
    ensures { (passes : PeerAnswer → Bool) (answers : List PeerAnswer) (answer : PeerAnswer) (member : MemberId) → first_of passes answers ≡ Some member → Contains answers answer → passes answer ≡ true → member.number ≤ answer.member.number }
{}

/// Of two members that each were compared with the other, by what that one told truly, both win only where their logs end
/// at one position, or neither has a log; and with logs only where their priorities are equal too. So whoever has less of
/// the log doesn't win against one that it heard of.
pub fn two_that_compare_do_not_both_win()
    ensures end { (a b : AgentView) (read_by_a read_by_b : RaceKeys) (heard_by_a heard_by_b : List PeerAnswer) → ComparesWith a read_by_a heard_by_a b → ComparesWith b read_by_b heard_by_b a → outcome_by a read_by_a heard_by_a ≡ None → outcome_by b read_by_b heard_by_b ≡ None → a.end ≡ b.end }
    ensures priority { (a b : AgentView) (read_by_a read_by_b : RaceKeys) (heard_by_a heard_by_b : List PeerAnswer) → ComparesWith a read_by_a heard_by_a b → ComparesWith b read_by_b heard_by_b a → outcome_by a read_by_a heard_by_a ≡ None → outcome_by b read_by_b heard_by_b ≡ None → IsSome a.end → a.tags.failover_priority ≡ b.tags.failover_priority }
{}
