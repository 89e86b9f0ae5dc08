//! What overlap and the race come to. Each is a function without a body whose contract is what is proved.
ghost use Rattle.std.specs.Prelude.{◌≡◌, ◌⊎◌, Bool, Contains, List, None, Some, false, true};
ghost use Rattle.pat_base.specs.declared.member_set.MemberSet.{MemberSet};
ghost use Rattle.pat_base.specs.declared.peer_answer.PeerAnswer.{PeerAnswer};
ghost use Rattle.store_keys.specs.declared.value.SyncKey.{SyncKey};
ghost use Rattle.cluster_view.specs.declared.view.AgentView.{AgentView};
ghost use Rattle.leader_race.specs.declared.racer.RaceKeys.{RaceKeys};
ghost use Rattle.leader_race.specs.Outcome.{racer_of};
ghost use Rattle.leader_race.specs.Peers.{counts};
ghost use Rattle.quorum_commit.specs.declared.quorums.Need.{Need};
ghost use Rattle.quorum_commit.specs.declared.quorums.Quorum.{Quorum};
ghost use Rattle.quorum_commit.specs.Laws.{Answers, EnoughHave, FewLack, IsLawfulPlan, Meet, Share, WinsAsStandby};
ghost use Rattle.quorum_commit.specs.Quorums.{may_publish, overlap};
ghost use Rattle.cluster_view.specs.declared.view.LeaderView.{LeaderView};
ghost use Rattle.cluster_view.specs.KeyValues.{sync_in};
ghost use Rattle.cluster_view.specs.Snapshots.{SnapshotFacts};
ghost use Rattle.quorum_commit.specs.Plans.{aim_of, quorum_plan_of};
ghost use Rattle.quorum_commit.specs.Race.{quorum_outcome_by};

/// Where a key's standbys and its leader's need overlap, whoever answers in a race that is won, and whoever confirms a
/// commit that is acknowledged, have a member in common.
pub fn quorums_meet()
    ensures { (key : Quorum) (need : Need) → overlap key need ≡ true → Meet key need }
{}

/// Where they overlap, and as many as commits wait for have a commit, at most so many standbys as the key's number lack
/// it; and of more standbys than that one has it.
pub fn few_standbys_lack_a_commit()
    ensures few { (key : Quorum) (need : Need) (having : MemberSet) → overlap key need ≡ true → EnoughHave need having → FewLack key having }
    ensures found { (key : Quorum) (having answering : MemberSet) → FewLack key having → Answers key answering → Share answering having }
{}

/// Where a quorum may be published in place of another of whose standbys few lack a commit, few of its own lack it:
/// whether its members are counted, or those that the leader's need wants have confirmed.
pub fn a_published_quorum_keeps_commits()
    ensures { (old new : Quorum) (need : Need) (confirmed : Bool) (having : MemberSet) → may_publish old new need confirmed ≡ true → FewLack old having → (confirmed ≡ true → EnoughHave need having) → FewLack new having }
{}

/// Whoever wins heard of no other server that accepts writes. By a sync key it is the leader that this names; or nobody
/// that it was compared with is ahead of it, and as many were compared as may lack an acknowledged commit.
pub fn who_wins_by_quorum()
    ensures no_writer { (view : AgentView) (keys : RaceKeys) (answers : List PeerAnswer) (answer : PeerAnswer) → quorum_outcome_by view keys answers ≡ None → Contains answers answer → counts view.me answer ≡ true → answer.writes ≡ false }
    ensures standby { (view : AgentView) (keys : RaceKeys) (sync : SyncKey) (answers : List PeerAnswer) → quorum_outcome_by view keys answers ≡ None → keys.sync ≡ Some sync → (sync.leader.number ≡ view.me.number) ⊎ WinsAsStandby (racer_of view keys) sync answers }
{}

/// By a sync key that is there, what a plan publishes may be published, and what it requires overlaps what is published.
pub fn plans_are_lawful()
    ensures { (view : LeaderView) (seen : SnapshotFacts) (sync : SyncKey) → sync_in seen ≡ Some sync → IsLawfulPlan (aim_of view seen sync) (quorum_plan_of view seen) }
{}
