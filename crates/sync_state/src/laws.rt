//! What the plan comes to. Each is a function without a body whose contract is what is proved.
ghost use Rattle.std.specs.Prelude.{ℕ, ◌≡◌, ◌≢◌, ◌≤◌, true, false, Some, None, IsSome, count_ones, slice_index_or};
ghost use Rattle.std.specs.Int.{bit_at};
ghost use Rattle.std.specs.declared.cmp.Ordering.TheVariants.{Less};
ghost use Rattle.pat_base.specs.declared.member_id.MemberId.{MemberId};
ghost use Rattle.pat_base.specs.declared.member_set.MemberSet.{MemberSet};
ghost use Rattle.store_keys.specs.declared.value.SyncKey.{SyncKey};
ghost use Rattle.cluster_view.specs.declared.view.LeaderView.{LeaderView};
ghost use Rattle.cluster_view.specs.KeyValues.{config_in, sync_in};
ghost use Rattle.cluster_view.specs.Snapshots.{SnapshotFacts};
ghost use Rattle.sync_state.specs.declared.candidates.Candidate.{Candidate};
ghost use Rattle.sync_state.specs.declared.steps.Plan.TheVariants as plans;
ghost use Rattle.sync_state.specs.Candidates.{may_sync, candidate_in, candidate_cmp, wanted_in};
ghost use Rattle.sync_state.specs.Laws.{IsWithin, IsBoth, IsEither, published_after, required_after, changes_standbys, LeadsInSync, HaveOwnNames};
ghost use Rattle.sync_state.specs.Plans.{plan_of};
ghost use Rattle.sync_state.specs.Published.{published_in};
ghost use Rattle.sync_state.specs.Standbys.{required_members, has_confirmed};

/// Whoever is published is wanted, and required already; it is connected, has a member key without `nosync`, and has
/// confirmed the noted position.
pub fn who_is_published()
    ensures wanted { (view : LeaderView) (seen : SnapshotFacts) (standbys : MemberSet) → plan_of view seen ≡ plans.Publish standbys → standbys ≡ wanted_in view seen }
    ensures required { (view : LeaderView) (seen : SnapshotFacts) (standbys : MemberSet) → plan_of view seen ≡ plans.Publish standbys → IsWithin standbys (required_members view.required) }
    ensures connected { (view : LeaderView) (seen : SnapshotFacts) (standbys : MemberSet) (k : ℕ) → plan_of view seen ≡ plans.Publish standbys → bit_at standbys.bits k ≡ 1 → IsSome (slice_index_or view.confirmed_positions k None) }
    ensures confirmed { (view : LeaderView) (seen : SnapshotFacts) (standbys : MemberSet) (k : ℕ) → plan_of view seen ≡ plans.Publish standbys → bit_at standbys.bits k ≡ 1 → has_confirmed view.noted (slice_index_or view.confirmed_positions k None) ≡ true }
    ensures tags { (view : LeaderView) (seen : SnapshotFacts) (standbys : MemberSet) (member : MemberId) → plan_of view seen ≡ plans.Publish standbys → bit_at standbys.bits member.number ≡ 1 → may_sync member seen ≡ true }
{}

/// A withdrawal leaves those of the published who are wanted. To the list of those that commits wait for, the wanted are
/// added; who is dropped from it is neither published nor wanted.
pub fn what_a_step_changes()
    ensures withdrawn { (view : LeaderView) (seen : SnapshotFacts) (standbys : MemberSet) → plan_of view seen ≡ plans.Withdraw standbys → IsBoth (published_in seen) (wanted_in view seen) standbys }
    ensures added { (view : LeaderView) (seen : SnapshotFacts) (members : MemberSet) → plan_of view seen ≡ plans.AddRequired members → IsEither (required_members view.required) (wanted_in view seen) members }
    ensures dropped { (view : LeaderView) (seen : SnapshotFacts) (members : MemberSet) → plan_of view seen ≡ plans.DropRequired members → IsEither (published_in seen) (wanted_in view seen) members }
    ensures wanted { (view : LeaderView) (seen : SnapshotFacts) (members : MemberSet) → plan_of view seen ≡ plans.DropRequired members → IsWithin (wanted_in view seen) (required_members view.required) }
{}

/// Where commits wait for each published standby, they do so through each step: those that the sync key names behind it are
/// among those that commits wait for before it, and behind it.
pub fn published_standbys_stay_required()
    ensures before { (view : LeaderView) (seen : SnapshotFacts) → IsWithin (published_in seen) (required_members view.required) → IsWithin (published_after (plan_of view seen) (published_in seen)) (required_members view.required) }
    ensures after { (view : LeaderView) (seen : SnapshotFacts) → IsWithin (published_in seen) (required_members view.required) → IsWithin (published_after (plan_of view seen) (published_in seen)) (required_after (plan_of view seen) (required_members view.required)) }
    ensures dropped { (view : LeaderView) (seen : SnapshotFacts) (members : MemberSet) → IsWithin (published_in seen) (required_members view.required) → plan_of view seen ≡ plans.DropRequired members → IsWithin members (required_members view.required) }
{}

/// At most as many members are wanted as the configuration says, where each has a name of its own, and each is a candidate.
/// Whoever comes before one that is wanted is wanted too; so no published candidate is left out for one that isn't.
pub fn who_is_wanted()
    ensures most { (view : LeaderView) (seen : SnapshotFacts) → HaveOwnNames seen → count_ones (wanted_in view seen).bits ≤ (config_in seen).synchronous_node_count }
    ensures candidates { (view : LeaderView) (seen : SnapshotFacts) (member : MemberId) → bit_at (wanted_in view seen).bits member.number ≡ 1 → IsSome (candidate_in view seen member) }
    ensures first { (view : LeaderView) (seen : SnapshotFacts) (member other : MemberId) (candidate rival : Candidate) → candidate_in view seen member ≡ Some candidate → candidate_in view seen other ≡ Some rival → candidate_cmp candidate rival ≡ Less → bit_at (wanted_in view seen).bits other.number ≡ 1 → bit_at (wanted_in view seen).bits member.number ≡ 1 }
    ensures published { (view : LeaderView) (seen : SnapshotFacts) (member other : MemberId) → IsSome (candidate_in view seen member) → bit_at (published_in seen).bits member.number ≡ 1 → bit_at (published_in seen).bits other.number ≡ 0 → bit_at (wanted_in view seen).bits other.number ≡ 1 → bit_at (wanted_in view seen).bits member.number ≡ 1 }
{}

/// The sync key is removed only where the synchronous mode is off and the key is there. It is made to name the leader only
/// where the mode is on, and it names another leader if it is there. Each other change is planned only where the mode is on
/// and the key names the leader.
pub fn when_the_key_is_marked_or_removed()
    ensures off { (view : LeaderView) (seen : SnapshotFacts) → plan_of view seen ≡ plans.SwitchOff → (config_in seen).synchronous_mode ≡ false }
    ensures there { (view : LeaderView) (seen : SnapshotFacts) → plan_of view seen ≡ plans.SwitchOff → IsSome (sync_in seen) }
    ensures on { (view : LeaderView) (seen : SnapshotFacts) → plan_of view seen ≡ plans.Mark → (config_in seen).synchronous_mode ≡ true }
    ensures other { (view : LeaderView) (seen : SnapshotFacts) (sync : SyncKey) → plan_of view seen ≡ plans.Mark → sync_in seen ≡ Some sync → sync.leader.number ≢ view.view.me.number }
    ensures leads { (view : LeaderView) (seen : SnapshotFacts) → changes_standbys (plan_of view seen) ≡ true → LeadsInSync view seen }
{}
