//! What a failover key or a hold that a check gives comes to. Each is a function without a body whose contract is what is proved.
ghost use Rattle.std.specs.Prelude.{ℕ, ◌≡◌, List, Some, None, Ok, true, false, codes, IsSomeAnd};
ghost use Rattle.std.specs.Option.{option_copied};
ghost use Rattle.pat_base.specs.declared.member_id.MemberId.{MemberId};
ghost use Rattle.store_keys.specs.declared.value.FailoverKey.{FailoverKey};
ghost use Rattle.store_keys.specs.declared.value.SyncKey.{SyncKey};
ghost use Rattle.serde_json.specs.Data.{Data};
ghost use Rattle.cluster_view.specs.declared.view.AgentView.{AgentView};
ghost use Rattle.cluster_config.specs.ConfigReading.{json_of};
ghost use Rattle.cluster_view.specs.KeyValues.{config_in, failover_in, active_sync_in};
ghost use Rattle.cluster_view.specs.Naming.{is_standby, leads};
ghost use Rattle.cluster_view.specs.Snapshots.{SnapshotFacts, leader_in};
ghost use Rattle.operator_keys.specs.Bodies.{text_at};
ghost use Rattle.operator_keys.specs.Candidates.{anyone_may_take_over};
ghost use Rattle.operator_keys.specs.Checks.{switchover_of, failover_of};
ghost use Rattle.operator_keys.specs.FailsafeChecks.{failsafe_of};
ghost use Rattle.operator_keys.specs.Laws.{AsksForHold, MayFollow, IsCalled};
ghost use Rattle.store_keys.specs.declared.action.OperatorRequest.{OperatorRequest};

/// A switchover that passes its check names the leader, and as candidate, if it names one, another member that may take
/// over, and that is a standby where the synchronous mode is active. Without a candidate the cluster isn't paused, and
/// somebody may take over. Nothing of the kind is under way, and no other request waits.
pub fn what_a_switchover_names()
    ensures leader { (view : AgentView) (bytes : List ℕ) (key : FailoverKey) (seen : SnapshotFacts) → switchover_of view bytes ≡ Ok key → option_copied view.seen ≡ Some seen → IsSomeAnd key.leader (λ leader. leads leader (leader_in seen) ≡ true) }
    ensures candidate { (view : AgentView) (bytes : List ℕ) (key : FailoverKey) (seen : SnapshotFacts) (candidate : MemberId) → switchover_of view bytes ≡ Ok key → option_copied view.seen ≡ Some seen → key.candidate ≡ Some candidate → MayFollow candidate seen }
    ensures standby { (view : AgentView) (bytes : List ℕ) (key : FailoverKey) (seen : SnapshotFacts) (candidate : MemberId) (sync : SyncKey) → switchover_of view bytes ≡ Ok key → option_copied view.seen ≡ Some seen → key.candidate ≡ Some candidate → active_sync_in seen ≡ Some sync → is_standby candidate sync ≡ true }
    ensures anyone { (view : AgentView) (bytes : List ℕ) (key : FailoverKey) (seen : SnapshotFacts) → switchover_of view bytes ≡ Ok key → option_copied view.seen ≡ Some seen → key.candidate ≡ None → anyone_may_take_over seen ≡ true }
    ensures running { (view : AgentView) (bytes : List ℕ) (key : FailoverKey) (seen : SnapshotFacts) → switchover_of view bytes ≡ Ok key → option_copied view.seen ≡ Some seen → key.candidate ≡ None → (config_in seen).pause ≡ false }
    ensures alone { (view : AgentView) (bytes : List ℕ) (key : FailoverKey) (seen : SnapshotFacts) → switchover_of view bytes ≡ Ok key → option_copied view.seen ≡ Some seen → (failover_in seen ≡ None) × (view.waits ≡ false) }
{}

/// A failover that passes its check names no leader, and as candidate a member that may take over, whether or not anybody
/// leads. Nothing of the kind is under way, and no other request waits.
pub fn what_a_failover_names()
    ensures leader { (view : AgentView) (bytes : List ℕ) (key : FailoverKey) → failover_of view bytes ≡ Ok key → key.leader ≡ None }
    ensures candidate { (view : AgentView) (bytes : List ℕ) (key : FailoverKey) (seen : SnapshotFacts) → failover_of view bytes ≡ Ok key → option_copied view.seen ≡ Some seen → IsSomeAnd key.candidate (λ candidate. MayFollow candidate seen) }
    ensures alone { (view : AgentView) (bytes : List ℕ) (key : FailoverKey) (seen : SnapshotFacts) → failover_of view bytes ≡ Ok key → option_copied view.seen ≡ Some seen → (failover_in seen ≡ None) × (view.waits ≡ false) }
{}

/// Whom a key names as candidate has the name that the body of its request gives, and so has the leader that the key of a
/// switchover names.
pub fn keys_name_whom_bodies_name()
    ensures leader { (view : AgentView) (bytes : List ℕ) (body : Data) (key : FailoverKey) (seen : SnapshotFacts) (leader : MemberId) → switchover_of view bytes ≡ Ok key → json_of bytes ≡ Some body → option_copied view.seen ≡ Some seen → key.leader ≡ Some leader → (text : List ℕ) × (text_at (codes "leader") body ≡ Some text) × IsCalled leader text seen }
    ensures candidate { (view : AgentView) (bytes : List ℕ) (body : Data) (key : FailoverKey) (seen : SnapshotFacts) (candidate : MemberId) → switchover_of view bytes ≡ Ok key → json_of bytes ≡ Some body → option_copied view.seen ≡ Some seen → key.candidate ≡ Some candidate → (text : List ℕ) × (text_at (codes "candidate") body ≡ Some text) × IsCalled candidate text seen }
    ensures failover { (view : AgentView) (bytes : List ℕ) (body : Data) (key : FailoverKey) (seen : SnapshotFacts) (candidate : MemberId) → failover_of view bytes ≡ Ok key → json_of bytes ≡ Some body → option_copied view.seen ≡ Some seen → key.candidate ≡ Some candidate → (text : List ℕ) × (text_at (codes "candidate") body ≡ Some text) × IsCalled candidate text seen }
{}

/// What a failsafe request asks for that passes its check is a hold, by another member and for so many seconds as a lease may last; and
/// failsafe mode is on.
pub fn what_a_failsafe_request_asks()
    ensures { (view : AgentView) (bytes : List ℕ) (request : OperatorRequest) (seen : SnapshotFacts) → failsafe_of view bytes ≡ Ok request → option_copied view.seen ≡ Some seen → AsksForHold view.me seen request }
{}
