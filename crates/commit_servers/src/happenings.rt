//! What happens at servers and logs of a cluster.
ghost use Rattle.std.specs.Prelude.{ℕ, ◌≡◌, ◌≤◌, ◌+◌, Bool, List, slice_get, Option, Some, true};
ghost use Rattle.pat_base.specs.declared.server_state.Required.{Required};
ghost use Rattle.pg_model.specs.Facts.{ServerFacts, has_data};
ghost use Rattle.pg_cluster.specs.Servers.{entry_for};
ghost use Rattle.event_book.specs.declared.event.EventKind.{EventKind};
ghost use Rattle.event_book.specs.declared.member.Member.{Member};
ghost use Rattle.event_book.specs.declared.reason.Reason.{Reason};
ghost use Rattle.event_book.specs.Facts.{Facts};
ghost use Rattle.event_book.specs.Links.{CutLinks};
ghost use Rattle.script_model.specs.declared.line.SlowedCall.{SlowedCall};
ghost use Rattle.script_model.specs.declared.ranges.Delay.{Delay};
ghost use Rattle.agent_model.specs.declared.output.Repair.{Repair};
ghost use Rattle.cluster_model.specs.Losing.{beginning_kinds};
ghost use Rattle.cluster_model.specs.Messages.{begin_events, repair_events, replica_start_events, server_restart_events, stop_events};
ghost use Rattle.cluster_model.specs.Next.{acknowledge_events, promote_events, receive_events_at_most, receive_events_of};
ghost use Rattle.cluster_model.specs.Orders.{repair_over, require_of, stop_of, wipe_of};
ghost use Rattle.cluster_model.specs.Parts.{events_of};
ghost use Rattle.cluster_model.specs.ServerCommands.{commit_of, crash_of, freezing_of, slow_of};
ghost use Rattle.cluster_model.specs.State.{Cluster};
ghost use Rattle.cluster_model.specs.Ticking.{completion_events, reset_events};
ghost use Rattle.commit_actions.specs.Past.{Setup, Past, VolatileState};
ghost use Rattle.commit_servers.specs.Matching.{IsSameServers, IsLiveAhead};
ghost use Rattle.commit_servers.specs.Sound.{AreServersSound, WaitsForMembers};
ghost use Rattle.commit_servers.specs.Happening.{MayHappen, MayFollow, LeavesSound, AllLeaveSound, AreInPlace};
ghost use Rattle.commit_servers.specs.Acting.{AreActions};

/// What a command brings at a server may happen: a commit of a client, a crash, a freeze or its end, and how long later starts and stops
/// take.
pub fn commands()
    ensures commit { (facts : Facts) (member : Member) (bytes : ℕ) → 1 ≤ bytes
        → MayHappen facts (commit_of member (entry_for facts.servers member.id.number (facts.commits + 1) bytes)) }
    ensures crash { (facts : Facts) (member : Member) (s : ServerFacts) (kind : EventKind) → crash_of member s ≡ Some kind → MayHappen facts kind }
    ensures freeze { (facts : Facts) (to frozen : Bool) (member : Member) (kind : EventKind) → freezing_of to member frozen ≡ Some kind → MayHappen facts kind }
    ensures slow { (facts : Facts) (member : Member) (slowed : SlowedCall) (delay : Delay) (s : ServerFacts) (kind : EventKind)
        → slow_of member slowed delay s ≡ Some kind → MayHappen facts kind }
{}

/// What is streamed may happen: a replica receives from its source, of whose log its own is a front, and confirms its log's end; or it finds
/// that the two have parted.
pub fn streams()
    ensures told { (cluster : Cluster) (most : ℕ) (member : Member) → AreInPlace cluster.facts.members → AreServersSound cluster.facts
        → MayFollow cluster.facts (receive_events_at_most cluster most member) }
    ensures each { (cluster : Cluster) (member : Member) → AreInPlace cluster.facts.members → AreServersSound cluster.facts
        → MayFollow cluster.facts (receive_events_of cluster member) }
{}

/// What acknowledges commits may happen, one after another: whom a commit waits for has confirmed its end.
pub fn acknowledgements()
    ensures { (cluster : Cluster) (member : Member) → MayFollow cluster.facts (acknowledge_events cluster member) }
{}

/// What repairs a log may happen: a rewind, and a copy; and so may a wipe.
pub fn repairs()
    ensures one { (facts : Facts) (cuts : CutLinks) (member leader : Member) (repair : Repair) (kind : EventKind)
        → repair_over cuts facts.servers member repair leader ≡ Some kind → MayHappen facts kind }
    ensures events { (cluster : Cluster) (member : Member) (repair : Repair) (leader : Option Member) → MayFollow cluster.facts (repair_events cluster member repair leader) }
    ensures wipe { (facts : Facts) (member : Member) (s : ServerFacts) (kind : EventKind)
        → slice_get facts.servers member.id.number ≡ Some s → wipe_of member s ≡ Some kind → MayHappen facts kind }
{}

/// What a tick brings at servers beside the clock may happen: resets, and the starts and stops of primaries that are complete.
pub fn ticks()
    ensures resets { (cluster : Cluster) (member : Member) → MayFollow cluster.facts (reset_events cluster member) }
    ensures completions { (cluster : Cluster) (member : Member) → MayFollow cluster.facts (completion_events cluster member) }
{}

/// A server with data begins by the order of its agent, behind the input that made it live: that is one allowed action, and that it lacks a
/// commit is none.
pub fn beginnings()
    ensures { (setup : Setup) (past : Past) (cluster : Cluster) (volatile_states : ℕ → VolatileState) (member : Member) (timeline : ℕ) (s : ServerFacts) (acknowledged : List ℕ)
        → IsSameServers past cluster.facts → AreServersSound cluster.facts
        → IsLiveAhead volatile_states cluster.facts.servers member.id.number
        → slice_get cluster.facts.servers member.id.number ≡ Some s → has_data s.state ≡ true
        → AreActions setup past cluster.facts volatile_states (events_of cluster (beginning_kinds member timeline acknowledged s.log)) }
{}

/// What orders bring at servers leaves them sound: of agents, and an operator's promotion.
pub fn orders_leave_sound()
    ensures begin { (cluster : Cluster) (member : Member) → AllLeaveSound cluster.facts (begin_events cluster member) }
    ensures stop { (cluster : Cluster) (member : Member) (reason : Reason) → AllLeaveSound cluster.facts (stop_events cluster member reason) }
    ensures shut_down { (facts : Facts) (member : Member) (s : ServerFacts) (kind : EventKind)
        → slice_get facts.servers member.id.number ≡ Some s → stop_of member s ≡ Some kind → LeavesSound facts kind }
    ensures start_replica { (cluster : Cluster) (member : Member) (leader : Option Member) → AllLeaveSound cluster.facts (replica_start_events cluster member leader) }
    ensures restart { (cluster : Cluster) (member : Member) → AllLeaveSound cluster.facts (server_restart_events cluster member) }
    ensures require { (facts : Facts) (members : List Member) (member : Member) (required : Required) (s : ServerFacts) (kind : EventKind)
        → WaitsForMembers required → require_of members member required s ≡ Some kind → LeavesSound facts kind }
    ensures promote { (cluster : Cluster) (member : Member) → AllLeaveSound cluster.facts (promote_events cluster member) }
{}
