//! Laws of what happens.
ghost use Rattle.std.specs.Prelude.{ℕ, ◌≡◌, ◌≢◌, Bool, List, Option};
ghost use Rattle.pat_base.specs.declared.ticks.Ticks.{Ticks};
ghost use Rattle.lease_store.specs.Keys.{Keys};
ghost use Rattle.pg_model.specs.Facts.{ServerFacts};
ghost use Rattle.event_book.specs.declared.agent_process.AgentProcess.{AgentProcess};
ghost use Rattle.event_book.specs.declared.event.EventKind.{EventKind};
ghost use Rattle.event_book.specs.Acknowledged.{acknowledged_after, commits_after};
ghost use Rattle.event_book.specs.Processes.{processes_after};
ghost use Rattle.event_book.specs.Clock.{now_after};
ghost use Rattle.event_book.specs.Flight.{Flight, flight_after, sent_after};
ghost use Rattle.event_book.specs.Frozen.{frozen_after};
ghost use Rattle.event_book.specs.Keys.{keys_after};
ghost use Rattle.event_book.specs.Links.{CutLinks, cuts_after};
ghost use Rattle.event_book.specs.Servers.{remote_after, servers_after};
ghost use Rattle.event_book.specs.Watchdogs.{deadlines_after, holds_after};
ghost use Rattle.cluster_model.specs.Cluster.{agent_facts_after};
ghost use Rattle.cluster_model.specs.FailsafeDeadlines.{failsafe_deadlines_after};
ghost use Rattle.cluster_model.specs.State.{Cluster};
ghost use Rattle.cluster_model.specs.Concerns.{concern_of, Time, Messages, Store, Watchdogs, Servers, Logs, Replication, Agents, Links};

/// Each part of what a book determines is left as it was by events of other concerns.
pub fn other_concerns_change_nothing()
    ensures clock { (now : ℕ) (kind : EventKind) → concern_of kind ≢ Time → now_after now kind ≡ now }
    ensures store { (now : ℕ) (known : Keys) (kind : EventKind) → concern_of kind ≢ Time → concern_of kind ≢ Store → keys_after now known kind ≡ known }
    ensures processes { (states : List AgentProcess) (kind : EventKind) → concern_of kind ≢ Agents → concern_of kind ≢ Watchdogs → processes_after states kind ≡ states }
    ensures agents { (cluster : Cluster) (kind : EventKind) → concern_of kind ≢ Messages → concern_of kind ≢ Agents → concern_of kind ≢ Watchdogs → agent_facts_after cluster kind ≡ cluster.agents }
    ensures deadlines { (deadlines : List (Option Ticks)) (kind : EventKind) → concern_of kind ≢ Watchdogs → deadlines_after deadlines kind ≡ deadlines }
    ensures failsafe_deadlines { (before : List Bool) (kind : EventKind) → concern_of kind ≢ Watchdogs → failsafe_deadlines_after before kind ≡ before }
    ensures holds { (holds : List (Option Ticks)) (kind : EventKind) → concern_of kind ≢ Watchdogs → holds_after holds kind ≡ holds }
    ensures links { (cuts : CutLinks) (kind : EventKind) → concern_of kind ≢ Links → cuts_after cuts kind ≡ cuts }
    ensures messages { (now : ℕ) (known : Keys) (flight : Flight) (kind : EventKind) → concern_of kind ≢ Messages → flight_after now known flight kind ≡ flight }
    ensures numbers { (last : ℕ) (kind : EventKind) → concern_of kind ≢ Messages → sent_after last kind ≡ last }
    ensures servers { (now : ℕ) (known : List ServerFacts) (remote : Option ServerFacts) (kind : EventKind) → concern_of kind ≢ Time → concern_of kind ≢ Servers → concern_of kind ≢ Logs → concern_of kind ≢ Replication → concern_of kind ≢ Watchdogs → servers_after now known remote kind ≡ known }
    ensures remote { (remote : Option ServerFacts) (kind : EventKind) → concern_of kind ≢ Logs → remote_after remote kind ≡ remote }
    ensures frozen { (frozen : List Bool) (kind : EventKind) → concern_of kind ≢ Servers → frozen_after frozen kind ≡ frozen }
    ensures commits { (last : ℕ) (kind : EventKind) → concern_of kind ≢ Logs → commits_after last kind ≡ last }
    ensures acknowledged { (told : List ℕ) (kind : EventKind) → concern_of kind ≢ Replication → acknowledged_after told kind ≡ told }
{}
