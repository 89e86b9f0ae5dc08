//! Laws of servers, for readers of their definitions. Each is a function without a body whose contract is what is proved.
ghost use Rattle.std.specs.Prelude.{◌≡◌, ◌↔◌, ◌&&◌, ◌-◌, ℕ, true, false, IsTrue, IsSome, List, Option, Some, None, length, min};
ghost use Rattle.pat_base.specs.declared.lsn.Lsn.{Lsn};
ghost use Rattle.pat_base.specs.declared.server_state.Required.{Required};
ghost use Rattle.pat_base.specs.ServerState.{writes, live};
ghost use Rattle.wal_model.specs.declared.entry.Entry.{Entry};
ghost use Rattle.wal_model.specs.Log.{IsPrefixOf};
ghost use Rattle.pg_model.specs.declared.answers.Streamed.{Streamed};
ghost use Rattle.pg_model.specs.declared.answers.Streamed.TheVariants as streams;
ghost use Rattle.pat_base.specs.declared.server_id.ServerId.{ServerId};
ghost use Rattle.pat_base.specs.declared.ticks.Ticks.{Ticks};
ghost use Rattle.pg_model.specs.Facts.{ServerFacts, entries_of, is_replica, is_down, is_up, is_running};
ghost use Rattle.pg_model.specs.Rewinding.{common_log, rewound, cloned, rewound_to, may_clone, may_rewind};
ghost use Rattle.pg_model.specs.Running.{promoted, replica_started, primary_started, is_primary, stopping, wiped, restarted};
ghost use Rattle.pg_model.specs.Status.{status_of, status_promoted, status_replica_started, status_primary_started, status_stopping, status_wiped, status_restarted, status_following};
ghost use Rattle.pg_model.specs.Replication.{following, is_met, MeetsRequired, stream_of, streamed, news_of, after_streamed};

/// The end of a commit is confirmed by whom it waits for exactly where the test says so.
pub fn required_is_met()
    ensures { (required : Required) (end : Lsn) (confirmed : List (Option Lsn)) → IsTrue (is_met required end confirmed) ↔ MeetsRequired required end confirmed }
{}

/// The news of a replica are what streaming answers, and tell what it makes of the replica; where there are none, it
/// changes nothing.
pub fn news_are_streamed()
    ensures answer { (s upstream : ServerFacts) (most : ℕ) (news : Streamed) → news_of s upstream most ≡ Some news → stream_of s upstream most ≡ news }
    ensures told { (s upstream : ServerFacts) (most : ℕ) (news : Streamed) → news_of s upstream most ≡ Some news → streamed s upstream most ≡ after_streamed news s upstream }
    ensures none { (s upstream : ServerFacts) (most : ℕ) → IsSome s.log → news_of s upstream most ≡ None → streamed s upstream most ≡ s }
{}

/// What an agent sees of its server after an order that the server takes is what the order makes of what the agent saw before.
pub fn status_after_orders()
    ensures promote { (s : ServerFacts) → is_replica s.state ≡ true → status_of (promoted s) ≡ status_promoted (status_of s) }
    ensures start_replica { (now : Ticks) (upstream : Option ServerId) (s : ServerFacts) → is_down s.state ≡ true → status_of (replica_started now upstream s) ≡ status_replica_started now upstream (status_of s) }
    ensures start_primary { (now : Ticks) (s : ServerFacts) → is_down s.state && s.was_primary ≡ true → status_of (primary_started now s) ≡ status_primary_started now (status_of s) }
    ensures stop { (now : Ticks) (s : ServerFacts) → is_up s.state ≡ true → status_of (stopping now s) ≡ status_stopping now (status_of s) }
    ensures wipe { (s : ServerFacts) → live s.state ≡ false → status_of (wiped s) ≡ status_wiped (status_of s) }
    ensures restart { (now : Ticks) (s : ServerFacts) → is_running s.state ≡ true → status_of (restarted now s) ≡ status_restarted now (status_of s) }
    ensures follow { (upstream : ServerId) (s : ServerFacts) → is_replica s.state ≡ true → status_of (following upstream s) ≡ status_following upstream (status_of s) }
{}

/// A restart is no promotion: a server keeps its log, its timeline with its history and whose confirmation its commits wait
/// for, and is or will be a primary exactly where it was one.
pub fn a_restart_is_no_promotion()
    ensures log { (now : Ticks) (s : ServerFacts) → (restarted now s).log ≡ s.log }
    ensures timeline { (now : Ticks) (s : ServerFacts) → (restarted now s).timeline ≡ s.timeline }
    ensures history { (now : Ticks) (s : ServerFacts) → (restarted now s).history ≡ s.history }
    ensures required { (now : Ticks) (s : ServerFacts) → (restarted now s).required ≡ s.required }
    ensures role { (now : Ticks) (s : ServerFacts) → is_running s.state ≡ true → live (restarted now s).state ≡ is_primary s.state }
{}

/// A wiped server waits for a copy, as it did where it was wiped before: it may be cloned from each server that accepts
/// writes, and is rewound to none.
pub fn a_wiped_server_waits_for_a_copy()
    ensures again { (s : ServerFacts) → wiped (wiped s) ≡ wiped s }
    ensures clone { (s source : ServerFacts) → may_clone (wiped s) source ≡ writes source.state }
    ensures rewind { (s source : ServerFacts) → may_rewind (wiped s) source ≡ false }
{}

/// A rewound server keeps what its log and the source's have in common: its log is a prefix of both, and each log that is a
/// prefix of both is one of it.
pub fn a_rewind_keeps_the_common_log()
    ensures own { (s source : ServerFacts) → IsPrefixOf (entries_of (rewound s source).log) (entries_of s.log) }
    ensures theirs { (s source : ServerFacts) → IsPrefixOf (entries_of (rewound s source).log) (entries_of source.log) }
    ensures longest { (s source : ServerFacts) (log : List Entry) → IsPrefixOf log (entries_of s.log) → IsPrefixOf log (entries_of source.log) → IsPrefixOf log (entries_of (rewound s source).log) }
    // Told how many entries it keeps, one knows what it is.
    ensures told { (s source : ServerFacts) → rewound_to (length (common_log s source)) s source ≡ rewound s source }
    // It receives what is left of the source's log.
    ensures streams { (s source : ServerFacts) (most : ℕ) → IsTrue (writes source.state) → stream_of (rewound s source) source most ≡ streams.Received (min most (length (entries_of source.log) - length (common_log s source))) }
{}

/// A cloned server has the source's log, and nothing of that is left to receive.
pub fn a_clone_has_the_whole_log()
    ensures log { (s source : ServerFacts) → (cloned s source).log ≡ source.log }
    ensures streams { (s source : ServerFacts) (most : ℕ) → IsTrue (writes source.state) → stream_of (cloned s source) source most ≡ streams.Received 0 }
{}
