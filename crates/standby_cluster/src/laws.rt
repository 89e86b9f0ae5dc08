//! Laws of the remote primary, for readers of its definitions. Each is a function without a body whose contract is what
//! is proved. A log is behind it that is a beginning of its log.
ghost use Rattle.std.specs.Prelude.{ℕ, List};
ghost use Rattle.wal_model.specs.declared.entry.Entry.{Entry};
ghost use Rattle.wal_model.specs.Log.{IsPrefixOf};
ghost use Rattle.pg_model.specs.Facts.{ServerFacts, entries_of};
ghost use Rattle.pg_model.specs.Replication.{streamed};
ghost use Rattle.pg_model.specs.Rewinding.{cloned};
ghost use Rattle.standby_cluster.specs.Remote.{supplied};

/// A replica whose log is behind still has such a log once it has received, however much.
pub fn who_pulls_stays_behind()
    ensures { (s remote : ServerFacts) (most : ℕ) → IsPrefixOf (entries_of s.log) (entries_of remote.log) → IsPrefixOf (entries_of (streamed s remote most).log) (entries_of remote.log) }
{}

/// What a client of the other cluster commits stands at the end: each log that was behind still is.
pub fn supplies_leave_all_behind()
    ensures { (remote : ServerFacts) (serial bytes : ℕ) (log : List Entry) → IsPrefixOf log (entries_of remote.log) → IsPrefixOf log (entries_of (supplied serial bytes remote).log) }
{}

/// A server that becomes a copy of the remote primary is behind, whatever log it had.
pub fn a_copy_is_behind()
    ensures { (s remote : ServerFacts) → IsPrefixOf (entries_of (cloned s remote).log) (entries_of remote.log) }
{}
