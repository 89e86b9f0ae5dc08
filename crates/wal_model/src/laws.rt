//! Laws of logs, for readers of their definitions. Each is a function without a body whose contract is what is proved.
ghost use Rattle.std.specs.Prelude.{ℕ, ◌≡◌, ◌↔◌, true, IsTrue, List, Contains};
ghost use Rattle.wal_model.specs.declared.entry.Entry.{Entry};
ghost use Rattle.wal_model.specs.Lacking.{HasEntryWith, has_serial, lacks_in};
ghost use Rattle.wal_model.specs.Log.{IsPrefixOf, is_prefix, common_of};

/// The common part of two logs is a prefix of both.
pub fn common_is_prefix()
    ensures first { (x y : List Entry) → IsPrefixOf (common_of x y) x }
    ensures second { (x y : List Entry) → IsPrefixOf (common_of x y) y }
{}

/// Each prefix of both logs is a prefix of their common part.
pub fn common_is_longest()
    ensures { (z x y : List Entry) → IsPrefixOf z x → IsPrefixOf z y → IsPrefixOf z (common_of x y) }
{}

/// A log is a prefix of another exactly where the test says so, and exactly where their common part is the log itself.
pub fn prefix_is_common()
    ensures test { (x y : List Entry) → IsTrue (is_prefix x y) ↔ IsPrefixOf x y }
    ensures common { (x y : List Entry) → IsPrefixOf x y ↔ (common_of x y ≡ x) }
{}

/// A commit is looked up by its serial: a log has it that has an entry of that serial, and lacks some that has no entry of one.
pub fn commits_are_looked_up()
    ensures has { (log : List Entry) (serial : ℕ) → has_serial log serial ≡ true ↔ HasEntryWith log serial }
    ensures lacks { (log : List Entry) (serials : List ℕ) → lacks_in log serials ≡ true ↔ ((serial : ℕ) × Contains serials serial × (HasEntryWith log serial → ⊥)) }
{}
