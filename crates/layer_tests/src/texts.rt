//! What is printed of faults and answers, where no clause and no worked call says it.
use crate::checks::has_words;
use cluster_config::ConfigFault;
use lease_store::StoreRefusal;
use operator_answers::Text;
use operator_keys::CheckFault;
use pat_base::{NotLsn, NotSize, State};
use pat_outside::ReadError;
use pg_model::{CommitFault, InState, PgFault};
use script_grammar::ScriptFault;
use script_words::Fault;
use store_keys::{Expected, Key};
use wal_model::WalFault;

#[test]
fn texts_of_low_layers(rt: HostRuntime) {
    let alloc = rt.alloc();
    has_words(&rt, alloc, &WalFault::Full, "the log is full");
    let in_state = InState(State::Primary);
    has_words(&rt, alloc, &in_state, "the server is in another state");
    let not_primary = CommitFault::NotPrimary;
    has_words(&rt, alloc, &not_primary, "the server is no primary");
    has_words(&rt, alloc, &PgFault::NotPrimary, "the source is no primary");
    has_words(&rt, alloc, &ReadError::Fault, "read fault");
    has_words(&rt, alloc, &NotLsn, "not a log position");
    has_words(&rt, alloc, &NotSize, "not a size");
}

#[test]
fn texts_of_requests_and_scripts(rt: HostRuntime) {
    let alloc = rt.alloc();
    has_words(&rt, alloc, &ConfigFault::NotJson, "NotJson");
    has_words(&rt, alloc, &ConfigFault::Memory, "Memory");
    has_words(&rt, alloc, &CheckFault::Memory, "out of memory");
    has_words(&rt, alloc, &StoreRefusal::Memory, "out of memory");
    let (key, found) = (Key::Leader, Expected::Absent);
    let mismatch = StoreRefusal::Mismatch { key, found };
    has_words(&rt, alloc, &mismatch, "a key is not as expected");
    has_words(&rt, alloc, &Text::Accepted, "Accepted");
    let (line, fault) = (7, Fault::BadWord);
    let at = ScriptFault::At { line, fault };
    has_words(&rt, alloc, &at, "line 7: unknown line");
}
