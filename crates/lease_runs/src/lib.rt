//! The law of one writer of every run: what happens in a cluster, by definition, meets the law of the timed lease.
#![tactic(auto)]

mod laws;

pub use laws::{
    runs_are_fenced, runs_guard_who_acts, runs_have_one_writer, runs_keep_failsafe_mode,
    runs_name_their_servers, runs_tell_measures,
};
