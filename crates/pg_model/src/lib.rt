//! PostgreSQL servers: how they start, stop, are promoted, stream and acknowledge commits, one by one.
#![tactic(auto)]

mod answers;
mod laws;
mod server;
mod status;
mod waiting;

pub use answers::{CommitFault, InState, PgFault, StreamFault, Streamed};
pub use laws::{
    a_clone_has_the_whole_log, a_restart_is_no_promotion, a_rewind_keeps_the_common_log,
    a_wiped_server_waits_for_a_copy, news_are_streamed, required_is_met, status_after_orders,
};
pub use server::{CaughtUp, Server, is_rewindable};
pub use status::ServerStatus;
pub use waiting::Waiting;
