//! Runs with connections behind a script: each is served, and what it brings is played and printed.
#![tactic(auto)]

mod serving;

pub use pat_serve::MOST_WAITING;
pub use run_printing::ServeError;
pub use serving::{Service, serve};
