//! Connections to the REST interface of one agent of a world: each is read, brought to the run as its next steps, and answered.
#![tactic(auto)]

mod asking;
mod replying;
mod serving;

pub use serving::{MOST_WAITING, serve_one};
