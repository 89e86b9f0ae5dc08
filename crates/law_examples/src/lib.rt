//! Each condition of the laws of one writer and of kept commits can be met: runs that meet them all.
#![tactic(auto)]

mod laws;

pub use laws::{a_server_can_write, commits_can_be_kept};
