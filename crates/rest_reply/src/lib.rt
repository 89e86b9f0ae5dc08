//! Replies of the REST interface of an agent, as bytes.
#![tactic(auto)]

mod laws;
mod printing;

pub use laws::replies_tell_their_length;
pub use printing::print_reply;
