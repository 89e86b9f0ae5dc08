//! One request read from the present connection of a door, and one reply written to it.
#![tactic(auto)]

mod asking;
mod laws;
mod replying;

pub use asking::{AskError, read_request_from};
pub use laws::cuts_change_nothing;
pub use replying::{ReplyError, write_reply_to};
