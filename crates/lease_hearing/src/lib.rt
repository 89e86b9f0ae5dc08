//! What an agent hears by a message that comes, as the law of the timed lease has it in flight; and that no request and no input changes failsafe
//! mode.
#![tactic(auto)]

mod laws;

pub use laws::{agents_see_the_mode, messages_are_heard_well, requests_keep_the_mode};
