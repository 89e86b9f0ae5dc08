//! What may be relied on of each generated script: it is one, passes no limit, and is read again.
#![tactic(auto)]

mod laws;

pub use laws::{generated_is_a_script, generated_is_read, generated_is_within_limits};
