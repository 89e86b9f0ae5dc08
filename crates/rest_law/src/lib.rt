//! What a load balancer may rest on that asks agents which of them is the primary.
#![tactic(auto)]

mod laws;

pub use laws::{one_member_is_found_as_primary, whoever_is_found_accepts_writes};
