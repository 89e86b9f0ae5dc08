//! What is asked of the REST interface of an agent, and what it replies, as values.
#![tactic(auto)]

mod reply;
mod request;
mod target;
mod verb;

pub use reply::Reply;
pub use request::Request;
pub use target::{lag_of, path_of};
pub use verb::Verb;
