//! What the REST interface of an agent answers to a request, by what the agent shows; or what the agent is to do for it.
#![tactic(auto)]

mod answering;
mod answers;
mod decisions;
mod laws;
mod pages;
mod refusal;
mod replies;
mod status;

pub use answering::answer;
pub use answers::Answer;
pub use laws::{
    health_checks_without_a_body_tell_the_same, nothing_is_told_before_the_first_snapshot,
    requests_for_nothing_have_no_content, safe_methods_are_answered_at_once,
};
pub use refusal::{Refusal, refusal_reply};
pub use replies::{json_reply, text_reply};
pub use status::METHOD_NOT_ALLOWED;
