//! Answers to requests.
use rest_message::Reply;
use store_keys::OperatorRequest;

/// What comes of a request.
#[derive(Drop)]
pub enum Answer {
    /// It is answered at once.
    Now(Reply),
    /// It passed its checks: the agent is to do this, and answers when that is done or has failed.
    Act(OperatorRequest),
}
