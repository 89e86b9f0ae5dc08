//! What an agent answers operators: the words and the statuses.
#![tactic(auto)]

mod answer_text;
mod status;

pub use answer_text::Text;
pub use status::{
    BAD_GATEWAY, BAD_REQUEST, CONFLICT, INTERNAL_SERVER_ERROR, NOT_FOUND, OK, PRECONDITION_FAILED,
    SERVICE_UNAVAILABLE,
};
