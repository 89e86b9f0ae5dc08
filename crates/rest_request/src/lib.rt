//! Requests to the REST interface of an agent, as the bytes of a connection bring them.
#![tactic(auto)]

mod content_length;
mod fault;
mod laws;
mod limits;
mod method;
mod reading;

pub use fault::RequestFault;
pub use laws::{
    answers_stay, bad_heads_never_become_heads, bytes_are_one_thing,
    what_never_becomes_a_head_is_a_bad_head,
};
pub use limits::{BODY_LIMIT, HEAD_LIMIT};
pub use reading::read_request;
