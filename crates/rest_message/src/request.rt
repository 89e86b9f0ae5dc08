//! Requests.
use crate::Verb;

/// A whole request.
#[derive(Drop)]
pub struct Request {
    /// What is to be done.
    pub method: Verb,
    /// With what: the target as it was sent, with its query (RFC 9112, section 3.2).
    pub target: String,
    /// The content, as many bytes as `Content-Length` says (RFC 9110, section 6.4).
    pub body: Vec<u8>,
}
