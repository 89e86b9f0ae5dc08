//! Replies.

/// What is answered to a request.
#[derive(Drop)]
pub struct Reply {
    /// The status (RFC 9110, section 15).
    pub status: u16,
    /// Whether the content is JSON (RFC 8259), and not plain text.
    pub json: bool,
    /// The content, also where it isn't sent.
    pub body: String,
}
