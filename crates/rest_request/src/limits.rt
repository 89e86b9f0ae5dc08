//! How long a request may be.

/// Within how many bytes the head of a request has to end, with the empty line that ends it.
pub const HEAD_LIMIT: usize = 16_384;

/// The most bytes that the content of a request may have.
pub const BODY_LIMIT: usize = 65_536;

/// The fewest bytes of a field line: a name of one byte, a colon and a line feed.
pub(crate) const LEAST_FIELD: usize = 3;
