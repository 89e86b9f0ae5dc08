//! The status that no check of operators and no health check has (RFC 9110, "Status Codes").

/// The path is known, but not with this method.
pub const METHOD_NOT_ALLOWED: u16 = 405;
