//! The statuses of answers to operators (RFC 9110, "Status Codes").

/// The request was carried out.
pub const OK: u16 = 200;
/// The request can't be carried out as it was sent.
pub const BAD_REQUEST: u16 = 400;
/// What the request is for isn't there.
pub const NOT_FOUND: u16 = 404;
/// What the request expects isn't so any more.
pub const CONFLICT: u16 = 409;
/// The request doesn't fit the cluster as it is.
pub const PRECONDITION_FAILED: u16 = 412;
/// The member may not do what the request asks.
pub const INTERNAL_SERVER_ERROR: u16 = 500;
/// Failsafe mode is off, so there is nobody to tell of and nothing to ask for (Patroni documentation, "DCS Failsafe Mode").
pub const BAD_GATEWAY: u16 = 502;
/// The request can't be carried out now.
pub const SERVICE_UNAVAILABLE: u16 = 503;
