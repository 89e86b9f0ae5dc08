//! Why an agent ends its server.

/// Why an agent ends its server: so that another member leads, or because it lost the leader key.
#[derive(Clone, Copy, PartialEq, Eq)]
pub enum Why {
    HandOver,
    Lost,
}
