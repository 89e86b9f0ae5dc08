//! Whose agent it is.

use pat_base::{Host, MemberId, Name, Tags};

/// Whose agent it is: its member's number, how many members there are, the names of the cluster and of the member, where the
/// member is reached, and its tags.
#[derive(Clone, Copy, PartialEq, Eq)]
pub struct Who {
    pub me: MemberId,
    pub members: u8,
    pub scope: Name,
    pub name: Name,
    pub host: Host,
    pub tags: Tags,
}
