//! What the words behind a command say.
use crate::{Setting, ValueOption};
use pat_base::MemberId;

/// Where the next word stands.
#[derive(Clone, Copy)]
pub enum Place {
    /// Before the first option.
    Names,
    /// Behind an option, and not as its value.
    Options,
    /// As the value of this option.
    Value(ValueOption),
}

/// What the words behind a command said so far, with `None` or `false` for what none of them said.
#[derive(Clone, Copy)]
pub struct Said<'a> {
    /// Whether the cluster is named.
    pub cluster: bool,
    /// The member that is named without an option.
    pub member: Option<MemberId>,
    pub leader: Option<MemberId>,
    pub candidate: Option<MemberId>,
    pub setting: Option<Setting<'a>>,
    pub force: bool,
    /// Where the next word stands.
    pub place: Place,
}
