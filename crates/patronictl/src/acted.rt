//! What comes of a command.
use pat_base::MemberId;
use rest_message::Request;

/// What comes of a command.
#[derive(Drop)]
pub enum Acted {
    /// These lines are printed, without line feeds.
    Lines(Vec<String>),
    /// The agent of this member is sent this request.
    Ask { member: MemberId, request: Request },
    /// The leader was to be asked, and there is none.
    NoLeader,
}
