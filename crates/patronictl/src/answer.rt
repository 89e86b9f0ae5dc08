//! What the words of a command come to.
use pat_base::MemberId;
use rest_message::Request;

/// What the words of a command come to.
#[derive(Drop)]
pub enum CtlAnswer {
    /// These lines are printed, without line feeds.
    Prints(Vec<String>),
    /// The agent of this member is sent this request.
    Asks { member: MemberId, request: Request },
}
