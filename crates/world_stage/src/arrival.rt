//! Where messages come.
use cluster_model::HeardMessage;
use event_book::{Member, Message};
use pat_base::Shared;

/// Where a message came that was in flight.
#[derive(Drop)]
pub enum Arrival {
    /// To the key store, which is to answer it.
    AtStore(Shared<Message>),
    /// To the agent of this member, which acted on it as on this message.
    AtAgent(Member, HeardMessage),
}
