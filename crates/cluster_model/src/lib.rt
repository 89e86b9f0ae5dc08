//! What happens in a cluster, by definition: the cluster at a moment, and the events of each step of a run.
#![tactic(auto)]

mod asker;
mod beginning;
mod delivery;
mod heard_message;
mod laws;
mod step;

pub use asker::Asker;
pub use beginning::{Beginning, Completion};
pub use delivery::Delivery;
pub use heard_message::HeardMessage;
pub use laws::other_concerns_change_nothing;
pub use step::{Step, Visit};
