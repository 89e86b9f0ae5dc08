//! What the agent of a member is, and its decision table: the types that it deals in, and in `specs/` what it does on what it
//! hears, as definitions.
#![tactic(auto)]

mod answers;
mod heard;
mod inquiry;
mod knowledge;
mod machine;
mod operating;
mod output;
mod who;
mod why;

pub use answers::Answers;
pub use heard::Heard;
pub use inquiry::Inquiry;
pub use knowledge::{FailsafeRead, Knowledge, PendingQuestion, Question, Settling, SyncRead};
pub use machine::{Machine, Replication};
pub use operating::{Operating, Operation, Told};
pub use output::{Feeding, Noting, Outgoing, Output, Repair, ServerOrder, Target, Telling};
pub use who::Who;
pub use why::Why;
