//! The command line: what its words ask for, and what a command does without a run.
//!
//! Scripts are read within the limits, drawn and printed, members found by their names; and how a command ends is told, by a status and a line.
#![tactic(auto)]

mod drawing;
mod ending;
mod members;
mod order;
mod printing;
mod reading;
mod reporting;
mod status;

pub use drawing::drawn_script;
pub use ending::Ending;
pub use members::member_named;
pub use order::Order;
pub use printing::print_script;
pub use reading::script_from;
pub use reporting::report;
pub use status::Status;
