//! What bytes are a script, which faults others have, and which limits one may pass, by definition.
#![tactic(auto)]

mod addition;
mod limit;
mod script_fault;

pub use addition::Addition;
pub use limit::{Limit, limit_text};
pub use script_fault::ScriptFault;
