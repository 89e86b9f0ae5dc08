//! The one way to read scripts: what bytes are a script, which faults others have, and what a script has at most.
#![tactic(auto)]

mod arguments;
mod config_line;
mod ctl_line;
mod draft;
mod first_words;
mod head_lines;
mod limits;
mod members;
mod reader;
mod rest_line;
mod script_lines;

pub use limits::limit_passed;
pub use reader::read;
pub use script_lines::ScriptLines;
