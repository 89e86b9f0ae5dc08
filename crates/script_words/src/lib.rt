//! The bytes of a script as lines, words and numbers, and what may be wrong with a line.
#![tactic(auto)]

mod fault;
mod lines;
mod numbers;
mod tokens;
mod words;

pub use fault::{Fault, both, fault_text};
pub use lines::{cut_line, first_at, is_skipped, is_text};
pub use numbers::number;
pub use tokens::is_token;
pub use words::cut_word;
