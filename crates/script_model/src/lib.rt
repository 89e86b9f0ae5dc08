//! The script of a run: its head, its lines and what they ask for, and how it is spelled.
#![tactic(auto)]

mod head;
mod keyword;
mod line;
mod line_bytes;
mod lines;
mod ranges;
mod request_words;
mod script;

pub use head::{DEFAULT_BASE, Head};
pub use keyword::Keyword;
pub use line::{Command, End, Line, SlowedCall};
pub use line_bytes::LineBytes;
pub use lines::Lines;
pub use ranges::{CommitSize, Delay};
pub use request_words::RequestWords;
pub use script::Script;
