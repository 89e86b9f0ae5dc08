//! What steps bring, printed and noted: the lines of events and of the closing summary, each written in one piece.
#![tactic(auto)]

mod print_error;
mod printing;
mod serve_error;
mod showing;
mod watches;

pub use print_error::PrintError;
pub use printing::{print_closing, print_lines, set_text};
pub use serve_error::ServeError;
pub use showing::{note, note_ticks, show};
pub use watches::first_summary;
