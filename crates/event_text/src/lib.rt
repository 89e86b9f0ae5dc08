//! The lines of a run: how each event is printed.
#![tactic(auto)]

mod listing;
mod named_line;
mod note_printing;
mod pieces;
mod printing;
mod server_printing;
mod store_printing;

pub use listing::listed;
pub use printing::write_line;
