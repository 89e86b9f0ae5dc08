//! Worked runs as their files have them, and texts compared line by line: what `worked_runs` needs beside the program that it runs.
#![tactic(auto)]

mod case;
mod connections;
mod difference;
mod faults;
mod repeats;

pub use case::{Case, Turn, case_of, text_or};
pub use connections::{bytes_of, connections_in, line_of};
pub use difference::{Difference, first_difference, lines_more};
pub use faults::failing;
