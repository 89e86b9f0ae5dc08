//! What is drawn of a printed run: its lines, read.
#![tactic(auto)]

mod answer;
mod forms;
mod happening;
mod run;
mod sight;
mod told;

pub use answer::{Answer, Answered};
pub use happening::Happening;
pub use run::{LONGEST_STRETCH, MOST_ANSWERS, MOST_LANES, Run, offset_after, read_run};
pub use sight::{AnswerLine, MOST_OFFSET, Sight};
pub use told::Told;
