//! Decision tables over a word of facts: the first row that matches gives the answer.
#![tactic(auto)]

mod case;
mod laws;
mod macros;

pub use case::{Case, CaseTable};
pub use laws::the_first_match_answers;
