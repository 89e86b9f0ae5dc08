//! Tables as text, as tools for operators print them: columns between bars, with rules above and below.
#![tactic(auto)]

mod alignment;
mod cells;
mod column;
mod cutting;
mod laws;
mod layout;
mod printing;
mod slot;
mod table;

pub use alignment::Alignment;
pub use cells::Cells;
pub use laws::{each_row_stands_once, lines_are_as_wide_as_the_rule};
pub use table::Table;
