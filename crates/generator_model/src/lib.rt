//! Scripts that nobody wrote, by definition: each is made of a number, and is the same each time.
#![tactic(auto)]

mod bounds;
mod drawn_kind;

pub use bounds::MOST_GENERATED;
pub use drawn_kind::DrawnKind;
