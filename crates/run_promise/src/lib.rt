//! What any promise of every moment of a run needs. Its lemmas have that every run upholds what all parts of its steps do.
#![tactic(auto)]

mod laws;

pub use laws::members_stand_at_their_numbers;
