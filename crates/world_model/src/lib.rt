//! What the code of the world needs to know of its model beside the events of a step: which happenings may come, what a part of a
//! step owes, how far a cluster may go, and which steps bring nothing but their ticks.
#![tactic(auto)]

mod laws;

pub use laws::{idle_steps_bring_their_ticks, parts_follow_one_another, what_comes_fits_the_room};
