//! What ticks bring on the stage of a world beside what agents do, by the events of the model; and from when on one brings something.
#![tactic(auto)]

pub mod idling;
pub mod receiving;
pub mod ticks;
