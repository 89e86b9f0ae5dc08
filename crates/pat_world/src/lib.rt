//! The world: a cluster at a moment, which takes the steps of a run and hands out what happens.
#![tactic(auto)]

mod simulated;
mod world;

pub use world::World;
