//! Runs played: the steps of a script, taken by a world, noted for the closing summary, and printed.
#![tactic(auto)]

mod drilling;
mod player;
mod playing;

pub use drilling::drill;
pub use player::Player;
pub use playing::play;
