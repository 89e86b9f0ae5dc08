//! What comes to a live cluster from outside, one arrival after another, and what is done for its clients: in memory, or by whoever has
//! sockets and a clock.
#![tactic(auto)]

mod arrival;
mod deed;
mod memory;
mod outside;

pub use arrival::{Arrival, Port};
pub use deed::{Deed, Done};
pub use memory::MemoryOutside;
pub use outside::Outside;
