//! Where connections come from, for a program that serves one agent's REST interface: in memory, or on a TCP socket.
#![tactic(auto)]

mod answers;
mod call;
mod door;
mod laws;
mod listener;
mod memory;
mod unread;

pub use door::Door;
pub use laws::{earlier_answers_stay, pieces_make_the_whole};
pub use listener::ListenerDoor;
pub use memory::MemoryDoor;
