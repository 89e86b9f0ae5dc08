//! What an agent asks, and what it waits for.
#![tactic(auto)]

mod laws;

pub use laws::inputs_ask_anew;
