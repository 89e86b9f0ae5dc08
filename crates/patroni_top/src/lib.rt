//! The program's commands: from the words and the bytes that come in to the bytes that go out.
//!
//! `run` is all that the program does. It answers how it ended, with the world that a run leaves. `serve_world` serves one connection more by
//! that world.
#![tactic(auto)]

mod ended;
mod serving;
mod top;

pub use command_line::Status;
pub use ended::Ended;
pub use serving::serve_world;
pub use top::run;
