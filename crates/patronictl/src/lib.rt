//! `patronictl`: what a command prints of a snapshot of the key store, and whom it asks for what (Patroni documentation, "patronictl").
#![tactic(auto)]

mod acted;
mod acting;
mod answer;
mod answering;
mod asking;
mod history;
mod lag;
mod laws;
mod members;
mod names;
mod role;
mod setting_body;

pub use acted::Acted;
pub use acting::act;
pub use answer::CtlAnswer;
pub use answering::ctl_answer;
pub use laws::{
    each_ending_stands_once, each_member_stands_once, lags_are_to_the_nearest,
    lines_are_as_wide_as_the_rule,
};
