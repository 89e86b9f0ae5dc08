//! The page of a live cluster: what a browser may ask at the control port, and what it gets.
#![tactic(auto)]

mod answers;
mod denial;
mod document;
mod hosts;
mod judging;
mod origin;
mod state;
mod view;
mod wish;

pub use answers::{print_denial, print_page, print_picture, print_text};
pub use denial::Denial;
pub use document::DOCUMENT;
pub use hosts::OwnHosts;
pub use judging::judge;
pub use state::{Checks, MemberState, state_text};
pub use view::View;
pub use wish::{Wish, wish_of};
