//! The options of a member's line: what they say and declare, and how they are spelled and read.
#![tactic(auto)]

mod member_option;
mod option_name;
mod options;
mod ranges;

pub use member_option::MemberOptions;
pub use options::options_in;
pub use ranges::{Margin, Priority, SafetyMargin};
