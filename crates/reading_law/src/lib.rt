//! That each form of a line is read as what it tells.
#![tactic(auto)]

mod laws;

pub use laws::each_form_is_read;
