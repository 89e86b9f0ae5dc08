//! What the words of a `patronictl` line ask for, or the first word at fault.
#![tactic(auto)]

mod command;
mod command_name;
mod ctl_fault;
mod cutting;
mod fault_text;
mod laws;
mod option_name;
mod reading;
mod said;
mod setting;
mod setting_parts;
mod tables;

pub use command::Command;
pub use ctl_fault::{CtlFault, Needed};
pub use laws::{
    a_value_may_stand_in_the_same_word, faults_name_words, force_changes_nothing,
    options_stand_in_any_order, the_first_word_at_fault_counts,
};
pub use option_name::ValueOption;
pub use setting::Setting;
