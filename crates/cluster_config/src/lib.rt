//! Configurations as text: how one is read, judged, changed and spelled.
#![tactic(auto)]

mod config_fault;
mod config_text;
mod floats;
mod judging;
mod laws;
mod merging;
mod setting;
mod setting_value;

pub use config_fault::ConfigFault;
pub use config_text::ConfigText;
pub use laws::{
    configurations_keep_times, patches_change_what_they_name, settings_are_those_of_the_text,
    texts_say_what_was_read,
};
pub use setting::{Setting, SettingRange};
