//! An input of an agent on its way, and the steps that all rows of the decision table are made of.
#![tactic(auto)]

mod acting;
mod asking;
mod belonging;
mod failsafe_keys;
mod info;
mod informing;
mod outputs;
mod pausing;
mod role;
mod synchronous;
mod turn;
mod view;

pub use acting::{comes_late, deadline_of, is_armable, is_hold_active};
pub use asking::{all_answered, answers_until, ask_all, ask_one, is_settled};
pub use belonging::{belongs, is_active, is_lease_of, is_write_of, may_create};
pub use failsafe_keys::{failsafe_compared, failsafe_read_in, set_carried};
pub use info::{info_of, runs};
pub use informing::{inform, known_with};
pub use outputs::Outputs;
pub use pausing::{ends_forks, is_paused, is_wanted, is_wanted_by, lets_rewind, may_start_behind};
pub use role::Role;
pub use synchronous::{
    expected_of, is_named_if, may_lead_in_sync, sync_read_if, sync_read_in, unnamed, waiting_for,
};
pub use turn::Turn;
pub use view::{view_of, word_of};
