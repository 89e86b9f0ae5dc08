//! Who leads next: who asks for a free leader key, who begins on the grant, and whom a leader hands over to.
#![tactic(auto)]

mod laws;

pub use laws::{
    a_free_key_finds_a_leader, a_free_key_is_asked_for, a_leader_hands_over_to_who_may_lead,
    late_answers_are_not_waited_for, the_last_answer_decides, what_a_turn_read_stays,
    who_is_barred_stays_out,
};
