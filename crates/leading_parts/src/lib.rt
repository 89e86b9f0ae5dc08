//! What happens at a leader and beside it: the leader key stays its holder's over whatever comes to the key store, and what happens at
//! other members leaves a member as it stands.
#![tactic(auto)]

mod laws;

pub use laws::{
    a_tick_leaves_a_primary, others_act_elsewhere, the_key_stays_its_holders,
    the_key_store_is_elsewhere, what_happens_elsewhere_leaves_a_member,
};
