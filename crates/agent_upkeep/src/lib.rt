//! What an agent does whoever leads: it finds its server as that is, it renews a lease that is its own, it does and answers what
//! operators ask, and it holds where another member stays primary without the key store.
#![tactic(auto)]

mod holding;
mod operators;
mod reconciling;
mod renewing;
mod waiting;

pub use holding::{hold, may_acknowledge};
pub use operators::{
    give_up, grants_operator, look, operate, operates, operator_granted, operator_refused,
};
pub use reconciling::reconcile;
pub use renewing::renew;
pub use waiting::awaits_read;
