//! The key store of a cluster: keys with leases, transactions that compare revisions, and what they leave.
#![tactic(auto)]

mod compares;
mod copies;
mod entries;
mod expiries;
mod granted;
mod laws;
mod order;
mod pairs;
mod refusal;
mod sorting;
mod store;
mod walks;
mod writes;

pub use compares::key_entry_at;
pub use copies::Copies;
pub use granted::Granted;
pub use laws::{a_schedule_fires_once, fencing, stores_are_kept, what_is_gone_stays_gone};
pub use refusal::StoreRefusal;
pub use sorting::in_key_order;
pub use store::Store;
