//! What every layer stands on: names, member numbers, moments, positions in logs, and what servers and members are in.
#![tactic(auto)]

mod host;
mod ineligibility;
mod lsn;
mod member_id;
mod member_names;
mod member_set;
mod name;
mod peer_answer;
mod server_id;
mod server_state;
mod shared;
mod short_text;
mod size;
mod tags;
mod ticks;
mod word;

pub use host::Host;
pub use ineligibility::Ineligibility;
pub use lsn::{Lsn, NotLsn};
pub use member_id::{MOST_MEMBERS, MemberId};
pub use member_names::member_named;
pub use member_set::MemberSet;
pub use name::Name;
pub use peer_answer::PeerAnswer;
pub use server_id::ServerId;
pub use server_state::{Required, State};
pub use shared::Shared;
pub use size::{NotSize, Size};
pub use tags::Tags;
pub use ticks::{TICKS_OF_SECOND, Ticks};
pub use word::Word;
