//! The book of a run: the list of what happened, and what it leaves.
#![tactic(auto)]

mod agent_note;
mod agent_process;
mod event;
mod laws;
mod link;
mod member;
mod message;
mod name_order;
mod names;
mod reason;

pub use agent_note::{AgentNote, AgentNoteText};
pub use agent_process::AgentProcess;
pub use event::{
    AgentEvent, Event, EventKind, LinkEvent, LogEvent, MessageEvent, Note, ReplicationEvent,
    ServerEvent, StoreEvent, WatchdogEvent,
};
pub use laws::{
    a_remote_is_found, links_are_told, restarts_and_wipes_are_told, servers_match_events,
};
pub use link::{Link, LinkEnd};
pub use member::{Member, ServerOf};
pub use message::{Body, Message};
pub use name_order::put_name;
pub use names::{Bytes, Names};
pub use reason::{Basis, Reason};
