//! What can happen. An event stands in the book only where something changed. It has the names that its line prints.

use crate::{AgentNote, Basis, Bytes, Link, Member, Message, Names, Reason, ServerOf};
use pat_base::{Lsn, Name, Required, Shared, Ticks};
use store_keys::{Expected, Key, OperatorAction, Txn, TxnKind};
use wal_model::Entry;

/// A happening, at a moment in ticks of 100 ms.
#[derive(Drop)]
pub struct Event {
    pub tick: Ticks,
    pub kind: EventKind,
}

/// Happenings by what they concern.
#[derive(Drop)]
pub enum EventKind {
    /// The clock grew by one tick.
    Tick,
    Message(MessageEvent),
    Store(StoreEvent),
    Watchdog(WatchdogEvent),
    Server(ServerEvent),
    Log(LogEvent),
    Replication(ReplicationEvent),
    Agent(AgentEvent),
    Link(LinkEvent),
    Note(Note),
}

/// What happens to messages. They are numbered from 1 in order of sending.
#[derive(Drop)]
pub enum MessageEvent {
    /// The message was sent.
    Sent {
        number: u64,
        message: Shared<Message>,
    },
    /// The message came to its receiver.
    Delivered {
        number: u64,
    },
    /// The message will never come.
    Lost {
        number: u64,
    },
}

/// What happens at the key store.
#[derive(Drop)]
pub enum StoreEvent {
    /// The request that this message carries was granted. `standbys` are the names that a sync write publishes.
    Granted {
        number: u64,
        by: Member,
        txn: Shared<Txn>,
        standbys: Names,
    },
    /// The request that this message carries was refused: this key isn't as the request expects.
    Refused {
        number: u64,
        by: Member,
        request: TxnKind,
        key: Key,
        found: Expected,
    },
    /// The leader key of this member was dropped at its expiry.
    LeaderExpired {
        holder: Member,
    },
    /// Another key was dropped at its expiry.
    Expired {
        key: Key,
    },
}

/// What happens to watchdogs, and to the holds that members take for a leader that can't reach the key store.
#[derive(Drop)]
pub enum WatchdogEvent {
    /// The member's watchdog got its first deadline, on the answer of this number.
    Armed {
        member: Member,
        until: Ticks,
        answer: u64,
    },
    /// The watchdog got a new deadline.
    Fed {
        member: Member,
        until: Ticks,
        basis: Basis,
    },
    /// The watchdog has no deadline any more.
    Disarmed {
        member: Member,
    },
    /// The watchdog reset its machine: the agent ended, and the server crashed.
    Reset {
        member: Member,
    },
    /// What lets the member arm or feed its watchdog next is measured from this moment: the answer was sent then that tells the
    /// grant.
    Measured {
        member: Member,
        since: Ticks,
    },
    /// The member acknowledged the failsafe request of this number in this incarnation of its sender. It doesn't take the
    /// leader key before the moment `until`.
    HoldTaken {
        member: Member,
        until: Ticks,
        from: Member,
        incarnation: u64,
        sequence: u64,
    },
}

/// What happens to servers, but for their logs.
#[derive(Drop)]
pub enum ServerEvent {
    /// The server accepts writes from now on.
    Began {
        server: ServerOf,
        timeline: u64,
    },
    /// It accepts writes no longer. A restart of a primary is told by this, and then by the start as that of a server that
    /// was stopped: by `StartsAsPrimary` where that takes time, and by `Began`.
    Ended {
        server: ServerOf,
    },
    /// It ended without a shutdown.
    Crashed {
        server: ServerOf,
    },
    /// Its operator promoted it.
    Promoted {
        server: ServerOf,
    },
    /// Its shutdown has begun, or is complete at once where it accepts no writes. That it accepts writes no longer is
    /// `Ended`.
    Stops {
        server: ServerOf,
    },
    /// Its start as a primary has begun, and takes time. That it accepts writes is `Began`.
    StartsAsPrimary {
        server: ServerOf,
    },
    /// It starts as a replica. Of one that is down, it follows nobody then; one that runs as a replica starts again, and follows
    /// whom it followed: that is all that is told of its restart.
    StartsAsReplica {
        server: ServerOf,
    },
    /// It follows another server.
    Follows {
        server: ServerOf,
        upstream: ServerOf,
    },
    /// Its log was found to be no beginning of its upstream's: the two part at this position.
    Diverged {
        server: ServerOf,
        upstream: ServerOf,
        at: Lsn,
    },
    /// Nothing is streamed to it by a tick of `run`.
    Frozen {
        server: ServerOf,
    },
    /// It is streamed to again.
    Thawed {
        server: ServerOf,
    },
    /// Its later stops and starts take so long, each as before where nothing is said of it.
    Slowed {
        server: ServerOf,
        stop: Option<Ticks>,
        start: Option<Ticks>,
    },
}

/// What happens to logs.
#[derive(Drop)]
pub enum LogEvent {
    /// A client's commit stands at the end of the log.
    Appended {
        server: ServerOf,
        entry: Entry,
    },
    /// The next so many entries of another server's log stand at its end.
    Received {
        server: ServerOf,
        from: ServerOf,
        count: u64,
    },
    /// It was rewound to what it had in common with another server's log: so many entries, which end at this position.
    Rewound {
        server: ServerOf,
        from: ServerOf,
        kept: u64,
        at: Lsn,
    },
    /// It is a copy of another server's log.
    Copied {
        server: ServerOf,
        from: ServerOf,
    },
    /// The server has no log any more: it waits for a copy, unless it accepts writes, or will when its start is complete.
    Wiped {
        server: ServerOf,
    },
}

/// What happens in synchronous replication.
#[derive(Drop)]
pub enum ReplicationEvent {
    /// Commits of this server wait for these from now on. `names` are those of the members of a set.
    RequiredSet {
        server: ServerOf,
        required: Required,
        names: Names,
    },
    /// A member has flushed the log of this server up to this position.
    Confirmed {
        server: ServerOf,
        by: Member,
        end: Lsn,
    },
    /// The client of this commit was told that it is stored.
    Acknowledged {
        server: ServerOf,
        commit: u64,
    },
    /// The server accepts writes, and its log lacks a commit whose client was told that it is stored.
    Lacks {
        server: ServerOf,
    },
}

/// What happens to agents.
#[derive(Drop)]
pub enum AgentEvent {
    /// The agent was woken.
    Woken {
        agent: Member,
    },
    /// The agent is suspended: it does nothing until it goes on.
    Suspended {
        agent: Member,
    },
    /// A suspended agent goes on.
    Resumed {
        agent: Member,
    },
    /// The agent ended.
    Killed {
        agent: Member,
    },
    /// An agent that had ended was started. This is its incarnation of this number.
    Started {
        agent: Member,
        incarnation: u64,
    },
    /// A request of an operator, which passed its checks, came to the agent.
    Operated {
        agent: Member,
        action: OperatorAction,
    },
    /// The agent took the leader key though the sync key doesn't name it, since a failover names it.
    Passed {
        agent: Member,
    },
}

/// What happens to links.
#[derive(Drop)]
pub enum LinkEvent {
    /// The link carries nothing from now on.
    Cut(Link),
    /// The link carries messages again.
    Joined(Link),
}

/// What is printed, and read by no definition.
#[derive(Drop)]
pub enum Note {
    /// The member's agent notes this. With the name of the member that the note speaks of, where it speaks of one that is declared.
    OfAgent {
        member: Member,
        note: AgentNote,
        about: Option<Name>,
    },
    /// The member's agent ends its server for this reason.
    EndsServer {
        member: Member,
        reason: Reason,
    },
    /// All members that a primary asked, as it can't reach the key store, accept that it stays primary.
    StaysByFailsafe {
        member: Member,
    },
    /// The server doesn't accept writes.
    RefusesCommit {
        server: ServerOf,
    },
    /// The agent that was to be started runs already.
    AlreadyRunning {
        agent: Member,
    },
    /// No message of this number is in flight.
    NoMessage {
        number: u64,
    },
    /// The link of this message is cut, or its receiver is suspended.
    Undeliverable {
        number: u64,
    },
    /// What the agent's REST interface answered, and whether the body is JSON (RFC 8259), and not plain text; the line doesn't say.
    Answered {
        agent: Member,
        status: u16,
        json: bool,
        body: Bytes,
    },
    /// The agent is suspended or doesn't run, so its REST interface answers nothing.
    NoAnswer {
        agent: Member,
    },
    ConnectionFailed,
    /// A line that patronictl prints.
    CtlLine {
        line: Bytes,
    },
}
