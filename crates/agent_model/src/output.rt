//! What an agent does.

use crate::{Inquiry, Told};
use event_book::{AgentNote, Reason};
use pat_base::{MemberId, MemberSet, PeerAnswer, Required, Ticks};

/// Whom an agent writes to.
#[derive(Clone, Copy, PartialEq, Eq)]
pub enum Target {
    Store,
    Member(MemberId),
}

/// How the log of a server is repaired by that of another (Patroni documentation, "Replica imaging and bootstrap").
#[derive(Clone, Copy, PartialEq, Eq)]
pub enum Repair {
    /// It keeps what both have in common (`pg_rewind`, where `use_pg_rewind` is set).
    Rewind,
    /// It becomes a copy (`pg_basebackup`).
    Clone,
}

/// What an agent does in an input, by concern.
#[derive(Drop)]
pub enum Output {
    /// It writes to the key store, or to another member.
    Message(Outgoing),
    /// It orders its server to do something.
    Server(ServerOrder),
    /// It did something to its watchdog, on what was heard.
    Watchdog(Feeding),
    /// The server's commits wait for these from now on.
    Require { required: Required },
    /// It tells what the run keeps, and what changes nothing of servers, keys and watchdogs.
    Tell(Telling),
    /// It is printed, and changes nothing.
    Note(Noting),
}

/// What an agent writes to the key store, and to other members.
#[derive(Drop)]
pub enum Outgoing {
    /// A message under this number of the agent's incarnation.
    Send {
        to: Target,
        sequence: u64,
        body: Inquiry,
    },
    /// What it answers this member, to the ask of this number in that one's incarnation.
    Answer {
        to: MemberId,
        incarnation: u64,
        sequence: u64,
        answer: PeerAnswer,
    },
    /// Whether it acknowledges this member's failsafe request of this number in that one's incarnation.
    FailsafeAnswer {
        to: MemberId,
        incarnation: u64,
        sequence: u64,
        accepted: bool,
    },
}

/// What an agent orders its server to do.
#[derive(Clone, Copy)]
pub enum ServerOrder {
    /// The server begins to accept writes: a replica is promoted, and one that is down and was a primary starts as one again.
    Begin,
    /// The server starts as a replica of this member's, or of none.
    StartReplica { leader: Option<MemberId> },
    /// The agent ends the server, for this reason.
    Stop { reason: Reason },
    /// The server shuts down: its log diverged, and may not be rewound, or its member hands over.
    ShutDown,
    /// The server starts again in its role: as a primary, or as a replica.
    Restart { as_primary: bool },
    /// The server is wiped, and waits for a copy.
    Wipe,
    /// The server follows this member's from now on.
    Follow { leader: MemberId },
    /// The log of the server is repaired by that of this member's, where that accepts writes and the link to it is joined.
    Repair { leader: MemberId, repair: Repair },
}

/// What an agent did to its watchdog.
#[derive(Clone, Copy)]
pub enum Feeding {
    /// The watchdog got its first deadline, on the answer that was heard.
    Armed {
        until: Ticks,
    },
    /// The watchdog got a new deadline, on the answer that was heard.
    Fed {
        until: Ticks,
    },
    /// The watchdog got a new deadline, since these members acknowledged the failsafe request of this number, the first of them at this
    /// moment; where nobody was asked at the moment of the input.
    FedByFailsafe {
        until: Ticks,
        members: MemberSet,
        sequence: u64,
        since: Ticks,
    },
    /// The watchdog has no deadline any more.
    Disarmed,
}

/// What an agent tells: an operator what became of a request, and all what it holds and takes.
#[derive(Drop)]
pub enum Telling {
    /// What the agent answers the operator's request of this number in the incarnation.
    Told {
        request: u64,
        told: Told,
    },
    /// The member promised not to take the leader key before this moment, on the failsafe request of this number of this member.
    HoldTaken {
        until: Ticks,
        from: MemberId,
        sequence: u64,
    },
    /// The member takes the leader key though the sync key doesn't name it: a failover by hand names it.
    ClaimsOutsideSync,
}

/// What an agent has printed, and changes nothing.
#[derive(Clone, Copy)]
pub enum Noting {
    /// What it found, or decided.
    Agent(AgentNote),
    /// The member stays primary without the key store.
    StaysByFailsafe,
}
