//! What a script tells the run to do.

use crate::{CommitSize, Delay, LineBytes, RequestWords};
use pat_base::{MemberId, Shared};

/// One end of a link: a member, or the key store.
#[derive(Clone, Copy, PartialEq, Eq)]
pub enum End {
    /// The key store, which a script calls `store`.
    Store,
    /// The member of this number, which a script calls by its name.
    Member(MemberId),
}

/// What a line `slow` delays: the stop or the start of a server.
#[derive(Clone, Copy, PartialEq, Eq)]
pub enum SlowedCall {
    /// From a shutdown's beginning to its end.
    Stop,
    /// From a start's beginning until the server is ready.
    Start,
}

/// What a line of a script's body asks for by itself. Ticks are of 100 ms, and messages are numbered from 1 in order of sending.
#[derive(Drop)]
pub enum Command {
    /// `turn M`: the agent of this member is woken.
    Turn(MemberId),
    /// `deliver I`: the message of this number is delivered.
    Deliver(u64),
    /// `lose I`: the message of this number is lost.
    Lose(u64),
    /// `hold M`: the agent of this member is suspended.
    Suspend(MemberId),
    /// `resume M`: the agent of this member goes on.
    Resume(MemberId),
    /// `kill M`: the agent of this member ends.
    Kill(MemberId),
    /// `restart M`: the agent of this member is started again.
    StartAgent(MemberId),
    /// `promote M`: the server of this member is promoted by its operator.
    Promote(MemberId),
    /// `crash M`: the server of this member ends without a shutdown.
    Crash(MemberId),
    /// `commit M BYTES`: a client commits so many bytes at the server of this member.
    Commit(MemberId, CommitSize),
    /// `stream M N`: the server of this member receives at most N entries of the log.
    Stream(MemberId, u64),
    /// `freeze M`: from here on `run` streams nothing to the server of this member.
    Freeze(MemberId),
    /// `thaw M`: from here on `run` streams to the server of this member again.
    Thaw(MemberId),
    /// `slow M stop N`, `slow M start N`: from here on a stop or a start of the server of this member takes N ticks.
    Slow(MemberId, SlowedCall, Delay),
    /// `cut X Y`: the link between two ends, which differ, carries nothing.
    Cut(End, End),
    /// `join X Y`: the link between two ends, which differ, carries messages again.
    Join(End, End),
    /// `rest M METHOD TARGET`, `rest M METHOD TARGET BODY`: a request to the REST interface of this member's agent.
    Rest(MemberId, Shared<RequestWords>),
    /// `ctl WORDS`: a command of patronictl, as an operator types it (Patroni documentation, "patronictl"). The words are all that
    /// stands behind the blank, and may be none.
    Ctl(LineBytes),
    /// `trace on`, `trace off`: whether lines of messages are printed.
    Trace(bool),
}

/// A line of a script's body. A line of ticks may ask for any number below 2^64, of 100 ms each.
#[derive(Drop)]
pub enum Line {
    /// `run N`: N ticks of the default schedule.
    Run(u64),
    /// `tick N`: N bare ticks.
    Tick(u64),
    /// Any other line.
    Command(Command),
}
