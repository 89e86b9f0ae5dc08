//! Servers.
use crate::checks::has;
use pat_base::{Lsn, MemberId, MemberSet, Required, State, Ticks};
use pg_model::{CommitFault, InState, PgFault, Server, Streamed};
use std::alloc::{AllocError, Global};
use std::process::Abort;

/// Where the log of a new server ends, and where behind a commit of 5 bytes.
const BASE: Lsn = Lsn { position: 10 };

const END: Lsn = Lsn { position: 15 };

const B: MemberId = MemberId { number: 1 };

const C: MemberId = MemberId { number: 2 };

pub(crate) fn fresh(alloc: Global, base: u32) -> Result<Server, AllocError> {
    Server::new(alloc, u64::from(base))
}

pub(crate) fn promote(server: &mut Server) -> Result<(), InState> {
    if server.reserve().is_err() || server.timeline() > 9 {
        return Err(InState(State::Creating));
    }
    server.promote(Ticks(0))
}

fn commit(server: &mut Server, bytes: u64) -> Result<(), CommitFault> {
    server.commit(1, bytes)
}

fn rewind(server: &mut Server, to: &Server) -> Option<PgFault> {
    server.rewind(to).err()
}

/// In which state a server is, on which timeline, and where its log ends.
fn standing(server: &Server) -> (State, u64, Option<Lsn>) {
    (server.state(), server.timeline(), server.status().end)
}

#[test]
fn server_calls(rt: HostRuntime) {
    let mut server = fresh(rt.alloc(), 10).expect(&rt, "memory");
    has(&rt, &standing(&server), &(State::Replica, 1, Some(BASE)));
    has(&rt, &promote(&mut server), &Ok(()));
    has(&rt, &standing(&server), &(State::Primary, 2, Some(BASE)));
    has(&rt, &left_at(&server), &Some(BASE));
    has(&rt, &commit(&mut server, 5), &Ok(()));
    has(
        &rt,
        &acknowledged(&mut server),
        &[None, None, Some(1), None],
    );
    has(&rt, &server.confirmed(B), &Some(END));
    check_streams(&rt, rt.alloc(), &server);
}

/// Where a server left timeline 1.
fn left_at(server: &Server) -> Option<Lsn> {
    server.history().point(1)
}

/// Which commit is acknowledged next where b is waited for; once b has confirmed all, where two of b and c are waited for,
/// and where one is; and where none waits any more.
fn acknowledged(server: &mut Server) -> [Option<u64>; 4] {
    server.set_required(Required::All(MemberSet::empty().with(B)));
    let before = server.next_acknowledged();
    server.confirm(B, END);
    server.set_required(of_both(2));
    let by_two = server.next_acknowledged();
    server.set_required(of_both(1));
    let by_one = server.next_acknowledged();
    [before, by_two, by_one, server.next_acknowledged()]
}

/// So many of b and c.
fn of_both(number: u8) -> Required {
    Required::AtLeast {
        number,
        of: MemberSet::empty().with(B).with(C),
    }
}

/// A new server, and what it gets of another one.
fn receiver(rt: &impl Abort, alloc: Global, base: u32, upstream: &Server) -> (Server, Streamed) {
    let mut server = fresh(alloc, base).expect(rt, "memory");
    let streamed = server.stream(upstream, 3).expect(rt, "memory");
    (server, streamed)
}

fn check_streams(rt: &impl Abort, alloc: Global, server: &Server) {
    let (replica, received) = receiver(rt, alloc, 10, server);
    has(rt, &received, &Streamed::Received(1));
    let (_, unconnected) = receiver(rt, alloc, 10, &replica);
    has(rt, &unconnected, &Streamed::NotConnected);
    let (_, parted) = receiver(rt, alloc, 11, server);
    has(rt, &parted, &Streamed::Diverged(Lsn { position: 0 }));
}

#[test]
fn refused_calls(rt: HostRuntime) {
    let replica = fresh(rt.alloc(), 10).expect(&rt, "memory");
    let mut server = fresh(rt.alloc(), 10).expect(&rt, "memory");
    has(&rt, &commit(&mut server, 1), &Err(CommitFault::NotPrimary));
    has(
        &rt,
        &rewind(&mut server, &replica),
        &Some(PgFault::NotPrimary),
    );
    has(&rt, &promote(&mut server), &Ok(()));
    has(&rt, &promote(&mut server), &Err(InState(State::Primary)));
}
