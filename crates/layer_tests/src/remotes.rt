//! The remote primary of a standby cluster.
use crate::checks::has;
use crate::servers::{fresh, promote};
use pat_base::{Lsn, State};
use pg_model::{InState, Server, StreamFault, Streamed};
use standby_cluster::{Remote, copy_from, pull};
use std::alloc::{AllocError, Global};
use wal_model::WalFault;

/// Where the log of the remote primary ends behind a commit of 5 bytes.
const END: Lsn = Lsn { position: 15 };

fn remote_over(alloc: Global, base: u32) -> Result<Remote, AllocError> {
    Remote::new(alloc, u64::from(base))
}

fn supply(remote: &mut Remote, bytes: u64) -> Result<(), WalFault> {
    remote.supply(1, bytes)
}

fn pulled(server: &mut Server, remote: &Remote) -> Result<Streamed, StreamFault> {
    pull(server, remote, 9)
}

fn copied(server: &mut Server, remote: &Remote) -> Result<(), StreamFault> {
    copy_from(server, remote)
}

fn wipe(server: &mut Server) -> Result<(), InState> {
    server.wipe()
}

#[test]
fn remote_calls(rt: HostRuntime) {
    let mut remote = remote_over(rt.alloc(), 10).expect(&rt, "memory");
    has(&rt, &supply(&mut remote, 5), &Ok(()));
    has(&rt, &supply(&mut remote, 1 << 63), &Err(WalFault::Full));
    let mut server = fresh(rt.alloc(), 10).expect(&rt, "memory");
    let received = Ok(Streamed::Received(1));
    has(&rt, &pulled(&mut server, &remote), &received);
    let runs = Err(StreamFault::InState(State::Replica));
    has(&rt, &copied(&mut server, &remote), &runs);
    has(&rt, &promote(&mut server), &Ok(()));
    let writes = Err(StreamFault::InState(State::Primary));
    has(&rt, &pulled(&mut server, &remote), &writes);
    let mut copy = fresh(rt.alloc(), 11).expect(&rt, "memory");
    has(&rt, &wipe(&mut copy), &Ok(()));
    has(&rt, &copied(&mut copy, &remote), &Ok(()));
    has(&rt, &copy.status().end, &Some(END));
}
