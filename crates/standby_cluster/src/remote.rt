//! The remote primary.
ghost use Rattle.std.specs.Prelude.{◌≡◌, ◌≢◌, ◌≤◌, ◌<◌, ◌+◌, ◌^◌, ◌↔◌, true, false, IfOk, IfErr, OnOk, OnErr, IsErrOf};
ghost use Rattle.wal_model.specs.Log.{end_of};
ghost use Rattle.wal_model.specs.declared.wal.WalFault.TheVariants as wal_faults;
ghost use Rattle.pg_model.specs.Facts.{entries_of, is_creating, is_replica};
ghost use Rattle.pg_model.specs.Replication.{stream_of, streamed};
ghost use Rattle.pg_model.specs.Rewinding.{cloned};
ghost use Rattle.pg_model.specs.declared.answers.StreamFault.TheVariants as stream_faults;
ghost use Rattle.pg_model.specs.declared.answers.Streamed.TheVariants as streams;
ghost use Rattle.standby_cluster.specs.Remote.{remote_of, supplied};

use pat_base::Ticks;
use pg_model::{CommitFault, PgFault, Server, StreamFault, Streamed};
use std::alloc::{AllocError, Global};
use std::marker::Model;
use wal_model::WalFault;

/// The primary of another cluster, which a standby cluster follows (Patroni's documentation, "Standby cluster"). It
/// always accepts writes, on timeline 2.
#[derive(Drop)]
pub struct Remote {
    server: Server,
}

impl Model for Remote {
    ghost use Rattle.pg_model.specs.Facts.{ServerFacts};
    ghost use Rattle.standby_cluster.specs.Remote.{IsRemote};

    ghost Value = { ServerFacts };

    ghost view = { λ r. r.server };

    ghost invariant = { λ r. IsRemote r.server };
}

impl Remote {
    /// A primary whose log begins with so many bytes of data, at most 2^63, at whose end it left timeline 1. It fails
    /// only for want of memory.
    pub fn new(alloc: Global, base: u64) -> Result<Remote, AllocError>
        requires { base ≤ 2 ^ 63 }
        ensures { IfOk result (λ remote. remote ≡ remote_of base) }
    {
        let mut server = Server::new(alloc, base)?;
        server.reserve()?;
        server.promote(Ticks(0)).unwrap();
        Ok(Remote { server })
    }

    /// A client of the other cluster commits so many bytes, and nothing waits for that here. `Full` exactly where the
    /// log would end past 2^63 bytes, `Memory` only for want of memory; it stays as it was then.
    pub fn supply(&mut self, serial: u64, bytes: u64) -> Result<(), WalFault>
        ensures full { IsErrOf result wal_faults.Full ↔ (2 ^ 63 < end_of (entries_of self.old.log) + bytes) }
        ensures ok { OnOk result (self.new ≡ supplied serial bytes self.old) }
        ensures err { OnErr result (self.new ≡ self.old) }
    {
        match self.server.commit(serial, bytes) {
            Ok(()) => {
                // Nobody's confirmation is required, so the commit waits no longer.
                let _serial = self.server.next_acknowledged();
                Ok(())
            }
            Err(CommitFault::Memory) => Err(WalFault::Memory),
            Err(CommitFault::Full) => Err(WalFault::Full),
            Err(CommitFault::NotPrimary) => unreachable!(),
        }
    }
}

/// Lets a replica receive at most so many entries from the remote primary, with its timeline and history, as
/// `Server::stream` does, and answers what it got, which is never `NotConnected`. `InState` exactly unless it runs as a
/// replica, `Memory` only for want of memory; it stays as it was then.
pub fn pull(server: &mut Server, remote: &Remote, most: usize) -> Result<Streamed, StreamFault>
    ensures refused { IsErrOf result (stream_faults.InState server.old.state) ↔ (is_replica server.old.state ≡ false) }
    ensures connected { IfOk result (λ answer. answer ≢ streams.NotConnected) }
    ensures answer { IfOk result (λ answer. answer ≡ stream_of server.old remote.now most) }
    ensures ok { OnOk result (server.new ≡ streamed server.old remote.now most) }
    ensures err { OnErr result (server.new ≡ server.old) }
{
    server.stream(&remote.server, most)
}

/// Makes a server a copy of the remote primary, which runs as a replica from then on, as `Server::clone_from` does.
/// `InState` exactly unless it waits for a copy, `Memory` only for want of memory; it stays as it was then.
pub fn copy_from(server: &mut Server, remote: &Remote) -> Result<(), StreamFault>
    ensures refused { IsErrOf result (stream_faults.InState server.old.state) ↔ (is_creating server.old.state ≡ false) }
    ensures memory { is_creating server.old.state ≡ true → IfErr result (λ fault. fault ≡ stream_faults.Memory) }
    ensures ok { OnOk result (server.new ≡ cloned server.old remote.now) }
    ensures err { OnErr result (server.new ≡ server.old) }
{
    match server.clone_from(&remote.server) {
        Ok(()) => Ok(()),
        Err(PgFault::InState(state)) => Err(StreamFault::InState(state)),
        Err(PgFault::Memory) => Err(StreamFault::Memory),
        Err(PgFault::NotPrimary) => unreachable!(),
    }
}
