//! The ways back of one server of a cluster.
ghost use Rattle.std.specs.Prelude.{◌≡◌, ◌≢◌, ◌<◌, length, Some, IsTrue, IfOk, OnOk, OnErr};
ghost use Rattle.pg_model.specs.Facts.{entries_of, is_creating};
ghost use Rattle.pg_model.specs.Rewinding.{rewound, cloned, may_rewind, may_clone};
ghost use Rattle.pg_cluster.specs.Rewinding.{rewind_of, rewind_at, may_rewind_at, may_clone_at, rewound_at, cloned_at};

use super::forget;
use crate::{Rewound, Servers};
use pat_base::State;
use pg_model::{Server, is_rewindable};
use std::alloc::AllocError;

impl Servers {
    /// Rewinds the server at a place to the one at another place, as `Server::rewind` does, and answers what it kept. `None`
    /// exactly where one of the two is absent or `Server::rewind` refuses, and then all stay as they were. It fails only
    /// for want of memory, and then too. It costs what the two logs have in common, what is dropped, and time in the number
    /// of servers.
    pub fn rewind(&mut self, place: usize, from: usize) -> Result<Option<Rewound>, AllocError>
        ensures rewind { IfOk result (λ rewind. rewind ≡ rewind_at self.old place from) }
        ensures ok { OnOk result (self.new ≡ rewound_at self.old place from) }
        ensures err { OnErr result (self.new ≡ self.old) }
    {
        if !may_rewind_at(&self.servers, place, from) {
            return Ok(None);
        }
        let rewind = rewind_to(&mut self.servers, place, from)?;
        forget(&mut self.in_step, &self.servers, place);
        Ok(Some(rewind))
    }

    /// Makes the server at a place a clone of the one at another place, as `Server::clone_from` does, and answers whether it
    /// is: exactly where both are there, the first waits for a copy and the other accepts writes; else all stay as they
    /// were. It fails only for want of memory, and then too. It costs the log that is copied, and time in the number of
    /// servers.
    pub fn clone_from(&mut self, place: usize, from: usize) -> Result<bool, AllocError>
        ensures cloned { IfOk result (λ is_cloned. is_cloned ≡ may_clone_at self.old place from) }
        ensures ok { OnOk result (self.new ≡ cloned_at self.old place from) }
        ensures err { OnErr result (self.new ≡ self.old) }
    {
        if !may_clone_at(&self.servers, place, from) {
            return Ok(false);
        }
        clone_to(&mut self.servers, place, from)?;
        forget(&mut self.in_step, &self.servers, place);
        Ok(true)
    }
}

/// Whether the server at a place may be rewound to the one at another place.
fn may_rewind_at(servers: &[Server], place: usize, from: usize) -> bool
    ensures { result ≡ may_rewind_at servers.now place from }
{
    let Some(server) = servers.get(place) else {
        return false;
    };
    let Some(source) = servers.get(from) else {
        return false;
    };
    is_rewindable(server.state()) && source.writes()
}

/// Whether the server at a place may be cloned from the one at another place.
fn may_clone_at(servers: &[Server], place: usize, from: usize) -> bool
    ensures { result ≡ may_clone_at servers.now place from }
{
    let Some(server) = servers.get(place) else {
        return false;
    };
    let Some(source) = servers.get(from) else {
        return false;
    };
    is_creating(server.state()) && source.writes()
}

/// Rewinds the server at a place to the one at another place, and answers what it kept.
fn rewind_to(servers: &mut [Server], place: usize, from: usize) -> Result<Rewound, AllocError>
    requires apart { place ≢ from }
    requires own { place < length servers.old }
    requires source { from < length servers.old }
    requires may { IsTrue (may_rewind_at servers.old place from) }
    ensures rewind { IfOk result (λ rewind. Some rewind ≡ rewind_at servers.old place from) }
    ensures ok { OnOk result (servers.new ≡ rewound_at servers.old place from) }
    ensures err { OnErr result (servers.new ≡ servers.old) }
{
    if place < from {
        let (low, high) = servers.split_at_mut(from);
        rewind_one(&mut low[place], &high[0])
    } else {
        let (low, high) = servers.split_at_mut(place);
        rewind_one(&mut high[0], &low[from])
    }
}

/// Makes the server at a place a clone of the one at another place.
fn clone_to(servers: &mut [Server], place: usize, from: usize) -> Result<(), AllocError>
    requires apart { place ≢ from }
    requires own { place < length servers.old }
    requires source { from < length servers.old }
    requires may { IsTrue (may_clone_at servers.old place from) }
    ensures ok { OnOk result (servers.new ≡ cloned_at servers.old place from) }
    ensures err { OnErr result (servers.new ≡ servers.old) }
{
    if place < from {
        let (low, high) = servers.split_at_mut(from);
        clone_one(&mut low[place], &high[0])
    } else {
        let (low, high) = servers.split_at_mut(place);
        clone_one(&mut high[0], &low[from])
    }
}

/// Rewinds a server to a source, which it may be, and answers what it kept. It fails only for want of memory.
fn rewind_one(server: &mut Server, source: &Server) -> Result<Rewound, AllocError>
    requires { IsTrue (may_rewind server.old source.now) }
    ensures rewind { IfOk result (λ rewind. Some rewind ≡ rewind_of server.old source.now) }
    ensures ok { OnOk result (server.new ≡ rewound server.old source.now) }
    ensures err { OnErr result (server.new ≡ server.old) }
{
    match server.rewind(source) {
        Ok(at) => Ok(Rewound {
            kept: entry_count(server),
            at,
        }),
        Err(_) => Err(AllocError),
    }
}

/// Makes a server a clone of a source, which it may be. It fails only for want of memory.
fn clone_one(server: &mut Server, source: &Server) -> Result<(), AllocError>
    requires { IsTrue (may_clone server.old source.now) }
    ensures ok { OnOk result (server.new ≡ cloned server.old source.now) }
    ensures err { OnErr result (server.new ≡ server.old) }
{
    match server.clone_from(source) {
        Ok(()) => Ok(()),
        Err(_) => Err(AllocError),
    }
}

/// How many entries its log has.
fn entry_count(server: &Server) -> u64
    ensures { result ≡ length (entries_of server.now.log) }
{
    match server.log() {
        Some(log) => log.len() as u64,
        None => 0,
    }
}

/// Whether a server waits for a copy.
fn is_creating(state: State) -> bool
    ensures { result ≡ is_creating state }
{
    matches!(state, State::Creating)
}
