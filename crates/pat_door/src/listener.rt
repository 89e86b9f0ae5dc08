//! The trusted edge: a TCP listener as a door. It tells nothing of what comes or of what was answered.
ghost use Rattle.std.specs.Prelude.{[], ◌≡◌, ◌<◌, ◌≤◌, length, None, IfSome};

use crate::Door;
use crate::call::Call;
use ghost_list::GhostList;
use pat_outside::Failed;
use std::io::{Read, Write};
use std::net::{Net, OpenListener, OpenStream, Shutdown, TcpListener};
use std::str;

/// A door over a TCP listener of the network `R`. Each error is a fault, and so are an address that is no UTF-8, an `accept`
/// before it listens, a `read` or a `write` without an accepted connection, and a write of 0 bytes of a piece that has some.
#[derive(Drop)]
pub struct ListenerDoor<R: Net + Drop> {
    net: R,
    listener: Option<R::Listener>,
    stream: Option<R::Stream>,
    door_faults: u64,
    connection_faults: u64,
    /// What it was called for.
    heard: GhostList<Call>,
}

impl<R: Net + Drop> ListenerDoor<R> {
    /// A door that doesn't listen yet, with no fault so far.
    pub fn new(net: R) -> Self
        ensures door_faults { ⟦<ListenerDoor<R> as Door>⟧.door_faults result ≡ 0 }
        ensures connection_faults { ⟦<ListenerDoor<R> as Door>⟧.connection_faults result ≡ 0 }
        ensures unheard { ⟦<ListenerDoor<R> as Door>⟧.heard result [] }
        ensures untold { ⟦<ListenerDoor<R> as Door>⟧.told result ≡ None }
    {
        ListenerDoor {
            net,
            listener: None,
            stream: None,
            door_faults: 0,
            connection_faults: 0,
            heard: GhostList::new(),
        }
    }

    /// Shuts the present connection, where there is one. An error of that is no fault: nothing more is done with it.
    fn shut(&mut self)
        ensures door { self.new.door_faults ≡ self.old.door_faults }
        ensures line { self.new.connection_faults ≡ self.old.connection_faults }
        ensures heard { self.new.heard.items ≡ self.old.heard.items }
    {
        if let Some(stream) = self.stream.take() {
            let _ = stream.shutdown(Shutdown::Both);
        }
    }
}

/// A listener at an address, as `127.0.0.1:8008`.
fn listen<R: Net>(net: &R, address: &[u8]) -> Option<R::Listener> {
    let text = str::from_utf8(address).ok()?;
    TcpListener::bind(net, text).ok()
}

/// The next connection that comes to a listener.
fn next_stream<L: OpenListener>(listener: Option<&L>) -> Option<L::Stream> {
    let (stream, _) = listener?.accept().ok()?;
    Some(stream)
}

/// How many bytes were read. `None`: the call failed, or there is no connection.
fn read_some<S: Read>(stream: Option<&mut S>, buf: &mut [u8]) -> Option<usize>
    ensures { IfSome result (λ count. count ≤ length buf.old) }
{
    stream?.read(buf).ok()
}

/// How many bytes were written. `None`: the call failed or took nothing of a piece that has bytes, or there is no connection.
fn write_some<S: Write>(stream: Option<&mut S>, piece: &[u8]) -> Option<usize>
    ensures within { IfSome result (λ count. count ≤ length piece.now) }
    ensures some { IfSome result (λ count. 0 < length piece.now → 0 < count) }
{
    match stream?.write(piece) {
        Ok(count) if count > 0 || piece.is_empty() => Some(count),
        _ => None,
    }
}

impl<R: Net + Drop> Door for ListenerDoor<R> {
    ghost told = { λ _. None };

    ghost door_faults = { λ s. s.door_faults };

    ghost connection_faults = { λ s. s.connection_faults };

    ghost serves = { λ _ _. ⊥ };

    ghost takes = { λ _ _. ⊥ };

    ghost has_room = { λ _ _. ⊥ };

    ghost heard = { λ s calls. s.heard.items ≡ calls };

    ghost has_read = { λ _ _. Unit {0} };

    fn open(&mut self, address: &[u8]) -> Result<(), Failed> {
        match listen(&self.net, address) {
            Some(listener) => {
                self.listener = Some(listener);
                self.heard = self.heard.and(&Call::opened(address));
                Ok(())
            }
            None => {
                self.door_faults = self.door_faults.saturating_add(1);
                Err(Failed)
            }
        }
    }

    fn accept(&mut self) -> Result<(), Failed> {
        match next_stream(self.listener.as_ref()) {
            Some(stream) => {
                self.shut();
                self.stream = Some(stream);
                self.heard = self.heard.and(&Call::accepted());
                Ok(())
            }
            None => {
                self.door_faults = self.door_faults.saturating_add(1);
                Err(Failed)
            }
        }
    }

    fn read(&mut self, buf: &mut [u8]) -> Result<usize, Failed> {
        match read_some(self.stream.as_mut(), buf) {
            Some(count) => Ok(count),
            None => {
                self.connection_faults = self.connection_faults.saturating_add(1);
                self.heard = self.heard.and(&Call::failed());
                Err(Failed)
            }
        }
    }

    fn write(&mut self, piece: &[u8]) -> Result<usize, Failed> {
        match write_some(self.stream.as_mut(), piece) {
            Some(count) => Ok(count),
            None => {
                self.connection_faults = self.connection_faults.saturating_add(1);
                self.heard = self.heard.and(&Call::failed());
                Err(Failed)
            }
        }
    }

    fn hang_up(&mut self) {
        self.shut();
    }
}
