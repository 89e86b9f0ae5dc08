//! A call of a door, which only proofs read.
ghost use Rattle.std.specs.Prelude.{◌≡◌};
ghost use Rattle.pat_door.specs.Doors.{Accepted, Failed, Opened};

use ghost_list::GhostList;
use std::marker::Model;

/// Which call it was.
#[derive(Clone, Copy)]
pub(crate) enum CallKind {
    Opened,
    Accepted,
    Failed,
}

/// What a door was called for.
#[derive(Drop)]
pub(crate) struct Call {
    kind: CallKind,
    /// The address of one that opened the door.
    address: GhostList<u8>,
}

impl Model for Call {
    ghost use Rattle.pat_door.specs.Calls.{call_of};
    ghost use Rattle.pat_door.specs.Doors.{DoorCall};

    ghost Value = { DoorCall };

    ghost view = { λ call. call_of call.kind call.address.items };
}

impl Call {
    /// The door was opened at this address.
    pub(crate) fn opened(address: &[u8]) -> Call
        ensures { result ≡ Opened address.now }
    {
        Call {
            kind: CallKind::Opened,
            address: bytes_of(address),
        }
    }

    /// A connection was accepted.
    pub(crate) fn accepted() -> Call
        ensures { result ≡ Accepted }
    {
        Call {
            kind: CallKind::Accepted,
            address: GhostList::new(),
        }
    }

    /// A read or a write failed.
    pub(crate) fn failed() -> Call
        ensures { result ≡ Failed }
    {
        Call {
            kind: CallKind::Failed,
            address: GhostList::new(),
        }
    }
}

/// These bytes, for proofs alone.
fn bytes_of(bytes: &[u8]) -> GhostList<u8>
    ensures { result.items ≡ bytes.now }
{
    let mut items = GhostList::new();
    for byte in bytes {
        items = items.and(byte);
    }
    items
}
