//! What the key store holds at a moment, for an answer that tells it.
ghost use Rattle.std.specs.Prelude.{◌≡◌, IfOk};
ghost use Rattle.lease_store.specs.Answers.{present_pairs};
ghost use Rattle.lease_store.specs.Copied.{items_if};
ghost use Rattle.event_book.specs.Flight.{snapshot_for};
ghost use Rattle.world_model.specs.Short.{CarriesRead};

use event_book::Body;
use lease_store::{Copies, Store};
use pat_base::Ticks;
use std::alloc::AllocError;

/// What the store holds at a moment, for a message that tells it. It fails only for want of memory.
pub fn snapshot_for(
    store: &mut Store,
    now: Ticks,
    body: &Body,
) -> Result<Option<Copies>, AllocError>
    ensures same { store.new ≡ store.old }
    ensures entries { IfOk result (λ snapshot. items_if snapshot ≡ snapshot_for body.now (present_pairs now.0 store.old.pairs)) }
    ensures read { IfOk result (λ snapshot. CarriesRead body.now (items_if snapshot)) }
{
    match body {
        Body::Snapshot | Body::Granted { .. } => {
            let entries = store.share_entries(now)?;
            Ok(Some(entries))
        }
        _ => Ok(None),
    }
}
