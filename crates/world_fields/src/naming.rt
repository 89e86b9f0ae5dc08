//! The names of members that events list.
ghost use Rattle.std.specs.Prelude.{◌≡◌, IfOk};
ghost use Rattle.cluster_model.specs.Messages.{published_names};
ghost use Rattle.cluster_model.specs.Orders.{required_names};

use event_book::{Member, Names};
use pat_base::Required;
use std::alloc::{AllocError, Global};
use store_keys::{SyncTxn, Txn};

/// The names of those that commits wait for. It fails only for want of memory.
pub fn required_names(
    alloc: Global,
    members: &[Member],
    required: Required,
) -> Result<Names, AllocError>
    ensures { IfOk result (λ names. names ≡ required_names members.now required) }
{
    match required {
        Required::All(set) | Required::AtLeast { of: set, .. } => Names::of(alloc, set, members),
        _ => Ok(Names::none(alloc)),
    }
}

/// The names of the standbys that a request publishes. It fails only for want of memory.
pub fn published_names(alloc: Global, members: &[Member], txn: &Txn) -> Result<Names, AllocError>
    ensures { IfOk result (λ names. names ≡ published_names members.now txn.now) }
{
    match txn {
        Txn::Sync(SyncTxn::SetSync { standbys, .. }) => Names::of(alloc, *standbys, members),
        _ => Ok(Names::none(alloc)),
    }
}
