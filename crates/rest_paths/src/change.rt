//! What requests ask to be changed.
ghost use Rattle.std.specs.Prelude.{◌≡◌};
ghost use Rattle.rest_paths.specs.Asking.{change_by};

use crate::Operation;

/// What a request asks to be changed (Patroni documentation, "Patroni REST API").
#[derive(Clone, Copy, PartialEq, Eq)]
pub enum Change {
    /// `POST /switchover`: the leader is to hand over to another member ("Switchover and failover endpoints").
    Switchover,
    /// `DELETE /switchover`: a scheduled switchover is to be dropped (there too).
    DropSwitchover,
    /// `POST /failover`: another member is to lead, whether or not there is a leader (there too).
    Failover,
    /// `POST /restart`: the server is to restart ("Restart endpoint").
    Restart,
    /// `POST /reinitialize`: the server is to be wiped and copied anew ("Reinitialize endpoint").
    Reinitialize,
    /// `PATCH /config`: the configuration is to be changed where the content says so ("Config endpoint").
    PatchConfiguration,
    /// `PUT /config`: the content is to take the place of the configuration (there too).
    ReplaceConfiguration,
    /// `POST /failsafe`: another member, which leads without the key store, is to stay primary, and this one not to take the leader key
    /// ("DCS Failsafe Mode").
    Failsafe,
}

/// What is changed by an operation.
pub(crate) fn change_by(operation: Operation) -> Change
    ensures { result ≡ change_by operation }
{
    match operation {
        Operation::Switchover => Change::Switchover,
        Operation::Failover => Change::Failover,
        Operation::Restart => Change::Restart,
        Operation::Reinitialize => Change::Reinitialize,
    }
}
