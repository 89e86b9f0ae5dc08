//! Kinds of transactions.
ghost use Rattle.std.specs.Prelude.{◌≡◌};
ghost use Rattle.store_keys.specs.TxnKinds.{operator_kind};
ghost use Rattle.store_keys.specs.Words.{kind_text};

use crate::{LeaseTxn, OperatorTxn, SyncTxn, Txn};
use std::fmt;

/// What kind of transaction a request is, as printed lines name it.
#[derive(Clone, Copy, PartialEq, Eq)]
pub enum TxnKind {
    /// `Txn::Touch`.
    Touch,
    /// `LeaseTxn::Create`.
    Create,
    /// `LeaseTxn::Renew`.
    Renewal,
    /// `LeaseTxn::Release`.
    Release,
    /// `SyncTxn::Claim`.
    Claim,
    /// A new sync key, or none: `SyncTxn::SetSync` and `SyncTxn::DropSync`.
    SyncWrite,
    /// A new failover key, or one to come: `OperatorTxn::SetFailover`, `OperatorTxn::Schedule` and `OperatorTxn::Fire`.
    FailoverWrite,
    /// `OperatorTxn::DropFailover` and `OperatorTxn::Unschedule`.
    FailoverRemoval,
    /// `OperatorTxn::SetConfig`.
    ConfigurationWrite,
}

impl fmt::Display for TxnKind {
    ghost use Rattle.std.specs.Prelude.{Some};
    ghost use Rattle.store_keys.specs.Words.{kind_text};

    ghost output = { λ kind. Some (kind_text kind) };

    fn fmt<W: fmt::Write>(&self, f: &mut fmt::Formatter<W>) -> fmt::Result {
        f.write_str(kind_text(*self))
    }
}

fn kind_text(kind: TxnKind) -> &'static str
    ensures { result.now ≡ kind_text kind }
{
    match kind {
        TxnKind::Touch => "touch",
        TxnKind::Create => "create",
        TxnKind::Renewal => "renewal",
        TxnKind::Release => "release",
        TxnKind::Claim => "claim",
        TxnKind::SyncWrite => "sync write",
        TxnKind::FailoverWrite => "failover write",
        TxnKind::FailoverRemoval => "failover removal",
        TxnKind::ConfigurationWrite => "configuration write",
    }
}

impl Txn {
    ghost use Rattle.std.specs.Prelude.{◌≡◌};
    ghost use Rattle.store_keys.specs.TxnKinds.{txn_kind_of};

    /// Its kind.
    pub fn kind(&self) -> TxnKind
        ensures { result ≡ txn_kind_of self.now }
    {
        match self {
            Txn::Touch { .. } => TxnKind::Touch,
            Txn::Lease(LeaseTxn::Create { .. }) => TxnKind::Create,
            Txn::Lease(LeaseTxn::Renew { .. }) => TxnKind::Renewal,
            Txn::Lease(LeaseTxn::Release { .. }) => TxnKind::Release,
            Txn::Sync(SyncTxn::Claim { .. }) => TxnKind::Claim,
            Txn::Sync(SyncTxn::SetSync { .. }) | Txn::Sync(SyncTxn::DropSync { .. }) => {
                TxnKind::SyncWrite
            }
            Txn::Operators(txn) => operator_kind(txn),
        }
    }
}

/// The kind of what operators ask for.
fn operator_kind(txn: &OperatorTxn) -> TxnKind
    ensures { result ≡ operator_kind txn.now }
{
    match txn {
        OperatorTxn::SetFailover { .. } | OperatorTxn::Schedule { .. } | OperatorTxn::Fire { .. } =>
            { TxnKind::FailoverWrite }
        OperatorTxn::DropFailover { .. } | OperatorTxn::Unschedule { .. } => {
            TxnKind::FailoverRemoval
        }
        OperatorTxn::SetConfig { .. } => TxnKind::ConfigurationWrite,
    }
}
