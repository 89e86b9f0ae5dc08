//! The keys of a cluster's key store: what they are, what stands at each, and what is asked of them.
#![tactic(auto)]

mod action;
mod config;
mod config_value;
mod key;
mod txn;
mod txn_kind;
mod value;

pub use action::{FailoverKind, OperatorAction, OperatorRequest};
pub use config::Config;
pub use config_value::ConfigValue;
pub use key::Key;
pub use txn::{Expected, LeaseTxn, OperatorTxn, SyncTxn, Txn};
pub use txn_kind::TxnKind;
pub use value::{FailoverKey, HistoryRow, KeyEntry, MemberInfo, Planned, SyncKey, Value};
