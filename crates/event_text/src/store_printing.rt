//! The printed lines of what happens at the key store.
ghost use Rattle.std.specs.Prelude.{◌≡◌, ◌++◌, OnOk, codes, string_bytes};
ghost use Rattle.std.specs.Fmt.{decimal};
ghost use Rattle.pat_base.specs.Name.{name_bytes};
ghost use Rattle.event_book.specs.Listing.{listed};
ghost use Rattle.event_book.specs.StoreText.{store_line, granted_line, lease_line, operator_line, quorum_end, sync_line};
ghost use Rattle.event_book.specs.Text.{bytes_or_none};

use crate::listing::write_listed;
use crate::named_line::write_named_line;
use event_book::{Member, Names, StoreEvent};
use pat_base::{Name, Ticks};
use std::alloc::AllocError;
use store_keys::{LeaseTxn, OperatorTxn, SyncTxn, Txn};

/// Appends the line of what happens at the key store, if it has one. It fails only for want of memory.
pub fn write_store_line(
    line: &mut String,
    tick: Ticks,
    event: &StoreEvent,
) -> Result<(), AllocError>
    ensures { OnOk result (string_bytes line.new ≡ string_bytes line.old ++ bytes_or_none (store_line tick.0 event.now)) }
{
    match event {
        StoreEvent::Granted {
            by,
            txn,
            standbys,
            ..
        } => write_granted_line(line, tick, *by, txn.get(), standbys),
        StoreEvent::Refused {
            by,
            request,
            key,
            found,
            ..
        } => {
            let name = by.name;
            write!(
                line,
                "{tick} the {request} of {name} is refused, {key} {found}\n"
            )
        }
        StoreEvent::LeaderExpired { holder } => {
            let name = holder.name;
            write!(line, "{tick} the leader key of {name} expires\n")
        }
        StoreEvent::Expired { .. } => Ok(()),
    }
}

fn write_granted_line(
    line: &mut String,
    tick: Ticks,
    by: Member,
    txn: &Txn,
    standbys: &Names,
) -> Result<(), AllocError>
    ensures { OnOk result (string_bytes line.new ≡ string_bytes line.old ++ bytes_or_none (granted_line tick.0 (name_bytes by.name) txn.now standbys.now)) }
{
    match txn {
        Txn::Touch { .. } => Ok(()),
        Txn::Lease(txn) => write_lease_line(line, tick, by.name, txn),
        Txn::Sync(txn) => write_sync_line(line, tick, by.name, txn, standbys),
        Txn::Operators(txn) => write_operator_line(line, tick, by.name, txn),
    }
}

fn write_lease_line(
    line: &mut String,
    tick: Ticks,
    name: Name,
    txn: &LeaseTxn,
) -> Result<(), AllocError>
    ensures { OnOk result (string_bytes line.new ≡ string_bytes line.old ++ bytes_or_none (lease_line tick.0 (name_bytes name) txn.now)) }
{
    match txn {
        LeaseTxn::Create { .. } => write_named_line(line, tick, name, " takes the leader key\n"),
        LeaseTxn::Renew { .. } => Ok(()),
        LeaseTxn::Release { .. } => write_named_line(
            line,
            tick,
            name,
            " releases the leader key\n",
        ),
    }
}

fn write_sync_line(
    line: &mut String,
    tick: Ticks,
    name: Name,
    txn: &SyncTxn,
    standbys: &Names,
) -> Result<(), AllocError>
    ensures { OnOk result (string_bytes line.new ≡ string_bytes line.old ++ bytes_or_none (sync_line tick.0 (name_bytes name) txn.now standbys.now)) }
{
    match txn {
        SyncTxn::Claim { .. } => write_named_line(line, tick, name, " claims the sync key\n"),
        SyncTxn::SetSync { quorum, .. } => {
            write!(line, "{tick} {name} publishes sync standbys ")?;
            end_by_published(line, standbys.as_slice(), *quorum)
        }
        SyncTxn::DropSync { .. } => write_named_line(line, tick, name, " removes the sync key\n"),
    }
}

/// Ends a line by the standbys that are published, and how many of them may lack a commit where that is said.
fn end_by_published(
    line: &mut String,
    standbys: &[Name],
    quorum: Option<u8>,
) -> Result<(), AllocError>
    ensures { OnOk result (string_bytes line.new ≡ string_bytes line.old ++ (listed (codes "none") standbys.now ++ quorum_end quorum)) }
{
    write_listed(line, "none", standbys)?;
    match quorum {
        None => line.push_str("\n"),
        Some(may_lack) => write!(line, " quorum {may_lack}\n"),
    }
}

fn write_operator_line(
    line: &mut String,
    tick: Ticks,
    name: Name,
    txn: &OperatorTxn,
) -> Result<(), AllocError>
    ensures { OnOk result (string_bytes line.new ≡ string_bytes line.old ++ bytes_or_none (operator_line tick.0 (name_bytes name) txn.now)) }
{
    match txn {
        OperatorTxn::SetFailover { .. } => write_failover_line(line, tick, name),
        OperatorTxn::DropFailover { .. } => write_named_line(
            line,
            tick,
            name,
            " clears the failover key\n",
        ),
        OperatorTxn::SetConfig { .. } => write_named_line(
            line,
            tick,
            name,
            " changes the configuration\n",
        ),
        OperatorTxn::Schedule { .. } => Ok(()),
        OperatorTxn::Unschedule { .. } => Ok(()),
        OperatorTxn::Fire { .. } => write_failover_line(line, tick, name),
    }
}

/// Appends that a member writes the failover key.
fn write_failover_line(line: &mut String, tick: Ticks, name: Name) -> Result<(), AllocError>
    ensures { OnOk result (string_bytes line.new ≡ string_bytes line.old ++ (decimal tick.0 ++ (codes " " ++ (name_bytes name ++ codes " writes the failover key\n")))) }
{
    write_named_line(line, tick, name, " writes the failover key\n")
}
