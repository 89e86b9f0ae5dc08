//! The members that tell of themselves, in the order of their names.
ghost use Rattle.std.specs.Prelude.{◌≡◌, ◌≤◌, length, IfOk, OnOk};
ghost use Rattle.std.specs.List.{position, position_or_len};
ghost use Rattle.member_rows.specs.Rows.{with_found, declared_in, row_by, row_in, row_numbered, is_before, placed, rows_of};

use cluster_view::Snapshot;
use pat_base::{Host, MOST_MEMBERS, MemberId, Name};
use std::alloc::{AllocError, Global};
use store_keys::MemberInfo;

/// A member that tells of itself in the key store.
#[derive(Clone, Copy, PartialEq, Eq)]
pub struct Row {
    pub member: MemberId,
    /// Its name, by the cluster's list of members.
    pub name: Name,
    /// What it tells of itself.
    pub info: MemberInfo,
}

/// The members that tell of themselves, in the order of their names.
pub fn rows_of(alloc: Global, snapshot: &Snapshot) -> Result<Vec<Row>, AllocError>
    ensures { IfOk result (λ rows. rows.items ≡ rows_of snapshot.now) }
{
    let mut rows = Vec::new(alloc);
    for number in 0..MOST_MEMBERS as u8 {
        place_found(&mut rows, row_numbered(snapshot, number))?;
    }
    Ok(rows)
}

/// Places a row, if there is one.
fn place_found(rows: &mut Vec<Row>, found: Option<Row>) -> Result<(), AllocError>
    ensures { OnOk result (rows.new.items ≡ with_found placed rows.old.items found) }
{
    match found {
        None => Ok(()),
        Some(row) => place(rows, row),
    }
}

/// Puts a row before the first whose name is later.
fn place(rows: &mut Vec<Row>, row: Row) -> Result<(), AllocError>
    ensures { OnOk result (rows.new.items ≡ placed rows.old.items row) }
{
    let at = place_of(rows, &row);
    rows.insert(at, row)?;
    Ok(())
}

/// Where the first row stands whose name is later, and behind the last where there is none.
fn place_of(rows: &[Row], row: &Row) -> usize
    ensures place { result ≡ position_or_len (is_before row.now) rows.now }
    ensures within { result ≤ length rows.now }
{
    first_later(rows, row).unwrap_or(rows.len())
}

/// Where the first row stands whose name is later.
fn first_later(rows: &[Row], row: &Row) -> Option<usize>
    ensures { result ≡ position (is_before row.now) rows.now }
{
    rows.iter().position(|other| is_before(row, other))
}

/// Whether a row's name comes before that of another, in byte order.
fn is_before(row: &Row, other: &Row) -> bool
    ensures { result ≡ is_before row.now other.now }
{
    row.name.as_bytes().cmp(other.name.as_bytes()).is_lt()
}

/// The row of the member of this number, if it has one.
fn row_numbered(snapshot: &Snapshot, number: u8) -> Option<Row>
    ensures { result ≡ row_numbered snapshot.now number }
{
    match MemberId::new(number) {
        None => None,
        Some(member) => row_in(snapshot, member),
    }
}

/// The row of a member. `None` exactly where the cluster has no such member, or its key is absent.
fn row_in(snapshot: &Snapshot, member: MemberId) -> Option<Row>
    ensures { result ≡ row_in snapshot.now member }
{
    row_by(member, declared_in(snapshot, member), snapshot.info(member))
}

fn row_by(member: MemberId, declared: Option<(Name, Host)>, told: Option<MemberInfo>) -> Option<Row>
    ensures { result ≡ row_by member declared told }
{
    match (declared, told) {
        (Some((name, _)), Some(info)) => Some(Row { member, name, info }),
        _ => None,
    }
}

/// The name and the host of a member. `None` exactly where the cluster has no such member.
pub fn declared_in(snapshot: &Snapshot, member: MemberId) -> Option<(Name, Host)>
    ensures { result ≡ declared_in snapshot.now member }
{
    snapshot.members().get(member.number as usize).copied()
}
