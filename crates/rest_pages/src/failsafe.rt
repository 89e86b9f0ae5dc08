//! `/failsafe`: whom the leader may ask while the key store is out of reach (Patroni documentation, "DCS Failsafe Mode").
ghost use Rattle.std.specs.Prelude.{◌≡◌, IfOk, OnOk, option_map, string_bytes};
ghost use Rattle.serde_json.specs.Written.{compact_text};
ghost use Rattle.json_build.specs.Objects.{object_members};
ghost use Rattle.rest_pages.specs.Failsafe.{lists_member, listed_in, listed_numbered, listed_of, with_host, host_members, failsafe_data};
ghost use Rattle.member_rows.specs.Rows.{with_found};

use cluster_view::Snapshot;
use json_build::Object;
use member_rows::declared_in;
use pat_base::{Host, MOST_MEMBERS, MemberId, MemberSet, Name};
use std::alloc::{AllocError, Global};

/// The body of `/failsafe`: an object from the names of the members in the failsafe key to their hosts, which is empty where the key is
/// absent. `None` exactly where failsafe mode is off. It fails only for want of memory.
pub fn failsafe_text(alloc: Global, snapshot: &Snapshot) -> Result<Option<String>, AllocError>
    ensures { IfOk result (λ page. option_map string_bytes page ≡ option_map compact_text (failsafe_data snapshot.now)) }
{
    if !snapshot.config().failsafe_mode {
        return Ok(None);
    }
    let hosts = hosts_object(alloc, snapshot, snapshot.failsafe())?;
    Ok(Some(hosts.into_text(alloc)?))
}

/// The hosts of these members, at their names.
fn hosts_object(
    alloc: Global,
    snapshot: &Snapshot,
    members: Option<MemberSet>,
) -> Result<Object, AllocError>
    ensures { IfOk result (λ hosts. object_members hosts ≡ host_members (listed_of snapshot.now members)) }
{
    let mut hosts = Object::new(alloc);
    for number in 0..MOST_MEMBERS as u8 {
        put_found(
            &mut hosts,
            alloc,
            listed_numbered(snapshot, members, number),
        )?;
    }
    Ok(hosts)
}

/// Puts the host of a member, if there is one.
fn put_found(
    hosts: &mut Object,
    alloc: Global,
    found: Option<(Name, Host)>,
) -> Result<(), AllocError>
    ensures { OnOk result (object_members hosts.new ≡ with_found with_host (object_members hosts.old) found) }
{
    match found {
        None => Ok(()),
        Some((name, host)) => hosts.put_text(alloc, name.as_str(), host.as_str()),
    }
}

/// The name and the host of the member of this number, where the set lists it.
fn listed_numbered(
    snapshot: &Snapshot,
    members: Option<MemberSet>,
    number: u8,
) -> Option<(Name, Host)>
    ensures { result ≡ listed_numbered snapshot.now members number }
{
    let member = MemberId::new(number)?;
    listed_in(snapshot, members, member)
}

fn listed_in(
    snapshot: &Snapshot,
    members: Option<MemberSet>,
    member: MemberId,
) -> Option<(Name, Host)>
    ensures { result ≡ listed_in snapshot.now members member }
{
    if lists_member(members, member) {
        declared_in(snapshot, member)
    } else {
        None
    }
}

/// Whether a set, if there is one, lists the member.
fn lists_member(members: Option<MemberSet>, member: MemberId) -> bool
    ensures { result ≡ lists_member members member }
{
    match members {
        None => false,
        Some(members) => members.contains(member),
    }
}
