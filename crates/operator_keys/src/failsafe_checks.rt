//! The check of failsafe requests.
ghost use Rattle.std.specs.Prelude.{◌≡◌, option_map, option_and_then, option_copied};
ghost use Rattle.serde_json.specs.View.{view};
ghost use Rattle.operator_keys.specs.FailsafeChecks.{unless_same, other_named, number_at, is_in_range, is_lease_span, hold_within, hold_for, hold_in_body, where_on, asked_where_on, hold_asked, failsafe_of};
ghost use Rattle.operator_keys.specs.Refusals.{Answers};

use crate::body::{bad_body, json_of, text_at};
use crate::{CheckFault, Refused};
use cluster_config::{Setting, SettingRange};
use cluster_view::{AgentView, Snapshot};
use operator_answers::{BAD_GATEWAY, SERVICE_UNAVAILABLE, Text};
use pat_base::{Host, MemberId, Name, TICKS_OF_SECOND, member_named};
use serde_json::Value;
use std::alloc::Global;
use store_keys::OperatorRequest;

/// The hold that another member asks for, by the body of its request and by what the agent shows that is to judge it; or why it is
/// refused, by the first rule that applies (Patroni documentation, "DCS Failsafe Mode"). The body is a JSON object with the `name` of
/// a member of the cluster, another than the agent's own, and with `ttl`, how many seconds its leases last, a whole number from 20
/// to 86,400.
pub fn check_failsafe(
    alloc: Global,
    view: &AgentView<'_>,
    bytes: &[u8],
) -> Result<OperatorRequest, CheckFault>
    ensures { Answers result (failsafe_of view.now bytes.now) }
{
    match view.seen {
        None => Err(CheckFault::Refused(Refused {
            status: SERVICE_UNAVAILABLE,
            text: Text::NoStoreAnswer,
        })),
        Some(seen) => hold_asked(alloc, view.me, bytes, seen),
    }
}

/// The hold that a body asks of this member by this snapshot.
fn hold_asked(
    alloc: Global,
    me: MemberId,
    bytes: &[u8],
    seen: &Snapshot,
) -> Result<OperatorRequest, CheckFault>
    ensures { Answers result (hold_asked me bytes.now seen.now) }
{
    let body = json_of(alloc, bytes)?;
    let hold = match &body {
        None => None,
        Some(body) => hold_in_body(me, seen.members(), body),
    };
    Ok(asked_where_on(seen.config().failsafe_mode, hold)?)
}

/// The hold that a body asks of this member, where these are the members of the cluster.
fn hold_in_body(me: MemberId, members: &[(Name, Host)], body: &Value) -> Option<OperatorRequest>
    ensures { result ≡ hold_in_body me members.now (view body.now) }
{
    let from = other_named(me, members, text_at("name", body));
    hold_for(from, number_at("ttl", body))
}

/// The other member that has this text as its name, if there is one.
fn other_named(me: MemberId, members: &[(Name, Host)], text: Option<&str>) -> Option<MemberId>
    ensures { result ≡ option_and_then (other_named me members.now) (option_copied text.entry) }
{
    let member = member_named(members, text?)?;
    unless_same(me, member)
}

fn unless_same(me: MemberId, member: MemberId) -> Option<MemberId>
    ensures { result ≡ unless_same me member }
{
    if member.number == me.number {
        None
    } else {
        Some(member)
    }
}

/// The whole number at a name of an object, if there is one.
fn number_at(name: &str, body: &Value) -> Option<u64>
    ensures { result ≡ number_at name.now (view body.now) }
{
    body.get(name)?.as_u64()
}

/// The hold that this member asks for, for so many seconds.
fn hold_for(from: Option<MemberId>, seconds: Option<u64>) -> Option<OperatorRequest>
    ensures { result ≡ hold_for from seconds }
{
    hold_within(from?, seconds?)
}

fn hold_within(from: MemberId, seconds: u64) -> Option<OperatorRequest>
    ensures { result ≡ hold_within from seconds }
{
    if !is_lease_span(seconds) {
        return None;
    }
    Some(OperatorRequest::Hold {
        from,
        ttl: (TICKS_OF_SECOND * seconds) as u32,
    })
}

/// Whether a lease may last so many seconds.
fn is_lease_span(seconds: u64) -> bool
    ensures { result ≡ is_lease_span seconds }
{
    is_in_range(Setting::Ttl.range(), seconds)
}

fn is_in_range(range: Option<SettingRange>, n: u64) -> bool
    ensures { result ≡ is_in_range range n }
{
    match range {
        None => false,
        Some(range) => range.least <= n && n <= range.greatest,
    }
}

/// A hold that is asked for, where failsafe mode is on.
fn asked_where_on(mode: bool, hold: Option<OperatorRequest>) -> Result<OperatorRequest, Refused>
    ensures { result ≡ asked_where_on mode hold }
{
    match hold {
        None => Err(bad_body()),
        Some(hold) => where_on(mode, hold),
    }
}

fn where_on(mode: bool, hold: OperatorRequest) -> Result<OperatorRequest, Refused>
    ensures { result ≡ where_on mode hold }
{
    if mode {
        Ok(hold)
    } else {
        Err(Refused {
            status: BAD_GATEWAY,
            text: Text::Refused,
        })
    }
}
