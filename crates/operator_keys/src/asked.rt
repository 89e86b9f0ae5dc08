//! What a body asks, by the members of the cluster.
ghost use Rattle.std.specs.Prelude.{◌≡◌, option_copied};
ghost use Rattle.serde_json.specs.View.{view};
ghost use Rattle.operator_keys.specs.Asking.{member_or_unknown, named_by, is_same_text, asked_by, is_nobody, member_if};

use crate::body::{is_there, text_at};
use pat_base::{Host, MemberId, Name, member_named};
use serde_json::Value;

/// Whom a body names at one of its names.
#[derive(Clone, Copy, PartialEq, Eq)]
pub(crate) enum Named {
    Nobody,
    /// No member of the cluster has that name.
    Unknown,
    Member(MemberId),
}

/// What a body asks: who is to step down, who is to lead, whether both have one name, and whether it is to be done later.
#[derive(Clone, Copy, PartialEq, Eq)]
pub(crate) struct Asked {
    pub leader: Named,
    pub candidate: Named,
    pub is_same: bool,
    pub is_scheduled: bool,
}

/// What a body that is an object asks, where these are the members of the cluster.
pub(crate) fn asked_by(body: &Value, members: &[(Name, Host)]) -> Asked
    ensures { result ≡ asked_by (view body.now) members.now }
{
    let leader = text_at("leader", body);
    let candidate = text_at("candidate", body);
    Asked {
        leader: named_by(members, leader),
        candidate: named_by(members, candidate),
        is_same: is_same_text(leader, candidate),
        is_scheduled: is_there("scheduled_at", body),
    }
}

/// Whom a text names.
fn named_by(members: &[(Name, Host)], text: Option<&str>) -> Named
    ensures { result ≡ named_by members.now (option_copied text.entry) }
{
    match text {
        None => Named::Nobody,
        Some(text) => member_or_unknown(member_named(members, text)),
    }
}

fn member_or_unknown(member: Option<MemberId>) -> Named
    ensures { result ≡ member_or_unknown member }
{
    match member {
        None => Named::Unknown,
        Some(member) => Named::Member(member),
    }
}

/// Whether two texts are there and are the same.
fn is_same_text(text: Option<&str>, other: Option<&str>) -> bool
    ensures { result ≡ is_same_text (option_copied text.entry) (option_copied other.entry) }
{
    match (text, other) {
        (Some(text), Some(other)) => text == other,
        _ => false,
    }
}

impl Named {
    /// Whether nobody is named.
    pub fn is_nobody(self) -> bool
        ensures { result ≡ is_nobody self }
    {
        matches!(self, Named::Nobody)
    }

    /// The member, if one is named.
    pub fn member(self) -> Option<MemberId>
        ensures { result ≡ member_if self }
    {
        match self {
            Named::Member(member) => Some(member),
            Named::Nobody | Named::Unknown => None,
        }
    }
}
