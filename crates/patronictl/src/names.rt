//! The names of members.
ghost use Rattle.std.specs.Prelude.{◌≡◌, IfOk, string_bytes};
ghost use Rattle.patronictl.specs.Names.{name_in, name_of};

use cluster_view::Snapshot;
use member_rows::declared_in;
use pat_base::{Host, MemberId, Name};
use std::alloc::{AllocError, Global};

/// The name of a member, empty where the cluster has no such member.
pub(crate) fn name_in(
    alloc: Global,
    seen: &Snapshot,
    member: MemberId,
) -> Result<String, AllocError>
    ensures { IfOk result (λ name. string_bytes name ≡ name_in seen.now member) }
{
    name_of(alloc, declared_in(seen, member))
}

fn name_of(alloc: Global, declared: Option<(Name, Host)>) -> Result<String, AllocError>
    ensures { IfOk result (λ name. string_bytes name ≡ name_of declared) }
{
    match declared {
        None => Ok(String::new(alloc)),
        Some((name, _)) => String::from_str(alloc, name.as_str()),
    }
}
