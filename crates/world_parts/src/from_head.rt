//! What there is before the first step.
ghost use Rattle.std.specs.Prelude.{ℕ, ◌≡◌, ◌≤◌, ◌<◌, length, IfOk, Some, slice_get};
ghost use Rattle.pat_base.specs.MemberId.{member_of};
ghost use Rattle.script_model.specs.Script.{names_of};
ghost use Rattle.event_book.specs.Processes.{first_processes};
ghost use Rattle.event_book.specs.Members.{members_from};
ghost use Rattle.pat_base.specs.declared.member_id.TheConstants.{MOST_MEMBERS};
ghost use Rattle.cluster_model.specs.Machines.{hosts_of};
ghost use Rattle.cluster_model.specs.Starting.{options_of};

use event_book::{AgentProcess, Member};
use member_options::MemberOptions;
use pat_base::{Host, MemberId, Name};
use script_model::Head;
use std::alloc::{AllocError, Global};
use world_fields::machines::declared_options;

/// The declared members, numbered in order.
pub fn members_of(alloc: Global, head: &Head) -> Result<Vec<Member>, AllocError>
    ensures members { IfOk result (λ members. members.items ≡ members_from 0 (names_of head.now)) }
    ensures few { IfOk result (λ members. length members.items ≤ MOST_MEMBERS) }
{
    let mut members = Vec::new(alloc);
    for place in 0..head.member_count() {
        members.push(declared_at(head, place))?;
    }
    Ok(members)
}

/// The member at a place of the head.
fn declared_at(head: &Head, place: usize) -> Member
    requires few { place < MOST_MEMBERS }
    requires declared { place < length head.now.members }
    ensures id { member_of place ≡ Some result.id }
    ensures name { slice_get (names_of head.now) place ≡ Some result.name }
{
    match (MemberId::new(place as u8), head.member(place)) {
        (Some(id), Some(name)) => Member { id, name },
        _ => unreachable!(),
    }
}

/// What the head declares of its members beside their names.
pub fn options_of(alloc: Global, head: &Head) -> Result<Vec<MemberOptions>, AllocError>
    ensures { IfOk result (λ options. options.items ≡ options_of head.now) }
{
    let mut options = Vec::new(alloc);
    for place in 0..head.member_count() {
        options.push(options_at(head, place))?;
    }
    Ok(options)
}

/// What the head declares of the member at a place beside its name.
fn options_at(head: &Head, place: usize) -> MemberOptions
    requires { place < length head.now.members }
    ensures { slice_get (options_of head.now) place ≡ Some result }
{
    match head.options(place) {
        Some(options) => options,
        None => unreachable!(),
    }
}

/// Where members are reached, as snapshots tell agents.
pub fn hosts_of(
    alloc: Global,
    options: &[MemberOptions],
    members: &[Member],
) -> Result<Vec<(Name, Host)>, AllocError>
    ensures { IfOk result (λ hosts. hosts.items ≡ hosts_of options.now members.now) }
{
    let mut hosts = Vec::new(alloc);
    for member in members {
        hosts.push((member.name, declared_options(options, *member).host))?;
    }
    Ok(hosts)
}

/// So many processes of agents, each in its first incarnation.
pub fn processes_of(alloc: Global, count: usize) -> Result<Vec<AgentProcess>, AllocError>
    ensures { IfOk result (λ processes. processes.items ≡ first_processes count) }
{
    let mut processes = Vec::new(alloc);
    for made in 0..count {
        processes.push(AgentProcess {
            running: true,
            suspended: false,
            incarnation: 1,
        })?;
    }
    Ok(processes)
}
