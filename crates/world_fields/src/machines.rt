//! The machines of members, as their agents find them.
ghost use Rattle.std.specs.Prelude.{◌≡◌, ◌≤◌, ◌<◌, ◌^◌, IfSome, option_map, option_copied, length, slice_get};
ghost use Rattle.pg_cluster.specs.Servers.{without_spare};
ghost use Rattle.agent_model.specs.Agents.{IsWithin};
ghost use Rattle.pat_base.specs.declared.member_id.TheConstants.{MOST_MEMBERS};
ghost use Rattle.cluster_model.specs.Machines.{watchdog_of, machine_from, declared_options, who_of};

use agent_model::{Machine, Replication, Who};
use event_book::Member;
use leader_key::Watchdog;
use member_options::MemberOptions;
use pat_base::{Name, Ticks};
use pg_model::{Server, ServerStatus};

/// A machine of these parts. `None` exactly where one of them is absent.
pub fn machine_from(
    receives: bool,
    by_failsafe: bool,
    replication: Option<Replication>,
    options: Option<MemberOptions>,
    deadline: Option<Option<Ticks>>,
    hold: Option<Option<Ticks>>,
    server: Option<&Server>,
) -> Option<Machine>
    ensures machine { result ≡ machine_from receives by_failsafe replication options deadline hold (option_map without_spare (option_copied server.entry)) }
    ensures within { IfSome (option_copied server.entry) (λ s. s.timeline < 2 ^ 60) → IfSome result (λ machine. IsWithin machine.server) }
{
    let replication = replication?;
    let options = options?;
    let deadline = deadline?;
    let hold = hold?;
    let status = server?.status();
    Some(Machine {
        server: ServerStatus { receives, ..status },
        replication,
        watchdog: watchdog_of(options, deadline),
        by_failsafe,
        hold,
    })
}

/// The watchdog of a member with these options and this deadline.
fn watchdog_of(options: MemberOptions, deadline: Option<Ticks>) -> Watchdog
    ensures { result ≡ watchdog_of options deadline }
{
    Watchdog::with_deadline(
        options.watchdog,
        options.device_works,
        options.margin.span(),
        deadline,
    )
}

/// What is declared of a member beside its name.
pub fn declared_options(options: &[MemberOptions], member: Member) -> MemberOptions
    ensures { result ≡ declared_options options.now member }
{
    match options.get(member.id.number as usize) {
        None => MemberOptions::unsaid(),
        Some(options) => *options,
    }
}

/// Whose agent that of this member is, in a cluster of this name with these members, of whom these options are declared.
pub fn who_of(scope: Name, options: &[MemberOptions], members: &[Member], member: Member) -> Who
    requires { length members.now ≤ MOST_MEMBERS }
    ensures { result ≡ who_of scope options.now members.now member }
{
    let declared = declared_options(options, member);
    Who {
        me: member.id,
        members: members.len() as u8,
        scope,
        name: member.name,
        host: declared.host,
        tags: declared.tags,
    }
}

/// What is at a place. `None` exactly past the last one.
pub fn item_at<T: Copy>(items: &[T], place: usize) -> Option<T>
    ensures { result ≡ slice_get items.now place }
{
    let item = items.get(place)?;
    Some(*item)
}
