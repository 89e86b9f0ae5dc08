//! What the world shows that a run leaves.
use cluster_view::{AgentView, Snapshot};
use pat_base::{Host, MOST_MEMBERS, MemberId, Name};
use pat_world::World;
use rest_pages::patroni_text;
use std::alloc::{AllocError, Global};
use store_keys::{Key, MemberInfo, Value};

/// Appends what each agent that runs shows: its page `/patroni`, and where it would reach each member that told of itself, with what that
/// member told.
pub fn write_views(text: &mut String, alloc: Global, world: &World) -> Result<(), AllocError> {
    for number in 0..MOST_MEMBERS as u8 {
        if let Some(view) = MemberId::new(number).and_then(|member| world.view(member)) {
            write_view(text, alloc, &view)?;
        }
    }
    Ok(())
}

fn write_view(text: &mut String, alloc: Global, view: &AgentView<'_>) -> Result<(), AllocError> {
    let name = view.name;
    let page = patroni_text(alloc, view)?;
    write!(text, "{name} shows {page}\n")?;
    let Some(seen) = view.seen else {
        return Ok(());
    };
    for (number, (other, host)) in seen.members().iter().enumerate() {
        if let Some(info) = told_by(seen, number) {
            write!(text, "{name} reaches {other} at {host}, which tells")?;
            write_info(text, &info)?;
        }
    }
    Ok(())
}

/// What the member of this number told of itself.
fn told_by(seen: &Snapshot, number: usize) -> Option<MemberInfo> {
    let member = MemberId::new(u8::try_from(number).ok()?)?;
    match &seen.entry(Key::Member(member))?.value {
        Value::Member(info) => Some(*info),
        _ => None,
    }
}

/// Appends the host and the tags, each as an option of a member's line.
fn write_info(text: &mut String, info: &MemberInfo) -> Result<(), AllocError> {
    let host = info.host;
    let tags = info.tags;
    let (nofailover, nosync, noloadbalance) = (tags.nofailover, tags.nosync, tags.noloadbalance);
    let priority = tags.failover_priority;
    write!(
        text,
        " host={host} nofailover={nofailover} nosync={nosync} noloadbalance={noloadbalance} priority={priority}\n"
    )
}
