//! What a script says of the watchdogs of its members, as the summary of a run reads it.
ghost use Rattle.std.specs.Prelude.{◌≡◌, ◌<◌, ◌≤◌, length, IfOk, slice_get, Some};
ghost use Rattle.pat_base.specs.declared.member_id.TheConstants.{MOST_MEMBERS};
ghost use Rattle.run_model.specs.Watches.{is_off, first_summary, declared_watch, watches_of};

use leader_key::Mode;
use member_options::MemberOptions;
use pat_base::Name;
use script_model::Head;
use std::alloc::{AllocError, Global};
use summary::Summary;
use summary_model::WatchOf;

/// The summary of a script of this head before the first event. It fails only for want of memory.
pub fn first_summary(alloc: Global, head: &Head) -> Result<Summary, AllocError>
    ensures { IfOk result (λ summary. summary ≡ first_summary head.now) }
{
    let watches = watches_of(alloc, head)?;
    Ok(Summary::new(&watches, &head.config().config()))
}

/// The watchdogs of a head's members, in order.
fn watches_of(alloc: Global, head: &Head) -> Result<Vec<WatchOf>, AllocError>
    ensures value { IfOk result (λ watches. watches.items ≡ watches_of head.now) }
    ensures few { IfOk result (λ watches. length watches.items ≤ MOST_MEMBERS) }
{
    let mut watches = Vec::new(alloc);
    for place in 0..head.member_count() {
        watches.push(watch_at(head, place))?;
    }
    Ok(watches)
}

/// The watchdog of the member at a place of the head.
fn watch_at(head: &Head, place: usize) -> WatchOf
    requires { place < length head.now.members }
    ensures { slice_get (watches_of head.now) place ≡ Some result }
{
    match (head.member(place), head.options(place)) {
        (Some(name), Some(options)) => declared_watch(name, options),
        _ => unreachable!(),
    }
}

/// The watchdog of a member, with its margin in ticks.
fn declared_watch(name: Name, options: MemberOptions) -> WatchOf
    ensures { result ≡ declared_watch (record { name = name; options = options }) }
{
    WatchOf {
        name,
        mode_off: is_off(options.watchdog),
        device_works: options.device_works,
        margin: options.margin.span(),
    }
}

/// Whether no watchdog is used.
fn is_off(mode: Mode) -> bool
    ensures { result ≡ is_off mode }
{
    match mode {
        Mode::Off => true,
        Mode::Automatic | Mode::Required => false,
    }
}
