//! What the head of a script makes of the summary, before the first event.
ghost use Rattle.std.specs.Prelude.{◌≡◌, ◌≤◌, length, replicate, None};
ghost use Rattle.pat_base.specs.declared.member_id.TheConstants.{MOST_MEMBERS};
ghost use Rattle.summary_model.specs.Heads.{filled, is_watching, first_unwatched, head_breach, declared_mode};

use pat_base::{MOST_MEMBERS, Name, Ticks};
use summary_model::{Breach, Synchronous, WatchOf};

/// The margins of the watchdogs of these members, by the numbers of the members.
pub fn margins_of(members: &[WatchOf]) -> [Option<Ticks>; MOST_MEMBERS]
    requires { length members.now ≤ MOST_MEMBERS }
    ensures { result ≡ filled (replicate MOST_MEMBERS None) members.now }
{
    let mut margins = [None; MOST_MEMBERS];
    for (place, member) in members.iter().enumerate() {
        margins[place] = member.margin;
    }
    margins
}

/// Whether a watchdog is on and works.
fn is_watching(watchdog: &WatchOf) -> bool
    ensures { result ≡ is_watching watchdog.now }
{
    !watchdog.mode_off && watchdog.device_works
}

/// The first member in the order of the script whose watchdog is off or broken.
pub fn first_unwatched(members: &[WatchOf]) -> Option<Name>
    ensures { result ≡ first_unwatched members.now }
{
    for member in members {
        if !is_watching(member) {
            return Some(member.name);
        }
    }
    None
}

/// Which premise a head breaks, if it breaks one: a watchdog goes before a pause.
pub fn head_breach(unwatched: Option<Name>, pauses: bool) -> Option<Breach>
    ensures { result ≡ head_breach unwatched pauses }
{
    match unwatched {
        Some(name) => Some(Breach::Watchdog(name)),
        None => { if pauses { Some(Breach::Pause) } else { None } }
    }
}

/// Whether the cluster replicates synchronously, by its first configuration.
pub fn declared_mode(on: bool) -> Synchronous
    ensures { result ≡ declared_mode on }
{
    if on {
        Synchronous::On
    } else {
        Synchronous::Off
    }
}
