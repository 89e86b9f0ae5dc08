//! What the bars of a lane say.
ghost use Rattle.std.specs.Prelude.{◌≡◌};
ghost use Rattle.picture.specs.Bands.{agent_paint, band_paint, is_in, key_paint, paint_in, server_paint};

use run_reading::{Happening, Sight};
use svg::Paint;

/// The bars of a lane, one above the other.
#[derive(Clone, Copy, PartialEq, Eq)]
pub(crate) enum Band {
    /// What the member's server is.
    Server,
    /// Whether the member has the leader key.
    Key,
    /// What its agent is, where it doesn't run as ever.
    Agent,
}

/// What a band is painted as from a line on: that of this lane says so.
pub(crate) fn paint_in(band: Band, lane: Option<usize>, sight: &Sight) -> Option<Paint>
    ensures { result ≡ paint_in band lane sight.now }
{
    if is_in(sight.lane(), lane) {
        band_paint(band, sight.happening())
    } else {
        None
    }
}

/// Whether two lanes are one.
pub(crate) fn is_in(lane: Option<usize>, other: Option<usize>) -> bool
    ensures { result ≡ is_in lane other }
{
    match (lane, other) {
        (Some(lane), Some(other)) => lane == other,
        (None, None) => true,
        _ => false,
    }
}

fn band_paint(band: Band, happening: Happening) -> Option<Paint>
    ensures { result ≡ band_paint band happening }
{
    match band {
        Band::Server => server_paint(happening),
        Band::Key => key_paint(happening),
        Band::Agent => agent_paint(happening),
    }
}

fn server_paint(happening: Happening) -> Option<Paint>
    ensures { result ≡ server_paint happening }
{
    match happening {
        Happening::AcceptsWrites => Some(Paint::Primary),
        Happening::AcceptsNoMore => Some(Paint::Stopping),
        Happening::Crashes | Happening::IsReset => Some(Paint::Crashed),
        Happening::IsPromoted => Some(Paint::Starting),
        Happening::StartsAsReplica
        | Happening::Follows
        | Happening::IsCloned
        | Happening::IsRewound => Some(Paint::Replica),
        Happening::IsWiped => Some(Paint::Wiped),
        _ => None,
    }
}

fn key_paint(happening: Happening) -> Option<Paint>
    ensures { result ≡ key_paint happening }
{
    match happening {
        Happening::TakesKey => Some(Paint::Holder),
        Happening::ReleasesKey | Happening::KeyExpires => Some(Paint::Ground),
        _ => None,
    }
}

fn agent_paint(happening: Happening) -> Option<Paint>
    ensures { result ≡ agent_paint happening }
{
    match happening {
        Happening::IsHeld => Some(Paint::Held),
        Happening::IsKilled | Happening::IsReset => Some(Paint::Killed),
        Happening::DisablesWatchdog => Some(Paint::Paused),
        Happening::Resumes | Happening::IsStarted | Happening::Arms => Some(Paint::Ground),
        _ => None,
    }
}
