//! Moments as text.
ghost use Rattle.std.specs.Prelude.{◌≡◌};
ghost use Rattle.schedule_at.specs.Moments.{moment_of, unless_past, is_due};

use crate::MomentFault;
use crate::clock::first_tick_from;
use jiff::Timestamp;
use pat_base::Ticks;

/// The moment that a text names, as the first tick whose instant isn't before it. The text is an instant in the form of
/// RFC 3339, as `2024-01-01T00:00:25Z`, or in whatever other form jiff reads one (its `Timestamp`). `BadMoment` exactly
/// where jiff reads none, and else `Past` exactly where that tick isn't after the present one. It takes no memory.
pub fn moment(text: &str, present: Ticks) -> Result<Ticks, MomentFault>
    ensures { result ≡ moment_of text.now present.0 }
{
    match text.parse::<Timestamp>() {
        Ok(instant) => unless_past(first_tick_from(instant), present),
        Err(_) => Err(MomentFault::BadMoment),
    }
}

/// A moment, unless it isn't after the present.
fn unless_past(at: Ticks, present: Ticks) -> Result<Ticks, MomentFault>
    ensures { result ≡ unless_past at present.0 }
{
    if at <= present {
        Err(MomentFault::Past)
    } else {
        Ok(at)
    }
}

/// Whether a moment has come.
pub fn is_due(at: Ticks, present: Ticks) -> bool
    ensures { result ≡ is_due at.0 present.0 }
{
    at <= present
}
