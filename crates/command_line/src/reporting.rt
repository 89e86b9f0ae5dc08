//! What is told on the error output.
ghost use Rattle.command_line.specs.Status.{message_of, IsReported};

use crate::ending::{Ending, message};
use pat_outside::{Sink, write_all};

/// Says in one line what isn't done.
pub fn report<E: Sink>(err: &mut E, ending: Ending)
    ensures { IsReported E.Sink err.old err.new (message_of ending) }
{
    let line = message(ending);
    let _ = write_all(err, line.as_str().as_bytes());
}
