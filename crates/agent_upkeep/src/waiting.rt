//! Which answers an agent waits for.
ghost use Rattle.std.specs.Prelude.{◌≡◌};
ghost use Rattle.agent_model.specs.Operators.{awaits_number};
ghost use Rattle.agent_model.specs.Snapshots.{awaits_read, is_read};

use agent_model::{PendingQuestion, Question};

/// The answer to this read is waited for.
pub fn awaits_read(waited: Option<PendingQuestion>, sequence: u64) -> bool
    ensures { result ≡ awaits_read waited sequence }
{
    match waited {
        None => false,
        Some(waited) => is_read(waited.question) && waited.sequence == sequence,
    }
}

fn is_read(question: Question) -> bool
    ensures { result ≡ is_read question }
{
    matches!(question, Question::Reading)
}

/// The agent itself waits for the answer of this number.
pub(crate) fn awaits_number(waited: Option<PendingQuestion>, sequence: u64) -> bool
    ensures { result ≡ awaits_number waited sequence }
{
    match waited {
        None => false,
        Some(waited) => waited.sequence == sequence,
    }
}
