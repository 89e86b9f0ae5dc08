//! Why what an operator asks isn't done.
ghost use Rattle.std.specs.Prelude.{◌≡◌};
ghost use Rattle.std.specs.Result.{result_err};
ghost use Rattle.operator_keys.specs.Refusals.{refused_where, first_refusal};
ghost use Rattle.operator_keys.specs.declared.refusal.CheckFault.TheVariants as faults;

use operator_answers::Text;
use std::alloc::AllocError;
use thiserror::Error;

/// What a request of an operator is refused with: the status of HTTP and the body of the answer (RFC 9110, "Status Codes").
#[derive(Clone, Copy, Debug, PartialEq, Eq, Error)]
#[error("{text}")]
pub struct Refused {
    /// 400, 404, 412, 502 or 503.
    pub status: u16,
    /// What stands in the way.
    pub text: Text,
}

/// Why a body gave no failover key and no configuration.
#[derive(Clone, Copy, Debug, PartialEq, Eq, Error)]
pub enum CheckFault {
    /// Want of memory: nothing is said of the body.
    #[error("out of memory")]
    Memory,
    /// The request is refused.
    #[error("{0}")]
    Refused(Refused),
}

impl From<AllocError> for CheckFault {
    ghost from_gives = { λ _ e. e ≡ faults.Memory };

    fn from(_: AllocError) -> Self {
        CheckFault::Memory
    }
}

impl From<Refused> for CheckFault {
    ghost from_gives = { λ refused e. e ≡ faults.Refused refused };

    fn from(refused: Refused) -> Self {
        CheckFault::Refused(refused)
    }
}

/// This refusal, where it is so.
pub(crate) fn refused_where(applies: bool, status: u16, text: Text) -> Option<Refused>
    ensures { result ≡ refused_where applies status text }
{
    if applies {
        Some(Refused { status, text })
    } else {
        None
    }
}

/// What refuses by the first of these rules that applies. `None` exactly where none does.
pub(crate) fn first_refusal(rules: &[Option<Refused>]) -> Option<Refused>
    ensures { result ≡ first_refusal rules.now }
{
    for rule in rules {
        if let Some(refused) = rule {
            return Some(*refused);
        }
    }
    None
}

/// Whether nothing refuses, or what does.
pub(crate) fn judged(refusal: Option<Refused>) -> Result<(), Refused>
    ensures { result_err result ≡ refusal }
{
    match refusal {
        None => Ok(()),
        Some(refused) => Err(refused),
    }
}
