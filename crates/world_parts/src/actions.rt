//! What an agent is to do, once more.
ghost use Rattle.std.specs.Prelude.{◌≡◌, IfOk};

use std::alloc::AllocError;
use store_keys::{OperatorAction, OperatorRequest};

/// The same action. It fails only for want of memory.
pub fn copy_of(action: &OperatorAction) -> Result<OperatorAction, AllocError>
    ensures { IfOk result (λ copy. copy ≡ action.now) }
{
    Ok(OperatorAction {
        request: action.request,
        asked: copy_of_request(&action.asked)?,
    })
}

fn copy_of_request(asked: &OperatorRequest) -> Result<OperatorRequest, AllocError>
    ensures { IfOk result (λ copy. copy ≡ asked.now) }
{
    match asked {
        OperatorRequest::Failover { kind, failover } => Ok(OperatorRequest::Failover {
            kind: *kind,
            failover: *failover,
        }),
        OperatorRequest::Configuration(config) => {
            Ok(OperatorRequest::Configuration(config.try_clone()?))
        }
        OperatorRequest::Restart => Ok(OperatorRequest::Restart),
        OperatorRequest::Reinit => Ok(OperatorRequest::Reinit),
        OperatorRequest::Hold { from, ttl } => Ok(OperatorRequest::Hold {
            from: *from,
            ttl: *ttl,
        }),
    }
}
