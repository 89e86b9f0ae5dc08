//! The checks of switchovers and failovers.
ghost use Rattle.std.specs.Prelude.{◌≡◌, Ok, Err, IfOk, IfErr};
ghost use Rattle.serde_json.specs.View.{view};
ghost use Rattle.operator_keys.specs.Checks.{seen_by, switchover_by, failover_by, switchover_of, failover_of};
ghost use Rattle.operator_keys.specs.Refusals.{Answers};

use crate::asked::asked_by;
use crate::body::body_of;
use crate::failing_over::{failover_refusal, switchover_refusal};
use crate::refusal::judged;
use crate::{CheckFault, Refused};
use cluster_view::{AgentView, Snapshot};
use operator_answers::{SERVICE_UNAVAILABLE, Text};
use serde_json::Value;
use std::alloc::Global;
use store_keys::FailoverKey;

/// The failover key by which a switchover is asked for, by the body of its request and by what the agent shows that has it
/// to carry out; or why it is refused, by the first rule that applies (Patroni's documentation of the REST API, on `POST
/// /switchover`). The body is a JSON object that names the leader, which is to step down, and may name the candidate,
/// which is to lead, each by the name of the member.
pub fn check_switchover(
    alloc: Global,
    view: &AgentView<'_>,
    bytes: &[u8],
) -> Result<FailoverKey, CheckFault>
    ensures { Answers result (switchover_of view.now bytes.now) }
{
    let body = body_of(alloc, bytes)?;
    let seen = seen_by(view)?;
    Ok(switchover_by(&body, seen)?)
}

/// The failover key by which a failover is asked for, by the body of its request and by what the agent shows that has it
/// to carry out; or why it is refused, by the first rule that applies (Patroni's documentation of the REST API, on `POST
/// /failover`). The body is a JSON object that names the candidate, which is to lead, by the name of the member. It may
/// name a leader, which counts for nothing.
pub fn check_failover(
    alloc: Global,
    view: &AgentView<'_>,
    bytes: &[u8],
) -> Result<FailoverKey, CheckFault>
    ensures { Answers result (failover_of view.now bytes.now) }
{
    let body = body_of(alloc, bytes)?;
    let seen = seen_by(view)?;
    Ok(failover_by(&body, seen)?)
}

/// The snapshot by which a request is judged.
pub(crate) fn seen_by<'a>(view: &AgentView<'a>) -> Result<&'a Snapshot, Refused>
    ensures ok { IfOk result (λ seen. seen_by view.now ≡ Ok seen.now) }
    ensures err { IfErr result (λ e. seen_by view.now ≡ Err e) }
{
    let Some(seen) = view.seen else {
        return Err(Refused {
            status: SERVICE_UNAVAILABLE,
            text: Text::NoStoreAnswer,
        });
    };
    if view.waits {
        return Err(Refused {
            status: SERVICE_UNAVAILABLE,
            text: Text::AnotherWaits,
        });
    }
    Ok(seen)
}

fn switchover_by(body: &Value, seen: &Snapshot) -> Result<FailoverKey, Refused>
    ensures { result ≡ switchover_by (view body.now) seen.now }
{
    let asked = asked_by(body, seen.members());
    judged(switchover_refusal(asked, seen))?;
    Ok(FailoverKey {
        leader: asked.leader.member(),
        candidate: asked.candidate.member(),
    })
}

fn failover_by(body: &Value, seen: &Snapshot) -> Result<FailoverKey, Refused>
    ensures { result ≡ failover_by (view body.now) seen.now }
{
    let asked = asked_by(body, seen.members());
    judged(failover_refusal(asked, seen))?;
    Ok(FailoverKey {
        leader: None,
        candidate: asked.candidate.member(),
    })
}
