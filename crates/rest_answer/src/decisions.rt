//! What an agent makes of a request for a change.
ghost use Rattle.std.specs.Prelude.{Result, option_copied};
ghost use Rattle.store_keys.specs.declared.action.OperatorRequest.TheVariants as requests;
ghost use Rattle.store_keys.specs.declared.value.FailoverKey.{FailoverKey};
ghost use Rattle.store_keys.specs.Settings.{Settings};
ghost use Rattle.operator_keys.specs.declared.refusal.Refused.{Refused};
ghost use Rattle.operator_keys.specs.Refusals.{Answers};
ghost use Rattle.rest_answer.specs.Decisions.{asking_for, change_on};

use cluster_view::AgentView;
use operator_answers::{NOT_FOUND, Text};
use operator_keys::{
    CheckFault, ConfigChange, Refused, check_configuration, check_failover, check_failsafe,
    check_reinit, check_restart, check_switchover,
};
use rest_paths::Change;
use std::alloc::Global;
use store_keys::{ConfigValue, FailoverKey, FailoverKind, OperatorRequest};

/// What an agent that shows this is to do to make this change with this content, or what it is refused with.
pub(crate) fn change_on(
    alloc: Global,
    view: &AgentView<'_>,
    change: Change,
    body: &[u8],
) -> Result<OperatorRequest, CheckFault>
    ensures { Answers result (change_on view.now (option_copied view.now.seen) change body.now) }
{
    match change {
        Change::Switchover => failing_over(
            FailoverKind::Switchover,
            check_switchover(alloc, view, body),
        ),
        Change::Failover => {
            failing_over(FailoverKind::Failover, check_failover(alloc, view, body))
        }
        Change::DropSwitchover => Err(CheckFault::Refused(Refused {
            status: NOT_FOUND,
            text: Text::NoScheduledSwitchover,
        })),
        Change::Restart => {
            check_restart(view)?;
            Ok(OperatorRequest::Restart)
        }
        Change::Reinitialize => {
            check_reinit(view)?;
            Ok(OperatorRequest::Reinit)
        }
        Change::PatchConfiguration => {
            configuring(check_configuration(alloc, view, ConfigChange::Patch, body))
        }
        Change::ReplaceConfiguration => {
            configuring(check_configuration(alloc, view, ConfigChange::Replace, body))
        }
        Change::Failsafe => check_failsafe(alloc, view, body),
    }
}

/// An agent is to have the failover key written that passed these checks.
fn failing_over(
    kind: FailoverKind,
    checked: Result<FailoverKey, CheckFault>,
) -> Result<OperatorRequest, CheckFault>
    ensures { (answer : Result FailoverKey Refused) → Answers checked answer → Answers result (asking_for (requests.Failover kind) answer) }
{
    match checked {
        Ok(failover) => Ok(OperatorRequest::Failover { kind, failover }),
        Err(fault) => Err(fault),
    }
}

/// An agent is to have the configuration written that passed these checks.
fn configuring(checked: Result<ConfigValue, CheckFault>) -> Result<OperatorRequest, CheckFault>
    ensures { (answer : Result Settings Refused) → Answers checked answer → Answers result (asking_for requests.Configuration answer) }
{
    match checked {
        Ok(config) => Ok(OperatorRequest::Configuration(config)),
        Err(fault) => Err(fault),
    }
}
