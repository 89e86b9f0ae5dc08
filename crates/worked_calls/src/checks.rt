//! What operators, and members in failsafe mode, ask of an agent by the body of a request: what is written, or why it is refused.
use crate::stop::Stop;
use crate::words::{first_word, letter, letter_or_none};
use cluster_config::ConfigText;
use cluster_view::AgentView;
use operator_keys::ConfigChange::{Patch, Replace};
use operator_keys::{
    CheckFault, Refused, check_configuration, check_failover, check_failsafe, check_reinit,
    check_restart, check_switchover,
};
use std::alloc::{AllocError, Global};
use store_keys::{ConfigValue, FailoverKey, OperatorRequest};

/// What `switchover`, `failover`, `patch`, `replace` and `failsafe`, each with a body, `restart` and `reinit` come to.
pub fn told(alloc: Global, view: &AgentView<'_>, asked: &str) -> Result<String, Stop> {
    let (word, body) = first_word(asked);
    let body = body.as_bytes();
    match word {
        "switchover" => failover_text(alloc, check_switchover(alloc, view, body)),
        "failover" => failover_text(alloc, check_failover(alloc, view, body)),
        "patch" => config_text(alloc, check_configuration(alloc, view, Patch, body)),
        "replace" => config_text(alloc, check_configuration(alloc, view, Replace, body)),
        "failsafe" => hold_text(alloc, check_failsafe(alloc, view, body)),
        "restart" => Ok(passed_text(alloc, check_restart(view))?),
        "reinit" => Ok(passed_text(alloc, check_reinit(view))?),
        _ => Err(Stop::Unknown),
    }
}

fn failover_text(alloc: Global, checked: Result<FailoverKey, CheckFault>) -> Result<String, Stop> {
    match checked {
        Ok(key) => {
            let leader = letter_or_none(alloc, key.leader)?;
            let candidate = letter_or_none(alloc, key.candidate)?;
            Ok(format!(in alloc; "from {leader} to {candidate}")?)
        }
        Err(fault) => fault_text(alloc, fault),
    }
}

fn config_text(alloc: Global, checked: Result<ConfigValue, CheckFault>) -> Result<String, Stop> {
    match checked {
        Ok(config) => Ok(String::from_str(alloc, config.text())?),
        Err(fault) => fault_text(alloc, fault),
    }
}

fn hold_text(alloc: Global, checked: Result<OperatorRequest, CheckFault>) -> Result<String, Stop> {
    match checked {
        Ok(OperatorRequest::Hold { from, ttl }) => {
            let from = letter(from);
            Ok(format!(in alloc; "hold for {from} over {ttl} ticks")?)
        }
        Ok(_) => Err(Stop::Unknown),
        Err(fault) => fault_text(alloc, fault),
    }
}

fn passed_text(alloc: Global, checked: Result<(), Refused>) -> Result<String, AllocError> {
    match checked {
        Ok(()) => String::from_str(alloc, "passes"),
        Err(refused) => refused_text(alloc, refused),
    }
}

fn fault_text(alloc: Global, fault: CheckFault) -> Result<String, Stop> {
    match fault {
        CheckFault::Refused(refused) => Ok(refused_text(alloc, refused)?),
        CheckFault::Memory => Err(Stop::Memory),
    }
}

fn refused_text(alloc: Global, refused: Refused) -> Result<String, AllocError> {
    let status = refused.status;
    format!(in alloc; "{status} {refused}")
}
