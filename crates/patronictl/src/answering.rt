//! What words come to.
ghost use Rattle.std.specs.Prelude.{◌≡◌, [], ◌∷◌, IfOk, codes};
ghost use Rattle.ctl_command.specs.Seen.{seen_fault};
ghost use Rattle.patronictl.specs.Acting.{acted_by};
ghost use Rattle.patronictl.specs.Answers.{Prints, answer_told, ctl_answer, fault_line, told_of};

use crate::{Acted, CtlAnswer, act};
use cluster_view::Snapshot;
use ctl_command::{Command, CtlFault};
use std::alloc::{AllocError, Global};

/// What the words of a command come to, by a snapshot of the key store, whose cluster and members they may name: the lines that are
/// printed, or a request to a member. A fault is told in one line, `ctl: ` and its name, and so is `no leader` where the leader is to be
/// asked and there is none. It fails only for want of memory.
pub fn ctl_answer(alloc: Global, seen: &Snapshot, words: &str) -> Result<CtlAnswer, AllocError>
    ensures { IfOk result (λ answer. answer_told answer ≡ ctl_answer seen.now words.now) }
{
    match Command::read(&seen.scope(), seen.members(), words) {
        Err(fault) => fault_answer(alloc, fault),
        Ok(command) => told_of(alloc, act(alloc, seen, &command)?),
    }
}

/// A fault, told in one line.
fn fault_answer(alloc: Global, fault: CtlFault<'_>) -> Result<CtlAnswer, AllocError>
    ensures { IfOk result (λ answer. answer_told answer ≡ Prints (fault_line (seen_fault fault.entry) ∷ [])) }
{
    let line = format!(in alloc; "ctl: {fault}")?;
    Ok(CtlAnswer::Prints(vec![in alloc; line]?))
}

/// What came of a command, as it is told.
fn told_of(alloc: Global, acted: Acted) -> Result<CtlAnswer, AllocError>
    ensures { IfOk result (λ answer. answer_told answer ≡ told_of (acted_by acted)) }
{
    match acted {
        Acted::Lines(lines) => Ok(CtlAnswer::Prints(lines)),
        Acted::Ask { member, request } => Ok(CtlAnswer::Asks { member, request }),
        Acted::NoLeader => no_leader(alloc),
    }
}

fn no_leader(alloc: Global) -> Result<CtlAnswer, AllocError>
    ensures { IfOk result (λ answer. answer_told answer ≡ Prints (codes "no leader" ∷ [])) }
{
    let line = String::from_str(alloc, "no leader")?;
    Ok(CtlAnswer::Prints(vec![in alloc; line]?))
}
