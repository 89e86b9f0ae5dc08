//! What lines of `patronictl` ask for, and what they come to by what a read of the key store gives.
use crate::bench::Bench;
use crate::requests::request_text;
use crate::stop::Stop;
use crate::words::{letter, letter_or_none};
use cluster_view::Snapshot;
use ctl_command::{Command, Setting};
use patronictl::{CtlAnswer, ctl_answer};
use std::alloc::{AllocError, Global};

/// What words ask for in the cluster, or their fault. Of a setting its path is told, too.
pub fn told(alloc: Global, bench: &Bench, words: &str) -> Result<String, Stop> {
    match Command::read(&bench.scope(), bench.members(), words) {
        Ok(command) => Ok(command_text(alloc, command)?),
        Err(fault) => Ok(format!(in alloc; "{fault}")?),
    }
}

fn command_text(alloc: Global, command: Command<'_>) -> Result<String, AllocError> {
    match command {
        Command::List => String::from_str(alloc, "list"),
        Command::History => String::from_str(alloc, "history"),
        Command::ShowConfig => String::from_str(alloc, "show the configuration"),
        Command::Pause => String::from_str(alloc, "pause"),
        Command::Resume => String::from_str(alloc, "resume"),
        Command::EditConfig(setting) => setting_text(alloc, &setting),
        Command::Switchover { leader, candidate } => {
            let leader = letter(leader);
            let candidate = letter_or_none(alloc, candidate)?;
            format!(in alloc; "switchover from {leader} to {candidate}")
        }
        Command::Failover { candidate } => {
            let candidate = letter(candidate);
            format!(in alloc; "failover to {candidate}")
        }
        Command::Restart(member) => format!(in alloc; "restart {}", letter(member)),
        Command::Reinit(member) => format!(in alloc; "reinit {}", letter(member)),
    }
}

/// A setting, each name of its path behind `/`, and its value in backticks.
fn setting_text(alloc: Global, setting: &Setting<'_>) -> Result<String, AllocError> {
    let (key, value) = (setting.key, setting.value);
    let mut text = format!(in alloc; "set {key} to `{value}` at ")?;
    for name in &setting.path(alloc)? {
        write!(text, "/{name}")?;
    }
    Ok(text)
}

/// What words come to: what they print, a line each, or whom they ask, and what.
pub fn answered(alloc: Global, seen: &Snapshot, words: &str) -> Result<String, AllocError> {
    match ctl_answer(alloc, seen, words)? {
        CtlAnswer::Prints(lines) => joined(alloc, &lines),
        CtlAnswer::Asks { member, request } => {
            let request = request_text(alloc, &request)?;
            format!(in alloc; "asks {}: {request}", letter(member))
        }
    }
}

/// The lines, each with a feed behind it, but for one alone.
fn joined(alloc: Global, lines: &[String]) -> Result<String, AllocError> {
    if let [line] = lines {
        return line.clone();
    }
    let mut text = String::new(alloc);
    for line in lines {
        text.push_str(line.as_str())?;
        text.push_str("\n")?;
    }
    Ok(text)
}
