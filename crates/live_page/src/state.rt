//! The state of the cluster as the page shows it.
ghost use Rattle.std.specs.Prelude.{◌≡◌, ◌++◌, IfOk, OnOk, map, string_bytes};
ghost use Rattle.std.specs.List.{flat_map};
ghost use Rattle.live_page.specs.State.{checks_text, line_text, member_text, path_text, state_text, writes_text};

use pat_base::Ticks;
use std::alloc::{AllocError, Global};

/// Which health checks of a balancer a member answers with 200.
#[derive(Clone, Copy, Debug, PartialEq, Eq)]
pub struct Checks {
    /// `/primary`.
    pub primary: bool,
    /// `/replica`.
    pub replica: bool,
    /// `/sync`.
    pub sync: bool,
}

/// What the page shows of a member.
#[derive(Clone, Copy)]
pub struct MemberState<'a> {
    /// Its name.
    pub name: &'a str,
    /// Whether its server accepts writes.
    pub writes: bool,
    /// What it would answer a balancer, where its agent runs.
    pub checks: Option<Checks>,
}

/// The state as text: the clock in ticks of 100 ms, the lines of the member table, an empty line, and a line for each member. It
/// fails only for want of memory.
pub fn state_text(
    alloc: Global,
    clock: Ticks,
    table: &[String],
    members: &[MemberState<'_>],
) -> Result<String, AllocError>
    ensures { IfOk result (λ text. string_bytes text ≡ state_text clock.0 (map string_bytes table.now) members.now) }
{
    let mut text = format!(in alloc; "{}\n", clock.0)?;
    for line in table {
        push_line(&mut text, line.as_str())?;
    }
    text.push_str("\n")?;
    for member in members {
        push_member(&mut text, member)?;
    }
    Ok(text)
}

/// Appends a line.
fn push_line(text: &mut String, line: &str) -> Result<(), AllocError>
    ensures { OnOk result (string_bytes text.new ≡ string_bytes text.old ++ line_text line.now) }
{
    text.push_str(line)?;
    text.push_str("\n")?;
    Ok(())
}

/// Appends the line of a member.
fn push_member(text: &mut String, member: &MemberState<'_>) -> Result<(), AllocError>
    ensures { OnOk result (string_bytes text.new ≡ string_bytes text.old ++ member_text member.now) }
{
    text.push_str(member.name)?;
    text.push_str(writes_text(member.writes))?;
    push_checks(text, member.checks)?;
    text.push_str("\n")?;
    Ok(())
}

/// What stands behind a name, by whether the server accepts writes.
fn writes_text(writes: bool) -> &'static str
    ensures { result.now ≡ writes_text writes }
{
    if writes { ": accepts writes," } else { ":" }
}

/// Appends what a balancer would be answered.
fn push_checks(text: &mut String, checks: Option<Checks>) -> Result<(), AllocError>
    ensures { OnOk result (string_bytes text.new ≡ string_bytes text.old ++ checks_text checks) }
{
    let Some(checks) = checks else {
        return text.push_str(" no agent runs");
    };
    text.push_str(" answers")?;
    text.push_str(path_text(checks.primary, " /primary"))?;
    text.push_str(path_text(checks.replica, " /replica"))?;
    text.push_str(path_text(checks.sync, " /sync"))?;
    let none = !checks.primary && !checks.replica && !checks.sync;
    text.push_str(path_text(none, " no balancer"))?;
    Ok(())
}

/// A text where something holds, and nothing else.
fn path_text(holds: bool, text: &str) -> &str
    ensures { result.now ≡ path_text holds text.now }
{
    if holds { text } else { "" }
}
