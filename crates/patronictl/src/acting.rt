//! What comes of each command.
ghost use Rattle.std.specs.Prelude.{◌≡◌, [], ◌∷◌, IfOk, option_map, string_bytes};
ghost use Rattle.cluster_view.specs.Snapshots.{leader_in};
ghost use Rattle.ctl_command.specs.Seen.{seen_command};
ghost use Rattle.ctl_command.specs.Settings.{setting_text};
ghost use Rattle.rest_message.specs.Requests.{request_text};
ghost use Rattle.text_table.specs.Tables.{table_lines};
ghost use Rattle.patronictl.specs.Acting.{Ask, Lines, act_of, acted_by, leader_asked, switchover_of, failover_of, setting_of};
ghost use Rattle.patronictl.specs.Names.{name_in};
ghost use Rattle.patronictl.specs.Requests.{config_change, posted};

use crate::Acted;
use crate::asking::{config_change, failover_body, posted, switchover_body};
use crate::history::history_table;
use crate::members::member_table;
use crate::names::name_in;
use crate::setting_body::setting_body;
use cluster_view::{LeaderEntry, Snapshot};
use ctl_command::{Command, Setting};
use pat_base::MemberId;
use rest_message::Request;
use rest_pages::config_text;
use std::alloc::{AllocError, Global};
use text_table::Table;

/// What comes of a command, by a snapshot of the key store (Patroni documentation, "patronictl").
///
/// - `list` and `history` give the lines of a table, `show-config` the text of the configuration as one line.
/// - `pause`, `resume` and `edit-config` ask the leader for a change of the configuration: `pause` is set to `true`, or dropped, or the
///   setting gets its value, each part of its key an object in the one before. A value that isn't JSON is a text.
/// - `switchover` and `failover` ask the leader for it, `restart` and `reinit` the member that they name.
///
/// `NoLeader` exactly where the leader is to be asked and the snapshot names none. It fails only for want of memory.
pub fn act(alloc: Global, seen: &Snapshot, command: &Command<'_>) -> Result<Acted, AllocError>
    ensures { IfOk result (λ acted. acted_by acted ≡ act_of seen.now (seen_command command.now)) }
{
    match command {
        Command::List => lines_of(alloc, &member_table(alloc, seen)?),
        Command::History => lines_of(alloc, &history_table(alloc, seen)?),
        Command::ShowConfig => one_line(alloc, config_text(seen)),
        Command::Pause => ask_for_change(alloc, seen, r#"{"pause":true}"#),
        Command::Resume => ask_for_change(alloc, seen, r#"{"pause":null}"#),
        Command::EditConfig(setting) => edit_config(alloc, seen, setting),
        Command::Switchover { leader, candidate } => switchover(alloc, seen, *leader, *candidate),
        Command::Failover { candidate } => failover(alloc, seen, *candidate),
        Command::Restart(member) => ask_member(alloc, *member, "/restart"),
        Command::Reinit(member) => ask_member(alloc, *member, "/reinitialize"),
    }
}

fn lines_of(alloc: Global, table: &Table) -> Result<Acted, AllocError>
    ensures { IfOk result (λ acted. acted_by acted ≡ Lines (table_lines table.now)) }
{
    Ok(Acted::Lines(table.lines(alloc)?))
}

fn one_line(alloc: Global, text: &str) -> Result<Acted, AllocError>
    ensures { IfOk result (λ acted. acted_by acted ≡ Lines (text.now ∷ [])) }
{
    let line = String::from_str(alloc, text)?;
    Ok(Acted::Lines(vec![in alloc; line]?))
}

/// The request goes to the leader, if there is one.
fn ask_leader(leader: Option<LeaderEntry>, request: Request) -> Acted
    ensures { acted_by result ≡ leader_asked leader (request_text request) }
{
    match leader {
        None => Acted::NoLeader,
        Some(leader) => Acted::Ask {
            member: leader.holder,
            request,
        },
    }
}

/// The leader is asked for a change of the configuration.
fn ask_for_change(alloc: Global, seen: &Snapshot, body: &str) -> Result<Acted, AllocError>
    ensures { IfOk result (λ acted. acted_by acted ≡ leader_asked (leader_in seen.now) (config_change body.now)) }
{
    let request = config_change(alloc, body)?;
    Ok(ask_leader(seen.leader(), request))
}

fn edit_config(alloc: Global, seen: &Snapshot, setting: &Setting<'_>) -> Result<Acted, AllocError>
    ensures { IfOk result (λ acted. acted_by acted ≡ setting_of seen.now (setting_text setting.now)) }
{
    let body = setting_body(alloc, setting)?;
    ask_for_change(alloc, seen, body.as_str())
}

fn switchover(
    alloc: Global,
    seen: &Snapshot,
    leader: MemberId,
    candidate: Option<MemberId>,
) -> Result<Acted, AllocError>
    ensures { IfOk result (λ acted. acted_by acted ≡ switchover_of seen.now leader candidate) }
{
    let leader = name_in(alloc, seen, leader)?;
    let candidate = name_if_any(alloc, seen, candidate)?;
    let body = switchover_body(alloc, leader.as_str(), candidate)?;
    let request = posted(alloc, "/switchover", body.as_str())?;
    Ok(ask_leader(seen.leader(), request))
}

fn failover(alloc: Global, seen: &Snapshot, candidate: MemberId) -> Result<Acted, AllocError>
    ensures { IfOk result (λ acted. acted_by acted ≡ failover_of seen.now candidate) }
{
    let candidate = name_in(alloc, seen, candidate)?;
    let body = failover_body(alloc, candidate.as_str())?;
    let request = posted(alloc, "/failover", body.as_str())?;
    Ok(ask_leader(seen.leader(), request))
}

fn name_if_any(
    alloc: Global,
    seen: &Snapshot,
    member: Option<MemberId>,
) -> Result<Option<String>, AllocError>
    ensures { IfOk result (λ name. option_map string_bytes name ≡ option_map (name_in seen.now) member) }
{
    match member {
        None => Ok(None),
        Some(member) => Ok(Some(name_in(alloc, seen, member)?)),
    }
}

/// The member is asked, with an empty body.
fn ask_member(alloc: Global, member: MemberId, path: &str) -> Result<Acted, AllocError>
    ensures { IfOk result (λ acted. acted_by acted ≡ Ask member (posted path.now [])) }
{
    let request = posted(alloc, path, "")?;
    Ok(Acted::Ask { member, request })
}
