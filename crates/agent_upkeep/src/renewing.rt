//! What an agent asks as it renews its lease, and what it tells with that.
ghost use Rattle.std.specs.Prelude.{◌≡◌, ◌≤◌};
ghost use Rattle.agent_turn.specs.Turns.{HasLeft, Spent, reached};
ghost use Rattle.agent_turn.specs.Roles.{role_of};
ghost use Rattle.agent_model.specs.Agents.{IsSound};
ghost use Rattle.pat_base.specs.Moments.{latest};
ghost use Rattle.agent_model.specs.Snapshots.{missing_point, missing_row, renewal, renewing, row_at, row_told, status_told, turn_start};

use agent_model::{Inquiry, Knowledge, Question};
use agent_turn::{Role, Turn, info_of, known_with, set_carried};
use cluster_view::Snapshot;
use pat_base::{Lsn, MemberId, MemberSet, State, Ticks};
use pg_model::ServerStatus;
use store_keys::{HistoryRow, LeaseTxn, Txn};
use wal_model::{History, HistoryPoint};

/// Asks for the renewal of the leader key that was read. A leader may write the failsafe key with it; whom it lists there is known to
/// it from then on.
pub fn renew(role: &Role, turn: &mut Turn, history: &History, revision: u64)
    requires { HasLeft 1 1 turn.old }
    ensures outcome { reached (role_of role.now) turn.new ≡ renewing turn.old.moment history.now.points revision (reached (role_of role.now) turn.old) }
    ensures left { Spent 1 1 turn.old turn.new }
{
    let carried = set_carried(role, turn);
    turn.knows.known = known_with(turn.knows.known, carried);
    let renewal = renewal(
        turn.moment,
        history,
        revision,
        turn.knows,
        &turn.machine.server,
        carried,
    );
    let until = turn_start(turn.moment, turn.knows) + turn.knows.settings.retry_timeout_ticks();
    turn.ask(Question::Renewing, until, Inquiry::request(renewal));
}

/// When the turn began that asks this.
fn turn_start(now: Ticks, knows: &Knowledge) -> Ticks
    requires moment { now.0 ≤ latest }
    requires sound { IsSound knows.now }
    ensures value { result ≡ turn_start now knows.now.last_turn }
    ensures bound { result.0 ≤ latest }
{
    match knows.last_turn {
        None => now,
        Some(moment) => moment,
    }
}

fn renewal(
    now: Ticks,
    history: &History,
    revision: u64,
    knows: &Knowledge,
    server: &ServerStatus,
    carried: Option<MemberSet>,
) -> Txn
    ensures { result ≡ renewal now history.now.points revision knows.now server.now carried }
{
    Txn::Lease(LeaseTxn::Renew {
        revision,
        info: info_of(&knows.who, server),
        ttl: knows.settings.ttl_ticks(),
        status: status_told(server),
        row: row_told(now, history, knows, server),
        failsafe: carried,
    })
}

/// A leader tells where its log ends.
fn status_told(server: &ServerStatus) -> Option<Lsn>
    ensures { result ≡ status_told server.now }
{
    match server.state {
        State::Primary => server.end,
        _ => None,
    }
}

/// A leader tells the first row of its history that the key store lacks.
fn row_told(
    now: Ticks,
    history: &History,
    knows: &Knowledge,
    server: &ServerStatus,
) -> Option<HistoryRow>
    ensures { result ≡ row_told now history.now.points knows.now server.now }
{
    match server.state {
        State::Primary => missing_row(now, knows.who.me, &knows.seen, history),
        _ => None,
    }
}

fn missing_row(
    now: Ticks,
    me: MemberId,
    seen: &Option<Snapshot>,
    history: &History,
) -> Option<HistoryRow>
    ensures { result ≡ missing_row now me seen.now history.now.points }
{
    match seen {
        None => None,
        Some(snapshot) => match missing_point(snapshot, history) {
            None => None,
            Some(point) => Some(row_at(now, me, point)),
        },
    }
}

fn row_at(now: Ticks, me: MemberId, point: HistoryPoint) -> HistoryRow
    ensures { result ≡ row_at now me point }
{
    HistoryRow {
        timeline: point.timeline,
        at: point.at,
        tick: now,
        leader: me,
    }
}

/// The first point of a history whose row the snapshot lacks.
fn missing_point(snapshot: &Snapshot, history: &History) -> Option<HistoryPoint>
    ensures { result ≡ missing_point snapshot.now history.now.points }
{
    for place in 0..history.len() {
        if let Some(point) = history.get(place) {
            if !snapshot.has_row(point.timeline) {
                return Some(*point);
            }
        }
    }
    None
}
