//! How a leader changes its synchronous standbys, a step with each renewal (Patroni documentation, "Replication modes").
ghost use Rattle.std.specs.Prelude.{None, ◌≡◌};
ghost use Rattle.agent_turn.specs.Turns.{ComesTo, HasLeft, Spent, reached};
ghost use Rattle.agent_model.specs.Agents.{Leader, RoleFacts};
ghost use Rattle.agent_model.specs.Planning.{leader_view, naming, planned, planned_as, settled, switching_off, writing_sync};
ghost use Rattle.agent_model.specs.Table.{step};

use agent_model::{Inquiry, Knowledge, Machine, Question, Settling, SyncRead};
use agent_turn::{Turn, expected_of, sync_read_if, view_of, waiting_for};
use cluster_view::{LeaderView, RoleWord};
use pat_base::{MemberSet, Required, Ticks};
use store_keys::{SyncTxn, Txn};
use sync_state::{Plan, plan};

/// A leader under the leader key of this revision takes the step that the newest snapshot calls for, if there is one.
pub(crate) fn take_step(revision: u64, turn: &mut Turn)
    requires { HasLeft 1 1 turn.old }
    ensures outcome { reached (Leader revision) turn.new ≡ planned turn.old.moment revision (reached (Leader revision) turn.old) }
    ensures left { Spent 1 1 turn.old turn.new }
{
    let moment = turn.moment;
    let knows = &*turn.knows;
    let Some(seen) = &knows.seen else {
        return;
    };
    let step = plan(&leader_view(knows, turn.machine, moment), seen);
    take(step, revision, turn);
}

/// What a leader shows of itself and of synchronous replication on its server.
fn leader_view<'a>(knows: &'a Knowledge, machine: &Machine, now: Ticks) -> LeaderView<'a>
    ensures { record result { view = record result.view { seen = None } } ≡ leader_view now knows.now machine.now }
{
    LeaderView {
        view: view_of(now, RoleWord::Leader, knows, machine),
        required: machine.replication.required,
        confirmed_positions: machine.replication.confirmed_positions,
        noted: knows.noted,
    }
}

/// Takes a step of the plan.
fn take(step: Plan, revision: u64, turn: &mut Turn)
    requires { HasLeft 1 1 turn.old }
    ensures outcome { reached (Leader revision) turn.new ≡ planned_as turn.old.moment revision step (reached (Leader revision) turn.old) }
    ensures left { Spent 1 1 turn.old turn.new }
{
    match step {
        Plan::Keep => {}
        Plan::SwitchOff => {
            let read = sync_read_if(turn.knows.seen.as_ref());
            switch_off(revision, read, turn);
        }
        Plan::Mark => {
            let nobody = MemberSet::empty();
            name(revision, Settling::NamesStandbys(nobody), nobody, turn);
        }
        Plan::Withdraw(standbys) => {
            name(revision, Settling::NamesStandbys(standbys), standbys, turn);
        }
        Plan::Publish(standbys) => name(revision, Settling::KeepsList, standbys, turn),
        Plan::AddRequired(members) => {
            turn.knows.noted = turn.machine.server.end;
            turn.require(Required::All(members));
        }
        Plan::DropRequired(members) => {
            let required = waiting_for(&turn.knows.settings, members);
            turn.require(required);
        }
    }
}

/// Asks that these be the standbys in the sync key, as that was read last.
fn name(revision: u64, settling: Settling, standbys: MemberSet, turn: &mut Turn)
    requires { HasLeft 1 1 turn.old }
    ensures outcome { ComesTo (naming turn.old.moment revision settling standbys) turn.old turn.new }
    ensures left { Spent 1 1 turn.old turn.new }
{
    let write = Txn::Sync(SyncTxn::SetSync {
        revision,
        sync: expected_of(sync_read_if(turn.knows.seen.as_ref())),
        standbys,
        quorum: None,
    });
    write_sync(settling, write, turn);
}

/// Asks that the sync key be removed, which was read so.
fn switch_off(revision: u64, read: Option<SyncRead>, turn: &mut Turn)
    requires { HasLeft 1 1 turn.old }
    ensures outcome { reached (Leader revision) turn.new ≡ switching_off turn.old.moment revision read (reached (Leader revision) turn.old) }
    ensures left { Spent 1 1 turn.old turn.new }
{
    if let Some(read) = read {
        let write = Txn::Sync(SyncTxn::DropSync {
            revision,
            sync: read.revision,
        });
        write_sync(Settling::ClearsList, write, turn);
    }
}

/// Asks for a write of the sync key, and waits for the answer; with a grant the required list settles so.
fn write_sync(settling: Settling, write: Txn, turn: &mut Turn)
    requires { HasLeft 1 1 turn.old }
    ensures outcome { ComesTo (writing_sync turn.old.moment settling write) turn.old turn.new }
    ensures left { Spent 1 1 turn.old turn.new }
{
    let until = turn.moment + turn.knows.settings.retry_timeout_ticks();
    turn.ask(Question::Syncing(settling), until, Inquiry::request(write));
}

/// A write of the sync key is granted: what the required list becomes.
pub fn settle(settling: Settling, turn: &mut Turn)
    requires { HasLeft 1 0 turn.old }
    ensures outcome { (role : RoleFacts) → reached role turn.new ≡ settled settling (reached role turn.old) }
    ensures left { Spent 1 0 turn.old turn.new }
{
    match settling {
        Settling::KeepsList => {}
        Settling::NamesStandbys(standbys) => {
            let required = waiting_for(&turn.knows.settings, standbys);
            turn.require(required);
        }
        Settling::ClearsList => turn.require(Required::Nobody),
    }
}
