//! Which step a leader takes next, to change who its synchronous standbys are.
ghost use Rattle.std.specs.Prelude.{◌≡◌};
ghost use Rattle.sync_state.specs.Plans.{change_of, plan_off, plan_on, plan_of};

use crate::member_sets::{are_same, both, either, is_within};
use crate::standbys::standbys_of;
use crate::steps::{Plan, Standbys};
use cluster_view::{LeaderView, Snapshot};
use store_keys::SyncKey;

/// What the leader is to do next about its synchronous standbys, by its view and a snapshot: the first row that applies.
///
/// - Where the synchronous mode is off, a sync key that is there is removed.
/// - A key that is absent or names another leader is made to name this one.
/// - Then who is published and isn't wanted is withdrawn; who is wanted and isn't required is added to those required; who
///   is wanted is published, once all wanted have confirmed the position that was noted then; and who is required, but
///   neither published nor wanted, is dropped.
///
/// These are the rules of Patroni's documentation, "Replication modes", under "Synchronous mode implementation". It takes no memory.
pub fn plan(view: &LeaderView<'_>, seen: &Snapshot) -> Plan
    ensures { result ≡ plan_of view.now seen.now }
{
    if seen.config().synchronous_mode {
        plan_on(view, seen, seen.sync())
    } else {
        plan_off(seen.sync())
    }
}

/// The plan where the synchronous mode is off.
fn plan_off(sync: Option<SyncKey>) -> Plan
    ensures { result ≡ plan_off sync }
{
    match sync {
        None => Plan::Keep,
        Some(_) => Plan::SwitchOff,
    }
}

/// The plan where the synchronous mode is on, by the sync key.
fn plan_on(view: &LeaderView<'_>, seen: &Snapshot, sync: Option<SyncKey>) -> Plan
    ensures { result ≡ plan_on view.now seen.now sync }
{
    match sync {
        None => Plan::Mark,
        Some(sync) => {
            if sync.leader.number == view.view.me.number {
                change_of(standbys_of(view, seen))
            } else {
                Plan::Mark
            }
        }
    }
}

/// The next change of who the standbys are, where the sync key names this leader.
fn change_of(standbys: Standbys) -> Plan
    ensures { result ≡ change_of standbys }
{
    let Standbys {
        published,
        required,
        wanted,
        confirmed,
    } = standbys;
    if !is_within(published, wanted) {
        Plan::Withdraw(both(published, wanted))
    } else if !is_within(wanted, required) {
        Plan::AddRequired(either(required, wanted))
    } else if !are_same(wanted, published) && is_within(wanted, confirmed) {
        Plan::Publish(wanted)
    } else if !is_within(required, either(published, wanted)) {
        Plan::DropRequired(either(published, wanted))
    } else {
        Plan::Keep
    }
}
