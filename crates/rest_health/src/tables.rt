//! The table of each path. A row has the facts that are to hold and those that are not to; 0 is none, so the last row is for all that no
//! other matches.
#![tactic(auto, using(crate::proofs::Rows::row_words))]

ghost use Rattle.std.specs.Prelude.{◌≡◌, Some, IsTrue};
ghost use Rattle.pat_cases.specs.Cases.{first_answer, is_closed};
ghost use Rattle.rest_health.specs.declared.endpoint.Endpoint.TheVariants as paths;
ghost use Rattle.rest_health.specs.Health.{health_of};

use crate::{
    FRESH_AS_PRIMARY, FRESH_OTHERWISE, HAS_KEY, NO_LOAD_BALANCE, OK, PRIMARY, REPLICA, STANDBY,
    UNAVAILABLE, WITHIN_LAG,
};
use pat_cases::{CaseTable, cases};

/// `/`, `/primary`, `/read-write`: the primary, with the leader key.
pub(crate) fn primary_status(facts: u32) -> u16
    ensures { result ≡ health_of paths.Primary facts }
{
    let table = cases! { PRIMARY | HAS_KEY, 0 => OK; 0, 0 => UNAVAILABLE };
    answer_of(&table, facts)
}

/// `/leader`: who has the leader key, whatever the server runs as.
pub(crate) fn leader_status(facts: u32) -> u16
    ensures { result ≡ health_of paths.Leader facts }
{
    let table = cases! { HAS_KEY, 0 => OK; 0, 0 => UNAVAILABLE };
    answer_of(&table, facts)
}

/// `/replica`: a replica that takes load, within the lag.
pub(crate) fn replica_status(facts: u32) -> u16
    ensures { result ≡ health_of paths.Replica facts }
{
    let table = cases! { REPLICA | WITHIN_LAG, NO_LOAD_BALANCE => OK; 0, 0 => UNAVAILABLE };
    answer_of(&table, facts)
}

/// `/read-only`: such a replica, whatever its lag, or the primary.
pub(crate) fn read_only_status(facts: u32) -> u16
    ensures { result ≡ health_of paths.ReadOnly facts }
{
    let table = cases! {
        REPLICA, NO_LOAD_BALANCE => OK;
        PRIMARY | HAS_KEY, 0 => OK;
        0, 0 => UNAVAILABLE;
    };
    answer_of(&table, facts)
}

/// `/sync`, `/synchronous`: such a replica that is a synchronous standby.
pub(crate) fn sync_status(facts: u32) -> u16
    ensures { result ≡ health_of paths.Sync facts }
{
    let table = cases! { REPLICA | STANDBY, NO_LOAD_BALANCE => OK; 0, 0 => UNAVAILABLE };
    answer_of(&table, facts)
}

/// `/read-only-sync`: that, or the primary.
pub(crate) fn read_only_sync_status(facts: u32) -> u16
    ensures { result ≡ health_of paths.ReadOnlySync facts }
{
    let table = cases! {
        REPLICA | STANDBY, NO_LOAD_BALANCE => OK;
        PRIMARY | HAS_KEY, 0 => OK;
        0, 0 => UNAVAILABLE;
    };
    answer_of(&table, facts)
}

/// `/async`, `/asynchronous`: such a replica that is no synchronous standby, within the lag.
pub(crate) fn async_status(facts: u32) -> u16
    ensures { result ≡ health_of paths.Async facts }
{
    let table =
        cases! { REPLICA | WITHIN_LAG, NO_LOAD_BALANCE | STANDBY => OK; 0, 0 => UNAVAILABLE };
    answer_of(&table, facts)
}

/// `/health`: a server that is up and running.
pub(crate) fn health_status(facts: u32) -> u16
    ensures { result ≡ health_of paths.Health facts }
{
    let table = cases! { PRIMARY, 0 => OK; REPLICA, 0 => OK; 0, 0 => UNAVAILABLE };
    answer_of(&table, facts)
}

/// `/readiness`: the leader, or such a server.
pub(crate) fn readiness_status(facts: u32) -> u16
    ensures { result ≡ health_of paths.Readiness facts }
{
    let table = cases! {
        HAS_KEY, 0 => OK;
        PRIMARY, 0 => OK;
        REPLICA, 0 => OK;
        0, 0 => UNAVAILABLE;
    };
    answer_of(&table, facts)
}

/// `/liveness`: an agent with a turn of late, judged more strictly on a primary.
pub(crate) fn liveness_status(facts: u32) -> u16
    ensures { result ≡ health_of paths.Liveness facts }
{
    let table = cases! {
        PRIMARY | FRESH_AS_PRIMARY, 0 => OK;
        FRESH_OTHERWISE, PRIMARY => OK;
        0, 0 => UNAVAILABLE;
    };
    answer_of(&table, facts)
}

/// The answer of a closed table.
fn answer_of<const N: usize>(table: &CaseTable<N>, facts: u32) -> u16
    requires { IsTrue (is_closed table.now.rows) }
    ensures { Some result ≡ first_answer facts table.now.rows }
{
    match table.first(facts) {
        Some(answer) => answer,
        None => unreachable!(),
    }
}
