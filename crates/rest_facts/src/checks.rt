//! The facts that health checks look at, and what they answer.
ghost use Rattle.std.specs.Prelude.{◌≡◌};
ghost use Rattle.std.specs.Option.{option_copied};
ghost use Rattle.rest_facts.specs.Checks.{facts_of_view, health_of_view};

use crate::freshness::{TTLS_OF_OTHERS, config_on, is_fresh};
use crate::lag::{is_within_limit, limit_of, status_on};
use crate::server::is_standby_on;
use cluster_view::AgentView;
use pat_base::Ticks;
use rest_health::{Endpoint, Facts, health};

/// What health checks look at of a member, by what its agent shows and by the value of the parameter `lag` of the query, if it has one
/// (Patroni documentation, "Patroni REST API", "Health check endpoints").
///
/// The lag is counted in bytes from the end of the own log to the end that the leader told last: 0 where the leader told none or the own
/// log ends further on. Where the leader told one and the own end is unknown, since the server doesn't run, the member is beyond every
/// limit, as in the race for the leader key. A value that is no size sets no limit, and nor does a query without `lag`. Moments and spans
/// are in ticks of 100 ms. It takes no memory.
pub fn facts_of(view: &AgentView<'_>, lag: Option<&[u8]>) -> Facts
    ensures { result ≡ facts_of_view view.now (option_copied view.now.seen) (option_copied lag.entry) }
{
    let ttl = config_on(view.seen).ttl_ticks();
    let longer = Ticks(TTLS_OF_OTHERS * ttl.0);
    Facts {
        primary: view.state.is_primary(),
        replica: view.state.is_replica(),
        has_key: view.role.has_key(),
        no_load_balance: view.tags.noloadbalance,
        standby: is_standby_on(view.me, view.seen),
        within_lag: is_within_limit(limit_of(lag), status_on(view.seen), view.end),
        fresh_as_primary: is_fresh(view.moment, view.last_turn, ttl),
        fresh_otherwise: is_fresh(view.moment, view.last_turn, longer),
    }
}

/// The status that a path of a health check answers, by what the agent shows and the value of the parameter `lag`: `OK` or
/// `UNAVAILABLE` of `rest_health` (Patroni documentation, "Patroni REST API", "Health check endpoints"). It takes no memory.
pub fn health_of_view(view: &AgentView<'_>, endpoint: Endpoint, lag: Option<&[u8]>) -> u16
    ensures { result ≡ health_of_view endpoint view.now (option_copied view.now.seen) (option_copied lag.entry) }
{
    health(endpoint, facts_of(view, lag).word())
}
