//! When starts and stops of servers are complete.
ghost use Rattle.std.specs.Prelude.{◌≡◌};
ghost use Rattle.pg_cluster.specs.Completing.{first_completion, sooner_completion};

use pat_base::{State, Ticks};
use pg_model::Server;

/// A moment, or the first at which one of these servers has started or stopped where that comes sooner.
pub fn first_completion(servers: &[Server], most: Ticks) -> Ticks
    ensures { result.0 ≡ first_completion most.0 servers.now }
{
    let mut first = most;
    for server in servers {
        first = sooner_completion(first, server.state());
    }
    first
}

/// A moment, or that at which a server in this state has started or stopped where that comes sooner.
fn sooner_completion(most: Ticks, state: State) -> Ticks
    ensures { result.0 ≡ sooner_completion most.0 state }
{
    match state {
        State::Starting { at, .. } | State::Stopping { at, .. } => {
            if at < most { at } else { most }
        }
        _ => most,
    }
}
