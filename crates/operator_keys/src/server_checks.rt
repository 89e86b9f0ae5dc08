//! The checks of restarts and reinitializations.
ghost use Rattle.std.specs.Prelude.{◌≡◌};
ghost use Rattle.std.specs.Result.{result_err};
ghost use Rattle.operator_keys.specs.ServerChecks.{is_running, restart_refusal, reinit_refusal};

use crate::Refused;
use crate::refusal::{judged, refused_where};
use cluster_view::AgentView;
use operator_answers::{SERVICE_UNAVAILABLE, Text};
use pat_base::State;

/// Whether the agent that shows this may restart its server, or what refuses it (Patroni's documentation of the REST API,
/// on `POST /restart`): the server must run, as a primary or as a replica. It takes no memory.
pub fn check_restart(view: &AgentView<'_>) -> Result<(), Refused>
    ensures { result_err result ≡ restart_refusal view.now }
{
    judged(refused_where(
        !is_running(view.state),
        SERVICE_UNAVAILABLE,
        Text::NotRunning,
    ))
}

/// Whether the agent that shows this may wipe its server, which is then copied anew, or what refuses it (Patroni's
/// documentation of the REST API, on `POST /reinitialize`): neither may it have the leader key, nor its server accept
/// writes or begin to. It takes no memory.
pub fn check_reinit(view: &AgentView<'_>) -> Result<(), Refused>
    ensures { result_err result ≡ reinit_refusal view.now }
{
    judged(refused_where(
        view.role.has_key() || view.state.live(),
        SERVICE_UNAVAILABLE,
        Text::IsLeader,
    ))
}

/// Whether a server in this state runs.
fn is_running(state: State) -> bool
    ensures { result ≡ is_running state }
{
    matches!(state, State::Primary | State::Replica)
}
