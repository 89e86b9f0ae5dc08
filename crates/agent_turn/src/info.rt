//! What members tell of themselves.
ghost use Rattle.std.specs.Prelude.{◌≡◌};
ghost use Rattle.agent_model.specs.Info.{info_of, runs, state_word};

use agent_model::Who;
use pat_base::{State, Word};
use pg_model::ServerStatus;
use store_keys::MemberInfo;

/// What a member tells of itself and of its server.
pub fn info_of(who: &Who, server: &ServerStatus) -> MemberInfo
    ensures { result ≡ info_of who.now server.now }
{
    let runs = runs(server.state);
    MemberInfo {
        host: who.host,
        tags: who.tags,
        state: state_word(server.state, server.receives),
        writes: server.state.writes(),
        timeline: if runs { Some(server.timeline) } else { None },
        end: if runs { server.end } else { None },
    }
}

/// The state of a server in one word.
fn state_word(state: State, receives: bool) -> Word
    ensures { result ≡ state_word state receives }
{
    match state {
        State::Creating => Word::CreatingReplica,
        State::Stopped => Word::Stopped,
        State::Starting { .. } => Word::Starting,
        State::Replica => {
            if receives {
                Word::Streaming
            } else {
                Word::Running
            }
        }
        State::Primary => Word::Running,
        State::Stopping { .. } => Word::Stopping,
        State::Crashed => Word::Crashed,
    }
}

pub fn runs(state: State) -> bool
    ensures { result ≡ runs state }
{
    matches!(state, State::Replica | State::Primary)
}
