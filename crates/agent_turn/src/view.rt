//! What an agent shows of itself and of its server.
ghost use Rattle.std.specs.Prelude.{None, option_copied, ◌≡◌};
ghost use Rattle.agent_model.specs.Agents.{word_of};
ghost use Rattle.agent_turn.specs.Roles.{role_of};
ghost use Rattle.agent_model.specs.Views.{view_of};

use crate::role::Role;
use agent_model::{Knowledge, Machine};
use cluster_view::{AgentView, RoleWord};
use pat_base::Ticks;

/// What an agent in this role shows at a moment, with its newest snapshot.
pub fn view_of<'a>(
    now: Ticks,
    role: RoleWord,
    knows: &'a Knowledge,
    machine: &Machine,
) -> AgentView<'a>
    ensures shown { record result { seen = None } ≡ view_of now role knows.now machine.now }
    ensures seen { option_copied result.seen ≡ knows.now.seen }
{
    let who = &knows.who;
    let server = &machine.server;
    AgentView {
        moment: now,
        scope: who.scope,
        me: who.me,
        name: who.name,
        tags: who.tags,
        state: server.state,
        timeline: server.timeline,
        end: server.end,
        receives: server.receives,
        diverged: server.diverged,
        was_primary: server.was_primary,
        role,
        seen: knows.seen.as_ref(),
        last_read: knows.last_read,
        last_turn: knows.last_turn,
        hold: machine.hold,
        waits: knows.operating.is_some(),
    }
}

/// The word for a role.
pub fn word_of(role: &Role) -> RoleWord
    ensures { result ≡ word_of (role_of role.now) }
{
    match role {
        Role::Follower => RoleWord::Follower,
        Role::Holder(_) => RoleWord::Holder,
        Role::Ready(_) => RoleWord::Ready,
        Role::Leader(_) => RoleWord::Leader,
        Role::Ending(_, _) => RoleWord::Ending,
        Role::Unleased => RoleWord::Unleased,
    }
}
