//! Who may acknowledge another member's request.
ghost use Rattle.std.specs.Prelude.{◌≡◌};
ghost use Rattle.failsafe.specs.Holding.{may_hold};

use cluster_view::{AgentView, RoleWord};

/// Whether a member may acknowledge the request of another one, and promise not to take the leader key for the span of a lease:
/// exactly where it has no lease and its server isn't live, and it waits neither for the leader key nor for its renewal,
/// which is what `waiting` says. It takes no memory.
pub fn may_hold(view: &AgentView<'_>, waiting: bool) -> bool
    ensures { result ≡ may_hold view.now waiting }
{
    view.role == RoleWord::Follower && !waiting
}
