//! What belongs to an agent: the questions of its role, and the grants to its member.
ghost use Rattle.std.specs.Prelude.{◌≡◌};
ghost use Rattle.agent_model.specs.Decisions.{belongs, is_lease_of, is_write_of, may_create};
ghost use Rattle.agent_model.specs.Snapshots.{is_active};
ghost use Rattle.agent_turn.specs.Roles.{role_of};

use crate::role::Role;
use agent_model::Question;
use lease_store::Granted;
use pat_base::MemberId;

/// An agent that ends its server doesn't read, and asks for no renewal.
pub fn is_active(role: &Role) -> bool
    ensures { result ≡ is_active (role_of role.now) }
{
    !matches!(role, Role::Ending(_, _))
}

/// The grant is one of another write, to this member.
pub fn is_write_of(me: MemberId, grant: &Granted) -> bool
    ensures { result ≡ is_write_of me grant.now }
{
    !grant.leased() && grant.by().number == me.number
}

/// The grant is one of the leader key, to this member.
pub fn is_lease_of(me: MemberId, grant: &Granted) -> bool
    ensures { result ≡ is_lease_of me grant.now }
{
    grant.leased() && grant.by().number == me.number
}

/// A question for the leader key belongs to the role.
pub fn belongs(question: Question, role: &Role) -> bool
    ensures { result ≡ belongs question (role_of role.now) }
{
    match question {
        Question::ComparingPositions | Question::Creating => may_create(role),
        Question::Claiming => matches!(role, Role::Ready(_)),
        Question::Syncing(_) | Question::FindingCandidate | Question::StayingPrimary => {
            matches!(role, Role::Leader(_))
        }
        Question::Reading | Question::Renewing => is_active(role),
    }
}

/// Who may have asked for the leader key while it was absent.
pub fn may_create(role: &Role) -> bool
    ensures { result ≡ may_create (role_of role.now) }
{
    matches!(role, Role::Follower | Role::Holder(_))
}
