//! How a member acknowledges the failsafe request of another one (Patroni documentation, "DCS Failsafe Mode").
ghost use Rattle.std.specs.Prelude.{◌^◌, ◌≡◌, ◌≤◌};
ghost use Rattle.agent_turn.specs.Turns.{HasLeft, Spent, reached};
ghost use Rattle.agent_turn.specs.Roles.{role_of};
ghost use Rattle.agent_model.specs.StayingPrimary.{failsafe_asked};

use agent_model::{Outgoing, Output};
use agent_turn::{Role, Turn};
use agent_upkeep::{hold, may_acknowledge};
use pat_base::{MemberId, Ticks};

/// Another member, which leads without the key store, asks to go on so for this span: this one acknowledges and holds, where it may.
pub(crate) fn failsafe_asked(
    role: &Role,
    turn: &mut Turn,
    from: MemberId,
    incarnation: u64,
    sequence: u64,
    ttl: Ticks,
)
    requires turn { HasLeft 2 0 turn.old }
    requires span { ttl.0 ≤ 2 ^ 40 }
    ensures outcome { reached (role_of role.now) turn.new ≡ failsafe_asked turn.old.moment from incarnation sequence ttl (reached (role_of role.now) turn.old) }
    ensures left { Spent 2 0 turn.old turn.new }
{
    let accepted = may_acknowledge(role, turn);
    if accepted {
        hold(turn, from, sequence, ttl);
    }
    turn.out.put(Output::Message(Outgoing::FailsafeAnswer {
        to: from,
        incarnation,
        sequence,
        accepted,
    }));
}
