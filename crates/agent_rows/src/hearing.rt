//! Inputs, by what is heard.
ghost use Rattle.std.specs.Prelude.{◌≡◌};
ghost use Rattle.agent_turn.specs.Turns.{HasLeft, Spent, reached};
ghost use Rattle.agent_model.specs.Agents.{IsWithin};
ghost use Rattle.agent_model.specs.Outputs.{most_outputs};
ghost use Rattle.agent_turn.specs.Roles.{role_of};
ghost use Rattle.agent_model.specs.Table.{step};
ghost use Rattle.agent_rows.specs.Inputs.{IsSpannedInput};

use crate::acknowledging::failsafe_asked;
use crate::decisions::{granted, refused};
use crate::peers::{answered, asked};
use crate::snapshots::read_answered;
use crate::wake::wake;
use agent_leadership::failsafe_answered;
use agent_model::Heard;
use agent_turn::{Role, Turn};
use agent_upkeep::{
    grants_operator, look, operate, operates, operator_granted, operator_refused, reconcile,
};
use lease_store::Granted;
use wal_model::History;

/// An input: the role after it.
pub fn take_input(role: Role, turn: &mut Turn, heard: Heard, history: &History) -> Role
    requires turn { HasLeft most_outputs most_outputs turn.old }
    requires server { IsWithin turn.old.machine.now.server }
    requires span { IsSpannedInput heard }
    ensures outcome { reached (role_of result) turn.new ≡ step turn.old.moment history.now.points heard (reached (role_of role) turn.old) }
    ensures left { Spent most_outputs most_outputs turn.old turn.new }
{
    match heard {
        Heard::Wake => wake(role, turn),
        Heard::ReadAnswered { sequence, snapshot } => {
            let role = reconcile(role, turn);
            look(&role, turn, sequence, &snapshot);
            read_answered(role, turn, history, sequence, snapshot)
        }
        Heard::Granted {
            sequence,
            granted: grant,
            snapshot,
        } => {
            let role = reconcile(role, turn);
            if grants_operator(sequence, &grant, turn.knows) {
                operator_granted(turn, snapshot);
                return role;
            }
            granted(role, turn, sequence, grant, snapshot)
        }
        Heard::Mismatch { sequence, .. } => {
            let role = reconcile(role, turn);
            if operates(turn.knows, sequence) {
                operator_refused(turn);
                return role;
            }
            refused(role, turn, sequence)
        }
        Heard::Asked {
            from,
            incarnation,
            sequence,
        } => {
            let role = reconcile(role, turn);
            asked(turn, from, incarnation, sequence);
            role
        }
        Heard::Answered { sequence, answer } => {
            let role = reconcile(role, turn);
            answered(role, turn, sequence, answer)
        }
        Heard::FailsafeAsked {
            from,
            incarnation,
            sequence,
            ttl,
        } => {
            let role = reconcile(role, turn);
            failsafe_asked(&role, turn, from, incarnation, sequence, ttl);
            role
        }
        Heard::FailsafeAnswered {
            from,
            sequence,
            accepted,
            sent,
        } => {
            let role = reconcile(role, turn);
            failsafe_answered(role, turn, from, sequence, accepted, sent)
        }
        Heard::Operated { action } => {
            let role = reconcile(role, turn);
            operate(&role, turn, action.request, action.asked);
            role
        }
    }
}
