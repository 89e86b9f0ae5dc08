//! Whom a member asks how far its server is, and who answered.
ghost use Rattle.std.specs.Prelude.{◌+◌, ◌≡◌, ◌≤◌};
ghost use Rattle.pat_base.specs.declared.member_id.TheConstants.{MOST_MEMBERS};
ghost use Rattle.agent_model.specs.Answers.{all_answered, asking_all, asking_one, is_other, is_settled};
ghost use Rattle.agent_model.specs.Racing.{answers_until};
ghost use Rattle.pat_base.specs.Moments.{latest};
ghost use Rattle.agent_model.specs.declared.output.Output.TheVariants as outputs;

use crate::Outputs;
use agent_model::{Answers, Inquiry, Outgoing, Output, Target, Who};
use pat_base::{MOST_MEMBERS, MemberId, Ticks};

/// For so many ticks a member waits for the answers of the others.
const ANSWER_TICKS: u64 = 20;

/// The moment until which a member waits for answers that asks now.
pub fn answers_until(now: Ticks) -> Ticks
    requires { now.0 ≤ latest }
    ensures { result ≡ answers_until now }
{
    Ticks(now.0 + ANSWER_TICKS)
}

/// The asks to all other members, in the order in which the script declares them.
pub fn ask_all(who: &Who, sequence: u64, out: &mut Outputs)
    requires { MOST_MEMBERS ≤ out.old.spare }
    ensures out { out.new.outputs ≡ asking_all who.now sequence out.old.outputs }
    ensures room { out.old.spare ≤ out.new.spare + MOST_MEMBERS }
{
    for number in 0..MOST_MEMBERS as u8 {
        ask_one(who, sequence, MemberId::new(number), out);
    }
}

/// The ask to this member, where it is another one.
pub fn ask_one(who: &Who, sequence: u64, member: Option<MemberId>, out: &mut Outputs)
    requires { 1 ≤ out.old.spare }
    ensures out { out.new.outputs ≡ asking_one who.now sequence member out.old.outputs }
    ensures room { out.old.spare ≤ out.new.spare + 1 }
{
    if let Some(member) = member {
        if is_other(who, member) {
            out.put(Output::Message(Outgoing::Send {
                to: Target::Member(member),
                sequence,
                body: Inquiry::ask(),
            }));
        }
    }
}

/// Whether it is a declared member other than the own one.
fn is_other(who: &Who, member: MemberId) -> bool
    ensures { result ≡ is_other who.now member }
{
    member.number < who.members && member.number != who.me.number
}

/// Whether each other member answered.
pub fn all_answered(who: &Who, answers: &Answers) -> bool
    ensures { result ≡ all_answered who.now answers.now }
{
    let mut all = true;
    for number in 0..MOST_MEMBERS as u8 {
        all = all && is_settled(who, answers, MemberId::new(number));
    }
    all
}

/// Whether nothing is open of this member: it is no other one, or answered.
pub fn is_settled(who: &Who, answers: &Answers, member: Option<MemberId>) -> bool
    ensures { result ≡ is_settled who.now answers.now member }
{
    match member {
        None => true,
        Some(member) => !is_other(who, member) || answers.has(member),
    }
}
