//! What other members answered.
ghost use Rattle.std.specs.Prelude.{◌≡◌, ◌≤◌, [], length, take};
ghost use Rattle.std.specs.List.{list_any};
ghost use Rattle.agent_model.specs.Answers.{is_from, has_answered, with_answer};
ghost use Rattle.pat_base.specs.declared.member_id.TheConstants.{MOST_MEMBERS};

use crate::Who;
use pat_base::{MOST_MEMBERS, MemberId, PeerAnswer};
use std::marker::Model;

/// What other members answered, in the order in which that came: one answer of each at most. It takes no memory.
#[derive(Drop)]
pub struct Answers {
    /// Those past the count are blanks.
    places: [PeerAnswer; MOST_MEMBERS],
    count: usize,
}

impl Model for Answers {
    ghost use Rattle.std.specs.Prelude.{◌≤◌, List, take};
    ghost use Rattle.pat_base.specs.declared.member_id.TheConstants.{MOST_MEMBERS};
    ghost use Rattle.pat_base.specs.declared.peer_answer.PeerAnswer.{PeerAnswer};

    ghost Value = { List PeerAnswer };

    ghost view = { λ a. take a.count a.places };

    ghost invariant = { λ a. a.count ≤ MOST_MEMBERS };
}

impl Answers {
    /// No answer. A blank tells of this member.
    pub fn none(who: &Who) -> Answers
        ensures { result ≡ [] }
    {
        let blank = PeerAnswer {
            member: who.me,
            writes: false,
            end: None,
            tags: who.tags,
        };
        Answers {
            places: [blank; MOST_MEMBERS],
            count: 0,
        }
    }

    /// Forgets all answers.
    pub fn forget(&mut self)
        ensures { self.new ≡ [] }
    {
        self.count = 0;
    }

    /// The answers, in the order in which they came.
    pub fn all(&self) -> &[PeerAnswer]
        ensures { result.now ≡ self.now }
    {
        &self.places[..self.count]
    }

    /// Whether this member answered.
    pub fn has(&self, member: MemberId) -> bool
        ensures { result ≡ has_answered member self.now }
    {
        self.all().iter().any(|answer| is_from(member, answer))
    }

    /// Keeps an answer. A second one of a member counts for nothing.
    pub fn keep(&mut self, answer: PeerAnswer)
        ensures { self.new ≡ with_answer answer self.old }
    {
        if !self.has(answer.member) && self.count < MOST_MEMBERS {
            self.places[self.count] = answer;
            self.count += 1;
        }
    }
}

fn is_from(member: MemberId, answer: &PeerAnswer) -> bool
    ensures { result ≡ is_from member answer.now }
{
    answer.member.number == member.number
}
