//! What is owed at all members.
ghost use Rattle.std.specs.Prelude.{◌≡◌, slice_set};
ghost use Rattle.live_owing.specs.Owed.{Asked, Left, Replied, Ticked, given};
ghost use Rattle.live_owing.specs.Ledger.{happened_at, nothing_owed, owed_at};

use crate::waiting::{begun, is_client, refusal, waited_on};
use crate::{Debt, Outcome, Owner};
use pat_base::{MOST_MEMBERS, MemberId};
use std::marker::Model;

/// To whom the next reply of each member's agent is due that comes in a step in which nobody asks it.
#[derive(Drop)]
pub struct Owing {
    debts: [Option<Debt>; MOST_MEMBERS],
}

impl Model for Owing {
    ghost use Rattle.std.specs.Prelude.{List, Option};
    ghost use Rattle.live_owing.specs.declared.waiting.Debt.{Debt};

    ghost Value = { List (Option Debt) };

    ghost view = { λ s. s.debts };
}

impl Owing {
    /// Nobody waits for any agent.
    pub fn new() -> Owing
        ensures { result ≡ nothing_owed }
    {
        Owing {
            debts: [None; MOST_MEMBERS],
        }
    }

    /// What is owed at a member.
    pub fn owed_at(&self, member: MemberId) -> Option<Debt>
        ensures { result ≡ owed_at self.now member }
    {
        self.debts[usize::from(member.number)]
    }

    /// The agent of a member was asked, and replied in the same step, or didn't. Such a reply is the asker's, and who waits goes on waiting.
    /// Without one the asker waits from now on: the agent has nobody else's request any more, so a client that waited is told that no result
    /// came.
    pub fn ask(&mut self, member: MemberId, owner: Owner, replied: bool) -> Option<Outcome>
        ensures outcome { result ≡ given (owed_at self.old member) (Asked owner replied) }
        ensures after { self.new ≡ happened_at member (Asked owner replied) self.old }
    {
        if replied {
            return Some(Outcome::Reply(owner));
        }
        let before = self.owed_at(member);
        self.owe(member, Some(begun(owner)));
        refusal(before)
    }

    /// The agent of a member replied in a step in which nobody asked it: to who waits.
    pub fn reply(&mut self, member: MemberId) -> Option<Outcome>
        ensures outcome { result ≡ given (owed_at self.old member) Replied }
        ensures after { self.new ≡ happened_at member Replied self.old }
    {
        let before = self.owed_at(member);
        self.owe(member, None);
        Some(Outcome::Reply(before?.owner))
    }

    /// A tick of 100 ms has passed at a member: a client that has waited for 600 of them is told that no result came.
    pub fn tick(&mut self, member: MemberId) -> Option<Outcome>
        ensures outcome { result ≡ given (owed_at self.old member) Ticked }
        ensures after { self.new ≡ happened_at member Ticked self.old }
    {
        let before = self.owed_at(member);
        let after = before.and_then(waited_on);
        self.owe(member, after);
        match after {
            Some(_) => None,
            None => refusal(before),
        }
    }

    /// A client of a member's port is gone: what comes for it is nobody's.
    pub fn leave(&mut self, member: MemberId, client: u64)
        ensures { self.new ≡ happened_at member (Left client) self.old }
    {
        let before = self.owed_at(member);
        self.owe(member, before.filter(|debt| !is_client(client, debt.owner)));
    }

    /// This is owed at a member from now on.
    fn owe(&mut self, member: MemberId, owed: Option<Debt>)
        ensures { self.new ≡ slice_set self.old member.number owed }
    {
        self.debts[usize::from(member.number)] = owed;
    }
}
