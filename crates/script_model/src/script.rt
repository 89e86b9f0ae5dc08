//! A script that was read.
ghost use Rattle.std.specs.Prelude.{◌≡◌, ◌≤◌, ◌↔◌, length, slice_get, IsNone, IsTrue};
ghost use Rattle.std.specs.Option.{option_copied};

use crate::{Head, Line, Lines};
use std::marker::Model;

/// A script that was read: its head, and the lines of its body in order. Each line names declared members only.
#[derive(Drop)]
pub struct Script {
    head: Head,
    body: Vec<Line>,
}

impl Model for Script {
    ghost use Rattle.script_model.specs.Script.{ScriptText, IsScript};

    ghost Value = { ScriptText };

    ghost view = { λ s. record { head = s.head; body = s.body.items } };

    ghost invariant = { λ s. IsScript (record { head = s.head; body = s.body.items }) };
}

impl Script {
    ghost use Rattle.std.specs.Prelude.{◌≡◌, ◌≤◌, ◌↔◌, length, slice_get, IsNone, IsTrue};
    ghost use Rattle.std.specs.Option.{option_copied};
    ghost use Rattle.script_model.specs.Script.{IsScript};

    /// The script of this head and these lines.
    pub fn new(head: Head, body: Vec<Line>) -> Script
        requires { IsScript (record { head = head; body = body.items }) }
        ensures { result ≡ record { head = head; body = body.items } }
    {
        Script { head, body }
    }

    /// The head: the cluster and its members.
    pub fn head(&self) -> &Head
        ensures value { result.now ≡ self.now.head }
        ensures script { IsScript self.now }
    {
        &self.head
    }

    /// How many lines the body has.
    pub fn len(&self) -> usize
        ensures value { result ≡ length self.now.body }
        ensures script { IsScript self.now }
    {
        self.body.len()
    }

    /// Whether the body has no line.
    pub fn is_empty(&self) -> bool
        ensures { IsTrue result ↔ (length self.now.body ≡ 0) }
    {
        self.body.is_empty()
    }

    /// The line of the body at this place, from 0. `None` exactly past the last line.
    pub fn get(&self, place: usize) -> Option<&Line>
        ensures value { option_copied result ≡ slice_get self.now.body place }
        ensures past { IsNone result ↔ (length self.now.body ≤ place) }
    {
        self.body.get(place)
    }

    /// The lines of the body, each to be handed out once.
    pub fn into_lines(self) -> Lines
        ensures value { result ≡ self.body }
        ensures script { IsScript self }
    {
        let Script { head: _, body } = self;
        Lines::of(body)
    }
}
