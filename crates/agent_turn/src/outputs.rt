//! Lists of outputs, with room taken before.
ghost use Rattle.std.specs.Prelude.{◌≡◌, ◌≤◌, ◌+◌, ◌++◌, [], OnOk, OnErr, option_to_list, IsNone, ◌↔◌};
ghost use Rattle.std.specs.VecDeque.{deque_len, deque_capacity};
ghost use Rattle.agent_model.specs.Outputs.{with_output};
ghost use Rattle.agent_turn.specs.Room.{OutputsFacts};

use agent_model::Output;
use std::alloc::{AllocError, Global};
use std::collections::VecDeque;
use std::marker::Model;

/// What an agent does, in order, with room for more.
#[derive(Drop)]
pub struct Outputs {
    outputs: VecDeque<Output>,
}

impl Model for Outputs {
    ghost use Rattle.std.specs.Prelude.{◌-◌};
    ghost use Rattle.std.specs.VecDeque.{deque_len, deque_capacity};
    ghost use Rattle.agent_turn.specs.Room.{OutputsFacts};

    ghost Value = { OutputsFacts };

    ghost view = { λ o. record { outputs = o.outputs.items; spare = deque_capacity o.outputs - deque_len o.outputs } };
}

impl Outputs {
    /// No output. This takes no memory, and there may be no room.
    pub fn new(alloc: Global) -> Outputs
        ensures { result.outputs ≡ [] }
    {
        Outputs {
            outputs: VecDeque::new(alloc),
        }
    }

    /// Makes room for at least so many more. It fails only for want of memory.
    pub fn reserve(&mut self, count: usize) -> Result<(), AllocError>
        ensures outputs { self.new.outputs ≡ self.old.outputs }
        ensures room { OnOk result (count ≤ self.new.spare) }
        ensures kept { self.old.spare ≤ self.new.spare }
    {
        self.outputs.reserve(count)
    }

    /// For how many more there is room.
    pub fn spare(&self) -> usize
        ensures { result ≡ self.now.spare }
    {
        self.outputs.capacity() - self.outputs.len()
    }

    /// Takes the first. `None` exactly where there is none.
    pub fn take(&mut self) -> Option<Output>
        ensures outputs { self.old.outputs ≡ option_to_list result ++ self.new.outputs }
        ensures none { IsNone result ↔ (self.old.outputs ≡ []) }
        ensures room { self.old.spare ≤ self.new.spare }
    {
        self.outputs.pop_front()
    }

    /// One more, behind the others.
    pub fn put(&mut self, output: Output)
        requires { 1 ≤ self.old.spare }
        ensures outputs { self.new.outputs ≡ with_output output self.old.outputs }
        ensures room { self.old.spare ≤ self.new.spare + 1 }
    {
        self.outputs.push_back_reserved(output);
    }
}
