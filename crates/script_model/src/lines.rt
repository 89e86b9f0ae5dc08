//! The lines of a script that are to be played.
ghost use Rattle.std.specs.Prelude.{◌≡◌, ◌↔◌, ◌++◌, [], IsNone, option_to_list};

use crate::Line;
use std::marker::Model;

/// Room is given back as soon as one part of so many lies unused: so a line is moved at most so many times.
const PARTS_OF_ROOM: usize = 16;

/// The lines of a script that are left, in order. Each is handed out once, and what they took is given back as they go: so a long script
/// is not kept beside what it makes of the cluster.
#[derive(Drop)]
pub struct Lines {
    /// The last one comes first.
    left: Vec<Line>,
    /// How many of them there is room for.
    room: usize,
}

impl Model for Lines {
    ghost use Rattle.std.specs.Prelude.{List, reverse};
    ghost use Rattle.script_model.specs.declared.line.Line.{Line};

    ghost Value = { List Line };

    ghost view = { λ lines. reverse lines.left.items };
}

impl Lines {
    /// These lines.
    pub(crate) fn of(lines: Vec<Line>) -> Lines
        ensures { result ≡ lines.items }
    {
        let mut left = lines;
        left.reverse();
        let room = left.len();
        Lines { left, room }
    }

    /// The next line. `None` exactly where none is left.
    pub fn next(&mut self) -> Option<Line>
        ensures line { self.old ≡ option_to_list result ++ self.new }
        ensures end { IsNone result ↔ (self.old ≡ []) }
    {
        let line = self.left.pop();
        if self.left.len() < self.room - self.room / PARTS_OF_ROOM {
            self.left.shrink_to_fit();
            self.room = self.left.len();
        }
        line
    }
}
