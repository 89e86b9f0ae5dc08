//! How a run of the program ends.

/// How the program ended. Its number is the exit status.
#[derive(Clone, Copy, PartialEq, Eq)]
pub enum Status {
    /// The whole output is written, and the input was read to its end, where it is read.
    Done = 0,
    /// The bytes pass no limit and are no script, or one that declares no such member.
    NotScript = 1,
    /// The words are no command.
    Usage = 2,
    /// The input failed.
    ReadFault = 3,
    /// The output failed.
    WriteFault = 4,
    /// Memory is wanting.
    Memory = 5,
    /// The door failed to open, or to bring a connection.
    DoorFault = 6,
    /// The bytes pass a limit of scripts, or more lines are to be drawn than may be.
    Limit = 7,
}

impl Status {
    ghost use Rattle.std.specs.Prelude.{◌≡◌};
    ghost use Rattle.command_line.specs.Status.{code_of};

    /// The exit status.
    pub fn code(self) -> u8
        ensures { result ≡ code_of self }
    {
        self as u8
    }
}
