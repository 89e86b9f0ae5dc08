//! How drawing ends.

/// How drawing ended: the exit status, as that of the program which plays runs.
#[derive(Clone, Copy, PartialEq, Eq)]
pub enum Status {
    /// The input was read to its end, and the whole picture is written.
    Done = 0,
    /// The input failed.
    ReadFault = 3,
    /// The output failed.
    WriteFault = 4,
    /// Memory is wanting.
    Memory = 5,
}

/// The line that is told of it, with its line feed.
pub fn message_of(status: Status) -> &'static str {
    match status {
        Status::Done => "",
        Status::ReadFault => "read fault\n",
        Status::WriteFault => "write fault\n",
        Status::Memory => "out of memory\n",
    }
}
