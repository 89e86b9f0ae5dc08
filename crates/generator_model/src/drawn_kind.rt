//! What a line asks for that a draw gives.

/// What a line asks for.
#[derive(Clone, Copy, PartialEq, Eq)]
pub enum DrawnKind {
    Run,
    Commit,
    Suspend,
    Resume,
    Crash,
    StartAgent,
    Link,
}
