//! The commands.

/// A command, by its word alone.
#[derive(Clone, Copy)]
pub enum CommandName {
    List,
    History,
    ShowConfig,
    Pause,
    Resume,
    EditConfig,
    Switchover,
    Failover,
    Restart,
    Reinit,
}
