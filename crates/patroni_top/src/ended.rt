//! How a run ended, with the world that it leaves.
use command_line::Status;
use pat_world::World;

/// How a run ended, with the world that it leaves.
pub struct Ended {
    /// How it ended.
    pub status: Status,
    /// The world after the last step. It is there exactly where the status is `Done` and a run was played. It can't be dropped: whoever
    /// gets it closes it by `World::close`.
    pub world: Option<World>,
}
