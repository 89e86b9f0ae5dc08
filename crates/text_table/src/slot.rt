//! The places of columns in a line.
use crate::Alignment;

/// What a line has to know of a column.
#[derive(Clone, Copy, PartialEq, Eq)]
pub(crate) struct Slot {
    /// How many bytes its texts take, without the space on both sides.
    pub width: usize,
    /// On which side they stand.
    pub alignment: Alignment,
}
