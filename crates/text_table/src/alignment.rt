//! Alignments.

/// On which side of its column a text stands.
#[derive(Clone, Copy, PartialEq, Eq)]
pub enum Alignment {
    /// At the left, as words do.
    Left,
    /// At the right, as numbers do.
    Right,
}
