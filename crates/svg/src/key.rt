//! The attributes of elements.

/// What an attribute says.
#[derive(Clone, Copy, PartialEq, Eq)]
pub enum Key {
    X,
    Y,
    Width,
    Height,
    Class,
    ViewBox,
    Namespace,
}
