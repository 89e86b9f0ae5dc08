//! What there is to look at.

/// What a browser may look at, each at a path of its own.
#[derive(Clone, Copy, Debug, PartialEq, Eq)]
pub enum View {
    /// `/`: the page itself, `DOCUMENT`.
    Page,
    /// `/state`: clock, member table and servers, as `state_text` has them.
    State,
    /// `/events`: the last events.
    Events,
    /// `/picture.svg`: the picture of the last minutes.
    Picture,
}
