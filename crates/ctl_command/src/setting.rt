//! Settings as `edit-config` has them.

/// A setting of the dynamic configuration, as `--set KEY=VALUE` names it (Patroni documentation, "patronictl
/// edit-config").
#[derive(Clone, Copy, PartialEq, Eq)]
pub struct Setting<'a> {
    /// The names of the objects in which the setting stands, and then its own, between dots. Of what is read none is empty.
    pub key: &'a str,
    /// Its value: JSON, or else a text. It may be empty.
    pub value: &'a str,
}
