//! The names of options.

/// What an option of a member is about: the word before its `=`.
#[derive(Clone, Copy, PartialEq, Eq)]
pub enum OptionName {
    Host,
    NoFailover,
    NoSync,
    NoLoadBalance,
    Priority,
    Watchdog,
    Device,
    Margin,
}
