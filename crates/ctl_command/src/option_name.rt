//! The options.

/// An option that takes a value.
#[derive(Clone, Copy, PartialEq, Eq)]
pub enum ValueOption {
    /// `--leader M`: who leads.
    Leader,
    /// `--candidate M`: who is to lead.
    Candidate,
    /// `--set KEY=VALUE`: what is changed.
    Set,
}

/// An option.
#[derive(Clone, Copy)]
pub enum OptionName {
    /// `--force`, which takes no value: nothing is asked back.
    Force,
    Value(ValueOption),
}
