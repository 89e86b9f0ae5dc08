//! Why words are no command.
use crate::ValueOption;

/// Why words are no command: the first of them that is at fault, or what they lack.
#[derive(Clone, Copy, PartialEq, Eq)]
pub enum CtlFault<'a> {
    /// There are no words.
    NoCommand,
    /// This is no command, not the cluster's name, no member's name, no option of the command, or no setting. An option
    /// is named with its value, where they are one word, but a value that isn't a name or a setting is named alone.
    Unknown(&'a str),
    /// No word is at fault, and this lacks.
    Missing(Needed),
    /// This is an option that was there before, or a word too many.
    Extra(&'a str),
}

/// What a command may lack.
#[derive(Clone, Copy, PartialEq, Eq)]
pub enum Needed {
    /// The cluster's name, printed as `CLUSTER`.
    Cluster,
    /// A member's name, printed as `M`.
    Member,
    /// An option, or its value. It is printed as the option.
    Value(ValueOption),
}
