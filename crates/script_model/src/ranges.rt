//! Numbers of commands, with their ranges.
ghost use Rattle.std.specs.Prelude.{◌≤◌};
ghost use Rattle.script_model.specs.Bounds.{longest_commit, longest_delay};

/// The shortest commit, in bytes.
const SHORTEST_COMMIT: u64 = 1;

/// The longest commit, in bytes.
const LONGEST_COMMIT: u64 = 1_073_741_824;

/// The longest delay, in ticks.
const LONGEST_DELAY: u64 = 100_000;

/// How long a commit is, in bytes: 1 to 2^30.
#[derive(Clone, Copy, PartialEq, Eq)]
pub struct CommitSize {
    /// From 1, and at most 2^30.
    pub bytes: u64,
    ghost least: { 1 ≤ bytes },
    ghost most: { bytes ≤ longest_commit },
}

impl CommitSize {
    ghost use Rattle.std.specs.Prelude.{◌≡◌, ◌≤◌, ◌↔◌, IsSome, IfSome};
    ghost use Rattle.script_model.specs.Bounds.{longest_commit};
    ghost use Rattle.script_model.specs.Ranges.{commit_size_of};

    /// A commit of so many bytes. `None` exactly where they are 0 or more than 2^30.
    pub fn new(number: u64) -> Option<Self>
        ensures found { IsSome result ↔ ((1 ≤ number) × (number ≤ longest_commit)) }
        ensures value { IfSome result (λ size. size.bytes ≡ number) }
        ensures by_number { result ≡ commit_size_of number }
    {
        if number < SHORTEST_COMMIT || number > LONGEST_COMMIT {
            None
        } else {
            Some(CommitSize { bytes: number })
        }
    }
}

/// How long a stop or a start takes, in ticks of 100 ms: at most 100,000.
#[derive(Clone, Copy, PartialEq, Eq)]
pub struct Delay {
    /// At most 100,000, of 100 ms each.
    pub ticks: u64,
    ghost most: { ticks ≤ longest_delay },
}

impl Delay {
    ghost use Rattle.std.specs.Prelude.{◌≡◌, ◌≤◌, ◌↔◌, IsSome, IfSome};
    ghost use Rattle.script_model.specs.Bounds.{longest_delay};
    ghost use Rattle.script_model.specs.Ranges.{delay_of};

    /// A delay of so many ticks. `None` exactly where they are more than 100,000.
    pub fn new(number: u64) -> Option<Self>
        ensures found { IsSome result ↔ (number ≤ longest_delay) }
        ensures value { IfSome result (λ delay. delay.ticks ≡ number) }
        ensures by_number { result ≡ delay_of number }
    {
        if number > LONGEST_DELAY {
            None
        } else {
            Some(Delay { ticks: number })
        }
    }
}
