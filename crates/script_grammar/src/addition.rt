//! What a line adds to a script.
use member_options::MemberOptions;
use pat_base::Name;
use script_model::Line;

/// What a line behind the cluster's adds to a script.
#[derive(Drop)]
pub enum Addition {
    /// One more member, with this name and these options.
    Member(Name, MemberOptions),
    /// The base, in bytes: 1 to 2^40.
    Base(u64),
    /// One more line of the body.
    Body(Line),
}
