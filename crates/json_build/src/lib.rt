//! JSON values that are built member by member and item by item, without floats, so that their text is known to the byte.
#![tactic(auto)]

mod list;
mod object;

pub use list::List;
pub use object::Object;
