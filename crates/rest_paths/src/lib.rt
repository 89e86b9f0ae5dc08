//! What a request to the REST interface of an agent asks for, by its method and its path alone.
#![tactic(auto)]

mod asking;
mod change;
mod laws;
mod resource;
mod routing;

pub use asking::Ask;
pub use change::Change;
pub use laws::{
    known_paths_are_found, options_ask_as_heads_do, paths_stand_for_themselves,
    queries_change_nothing, safe_methods_change_nothing, unknown_paths_are_not_found,
};
pub use resource::{Operation, Page, Resource};
pub use routing::Routes;
