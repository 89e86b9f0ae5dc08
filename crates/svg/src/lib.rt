//! Documents of SVG as elements, and their text: escaped, and with each element closed.
#![tactic(auto)]

mod escaping;
mod key;
mod laws;
mod paint;
mod shapes;
mod tag;

pub use escaping::push_escaped;
pub use key::Key;
pub use laws::{forests_are_well_formed, no_markup_comes_of_text};
pub use paint::{Paint, class_word};
pub use shapes::{Area, Spot, close, open_group, open_root, push_label, push_rect, push_style};
pub use tag::Tag;
