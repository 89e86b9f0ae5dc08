//! The picture of a run: lanes with bars and marks over a time axis.
#![tactic(auto)]

mod alarms;
mod axis;
mod band;
mod bars;
mod drawing;
mod frame;
mod lanes;
mod laws;
mod legend;
mod marks;
mod stretches;

pub use drawing::picture_of;
pub use laws::pictures_are_well_formed;
