//! A picture of a run: a sequence diagram as one SVG that stands alone. Time goes downwards, by step; each host and each
//! server has a line.
#![tactic(auto)]

mod bars;
mod choice;
mod draw;
mod page;
mod steps;
mod style;
mod svg;
mod ways;

pub use choice::Shown;
pub use draw::picture_of;
