//! What each kind of line of a script says, in a context of names that are declared before it; and scripts, as the
//! nodes of the service follow them. The grammar is this project's own.
#![tactic(auto)]

mod asks;
mod clones;
mod context;
mod deeds;
mod flags;
mod headers;
mod index;
mod judge;
mod laws;
mod leads;
mod plan;
mod script;

pub use asks::{call_lines, same_node};
pub use context::Context;
pub use flags::Flags;
pub use index::Index;
pub use laws::{chains_place, circles_place_nothing, first_clone_places};
pub use script::{Deed, Line, NET_MAX, NUMBER_MAX, Net, PlanDeed, PlanLine, Script};
