//! Filesets of the file service: where paths lead, what a fileset answers to each call that it decides alone, the
//! blocks that it is promised, and its clones.
#![tactic(auto)]

mod answer;
mod changing;
mod checks;
mod creating;
mod fileset;
mod founding;
pub mod laws;
mod outcome;
mod promise;
mod removing;
mod renaming;
mod replying;
mod telling;
mod using;
mod walk;

pub use creating::{Creation, NewObject, Vacancy};
pub use fileset::{Fileset, MOVES_MAX, object_at};
pub use promise::OBJECT_BLOCKS;
pub use removing::InUse;
pub use renaming::Move;
