//! Rows of tables over two stores of any kind: batches of acts, parts of filesets that are sent, and questions. A store
//! is given only what it may be given.
#![tactic(auto)]

mod asking;
mod doing;
mod everything;
mod rows;
mod runs;
mod sound;
mod tried;
mod world;

pub use rows::{all_told, judge_all, rows_in};
pub use runs::{Reached, Run, all_of, is_among};
pub use tried::Tried;
pub use world::{World, roster};
