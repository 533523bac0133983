//! Laws that tie the stores of all servers to the file tree: the record of one store to a call and a give-back, the
//! stores of all servers to the entries of a history, one by one and over whole histories, moves included.
#![tactic(auto)]

mod history_laws;
mod kept_laws;
mod laws;
mod moved_laws;

pub use history_laws::{boot_law, history_law};
pub use kept_laws::{
    found_kept_law, give_kept_law, idle_law, keep_law, move_kept_law, row_kept_law,
};
pub use laws::{found_law, give_law, left_law, move_law, row_law};
pub use moved_laws::{moved_law, piece_law, split_law};
