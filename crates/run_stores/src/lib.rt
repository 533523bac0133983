//! The store of a server keeps what its server keeps by the rules of runs.
#![tactic(auto)]

mod laws;

pub use laws::{
    change_law, end_law, epoch_law, give_law, number_law, piece_law, refusal_law, reply_law,
    stand_law, step_law, tell_law, wants_law,
};
