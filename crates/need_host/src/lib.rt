//! What each call looks at, and the tokens that a host needs thereby: the words by which a host's view and the tree are
//! compared (Kazar et al., "DEcorum File System Architectural Overview", 1990).
#![tactic(auto)]

mod laws;

pub use laws::{
    alike_law, look_law, name_law, need_law, show_law, walk_law, worked_law, write_law,
};
