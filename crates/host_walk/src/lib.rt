//! What a call finds on its way, as far as its host sees under the tokens that it holds, or the first token that it
//! lacks (after the walk of a cache manager; Kazar et al., "DEcorum File System Architectural Overview", 1990).
#![tactic(auto)]

mod laws;
mod looks;
mod marks;
mod needs;
mod sight;

pub use laws::walk_law;
pub use looks::list_of;
pub use marks::{mark, mark_way};
pub use needs::{
    blocks_around, bytes_need, bytes_to_read, bytes_to_write, end_of, length_need, positions,
    status_need, whole_need,
};
pub use sight::{Sight, Stop, rights_on};
