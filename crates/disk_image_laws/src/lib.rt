//! Laws of the bytes of a disk, each the clause of a function that does nothing. What a page says determines each of
//! its bytes, so that damage to a byte is a fault or makes the page say something else. What is judged and read is the
//! superblock, the pages of the log after redo and undo, and the blocks: so what a crash leaves of a log that stays as
//! it is has the same image, and an aggregate of format 1 has it in format 2. Faultless filesets are trees. What an
//! aggregate's pages and blocks hold of its objects is what the image of its disk has.
#![tactic(auto)]

mod image_laws;
mod object_laws;
mod page_laws;
mod same_laws;

pub use image_laws::{formed_law, fresh_law, reach_law, refused_law};
pub use object_laws::{anode_law, count_law, faultless_law, image_law, order_law};
pub use page_laws::{list_law, page_law};
pub use same_laws::{format_law, same_law};
