//! The layout of an aggregate on its disk: where its parts stand, the words of the superblock, of the log's halves
//! and of its entries, and what the bytes of a log mean. The log itself stands above. It keeps old and new values of
//! metadata pages, as in S. Chutani et al., "The Episode File System", 1992; the two halves, their generations and
//! the gate bytes are this project's own.
#![tactic(auto)]

mod entry;
mod half;
mod numbers;
mod places;
mod server;
mod superblock;

pub use entry::{ENTRIES, ENTRY, Entry, entry_bytes, read_entry};
pub use half::{Half, Header, read_header, used_half};
pub use numbers::{put_bytes, put_u16, put_u32, put_u64, u16_at, u32_at, u64_at};
pub use places::{CLOSED, HALF_STARTS, OPEN, PAGE, PAGES_START, pages_of};
pub use server::new_server_page;
pub use superblock::{BLOCKS_MAX, Superblock, is_marked, read_superblock, superblock_bytes};
