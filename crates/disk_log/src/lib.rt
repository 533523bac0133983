//! The write-ahead log of an aggregate: transactions that put metadata pages, over any disk. What ended and was forced
//! survives every crash whole; of what ended since, a crash leaves the first transactions in the order of their ends.
//! Old and new values of metadata are logged, as in S. Chutani et al., "The Episode File System", 1992.
#![tactic(auto)]

mod all_pages;
mod append;
mod checkpoint;
mod fault;
mod fetch;
mod format;
mod kept;
mod log;
mod mount;
mod over;
mod put;
mod read;
mod recover;
mod slots;
mod switch;

pub use all_pages::settled_pages;
pub use fault::LogFault;
pub use kept::Tx;
pub use log::Log;
pub use read::{found_superblock, is_blank, read_used};
