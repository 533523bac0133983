//! The acts of a store on its disk, and batches of them. Each act is one transaction of the log, which puts what the
//! act changed of the store's record into the pages of the server, of headers and of numbers, and into the anodes of a
//! slot. The pages then say the record that the act left, as the store in memory has it. A batch has one force behind
//! its acts; a crash leaves what the first of them made. What the store has in memory goes ahead of the log by one act.
//!
//! That metadata is logged, that an operation on a filesystem is one transaction of few pages, and that several are
//! made durable by one write of the log (group commit) is after Chutani et al., "The Episode File System", 1992; the
//! acts are this project's own.
#![tactic(auto)]

mod acts;
mod anodes;
mod batch;
mod counting;
mod facts;
mod laws;
mod one;
mod promises;
mod room;
mod running;
mod seen;
mod settling;
mod touched;

pub use acts::{act_blocks, put_act};
pub use batch::put_batch;
pub use laws::tables_law;
pub use promises::promises_leave_room;
pub use running::ACT_ENTRIES;
pub use touched::{Before, keep_before};
