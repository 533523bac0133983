//! What a host keeps of files and directories under the tokens that it holds: status, entries and bytes, and the order
//! in which the tokens were used (Kazar et al., "DEcorum File System Architectural Overview", 1990).
#![tactic(auto)]

mod bytes;
mod cache;
mod file;
mod held;
mod laws;
mod order;
mod recent;
mod same;

pub use cache::Cache;
pub use file::Shown;
pub use held::Held;
pub use laws::cache_law;
