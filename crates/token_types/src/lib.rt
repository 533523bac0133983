//! The tokens under which hosts cache files and directories, which of them conflict, and what they cover (Kazar et
//! al., "DEcorum File System Architectural Overview", 1990). The table of open kinds is this project's own.
#![tactic(auto)]

mod conflict;
mod cover;
mod token;

pub use conflict::{conflicts, wants_conflict};
pub use cover::covers;
pub use token::{Kind, Need, Token, TokenId};
