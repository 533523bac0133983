//! How the tokens of a file server that has restarted are claimed again by their hosts, in a grace period (Kazar et
//! al., "DEcorum File System Architectural Overview", 1990, on token state recovery). That a token whose give-back
//! was applied in the new epoch is left out is this project's own rule.
#![tactic(auto)]

mod recovery;

pub use recovery::{Recovery, grace_lasts};
