//! A server's step, taken apart; rules of contents and labels, whatever a step writes and shows, and what follows.
//!
//! A server's step, taken apart: its doings one after the other, each of which meets the rules of tokens. The protocol
//! is this project's own, after Kazar et al., "DEcorum File System Architectural Overview", 1990.
//!
//! What hosts see, what servers keep, and what the tree has, part by part: by the rules of tokens and contents they
//! agree wherever a token is held. The rules are stated for whatever a step writes, shows and gives back, so they and
//! the argument know no message's layout and no call. The protocol is this project's own, after Kazar et al., "DEcorum
//! File System Architectural Overview", 1990.
//!
//! Labels of locks and open files in use, over tokens and servers that restart. The protocol is this project's own,
//! after Kazar et al., "DEcorum File System Architectural Overview", 1990.
#![tactic(auto)]

mod label_laws;
mod laws;
mod place_laws;

pub use label_laws::labels_are_coherent;
pub use laws::a_step_is_its_doings;
pub use place_laws::contents_are_coherent;
