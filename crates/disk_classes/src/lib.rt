//! Transactions that are joined, over one log. Several may be open at once. Two that put the same page come into one
//! class, and a class is committed as one transaction of the log once all its members have ended, as in S. Chutani et
//! al., "The Episode File System", 1992. A crash leaves a class whole or nothing of it.
#![tactic(auto)]

mod classes;
mod commit;
mod fault;
mod laws;
mod member;
mod members;

pub use classes::Classes;
pub use fault::ClassFault;
pub use laws::class_laws;
pub use member::Member;
