//! In every run what hosts answer and servers decide is legal; labels in use are the hosts'; the history is legal,
//! and caches are exact on it.
//!
//! In every run contents are coherent; and what hosts answer and servers store and decide is legal, entry by entry, on
//! each tree that agrees with the run there. The protocol is this project's own, after Kazar et al., "DEcorum File
//! System Architectural Overview", 1990.
//!
//! In every run the labels in use are those of the hosts, and names lead to the filesets that hosts have entered; what
//! servers decide by them is legal. The protocol is this project's own, after Kazar et al., "DEcorum File System
//! Architectural Overview", 1990.
//!
//! The history of a run as a whole: each step passes a tree on that agrees with the run; so the history is legal, its
//! tree has at each time the parts of the run, caches are exact on it, and an ended run may be followed by another. The
//! protocol is this project's own, after Kazar et al., "DEcorum File System Architectural Overview", 1990.
#![tactic(auto)]

mod laws;
mod past_laws;
mod use_laws;

pub use laws::{
    an_ended_run_leaves_nothing_unsaved, calls_are_answered_from_cache_exactly,
    hosts_answer_legally, runs_are_coherent, servers_decide_legally, servers_store_legally,
    unsaved_is_granted,
};
pub use past_laws::{
    an_ended_run_may_be_followed, caches_are_exact, every_past_is_legal, hosts_have_their_labels,
    steps_pass_the_tree_on, the_worked_past_is_legal,
};
pub use use_laws::{
    changes_are_meant, changes_ask_rightly, decisions_are_granted, hosts_keep_labels,
    names_lead_on, servers_decide_uses, servers_keep_labels,
};
