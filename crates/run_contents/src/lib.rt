//! Runs meet the rules of contents and of labels, though these are stated in other words than those of hosts and
//! servers: what a host's step writes, shows and gives back, what a server keeps and does, and what holds of a run as a
//! whole. The protocol is this project's own, after Kazar et al., "DEcorum File System Architectural Overview", 1990.
#![tactic(auto)]

mod laws;

pub use laws::{
    a_give_back_is_kept, a_server_starts_kept, calls_go_in_order, filesets_are_alike,
    granted_tokens_are_sound, hosts_meet_the_rules_of_contents, hosts_show_what_they_are_told,
    labels_are_coherent, servers_bring_what_is_asked, servers_keep_well,
    servers_meet_the_rules_of_contents, tokens_leave_with_cause,
};
