//! Steps that meet all rules, and a run of two hosts from its first step to its end, computed by tests.
//!
//! Steps of hosts and servers in states that runs reach, each of which meets all rules, and a lapse after it: so the
//! rules don't contradict one another there. What each rule says is computed from the steps as plain data.
//!
//! One run of the service, from its first step to its end, that all rules admit: so the rules of hosts and servers
//! don't contradict one another on it, and its history is computed. Each rule is a test on the steps as plain data.
#![tactic(auto)]

mod laws;
mod refused_laws;
mod worked_laws;

pub use laws::{
    a_blocked_fetch_is_granted, a_fetch_asks_for_all, a_grant_over_dirty_bytes_is_taken,
    a_growing_write_is_answered, a_late_change_is_decided_next, a_lock_is_kept,
    a_nameless_change_is_ignored, a_restart_is_answered, a_revoke_is_answered,
    a_second_change_is_ignored, a_server_reacts, a_stop_is_allowed, a_use_is_ended,
    a_write_is_asked_for, an_end_is_allowed, an_eviction_is_allowed, an_owed_token_is_asked_again,
    labels_taken_twice_end, odd_messages_are_borne, out_of_turn_is_refused, what_is_taken_is_used,
};
pub use refused_laws::{an_unanswered_call_is_no_run, odd_steps_are_refused};
pub use worked_laws::a_whole_run_is_admitted;
