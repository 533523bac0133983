//! Runs in which nothing more can happen: what hosts and servers wait for, and what has come of it.
#![tactic(auto)]

mod laws;

pub use laws::{
    a_run_rests, byes_are_answered, claims_are_answered, ended_runs_rest, gives_are_known,
    greetings_are_answered, hosts_are_done, hosts_come_to_their_end, no_calls_are_open,
    no_grace_period_stands, no_wants_wait, nothing_is_owed, open_calls_await_answers,
    open_calls_stand_at_servers, requests_stand_as_wants, runs_end, what_waits_has_come,
};
