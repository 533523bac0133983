//! An ended run answers its script: in it each call of a host has one entry in the history.
#![tactic(auto)]

mod laws;

pub use laws::{
    calls_are_answered, calls_have_entries, ended_runs_leave_none_open, runs_tell_replies,
};
