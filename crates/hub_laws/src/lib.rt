//! Where nodes keep to what they are given, the journal is planned, its causes sent before; the same of a hub that
//! was closed.
//!
//! Laws of the board of turns: what holds of the journal of a run whose nodes keep, each by its own turns alone, to
//! what they are given.
//!
//! Laws of the hub: what holds of the journal of a hub that was closed, where nodes keep to what they are given, each
//! by its own turns alone; when hosts begin; and how often a node is told of a flag.
#![tactic(auto)]

mod closed_laws;
mod laws;

pub use closed_laws::{
    a_closed_hub_has_held, a_flag_is_told_once_a_line, a_hub_is_closed, a_pass_goes_on,
    hosts_begin_when_the_setup_host_is_done,
};
pub use laws::{a_run_is_kept, what_is_kept_is_planned, what_is_told_once};
