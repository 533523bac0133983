//! In every run tokens never conflict; nodes may rest; wants are served in turn; the oldest token goes.
#![tactic(auto)]

mod host_laws;
mod host_worked;
mod laws;
mod run_laws;
mod run_worked;
mod server_laws;
mod server_worked;
mod worked;

pub use host_laws::{host_may_rest, the_oldest_goes};
pub use host_worked::a_host_runs;
pub use laws::{
    a_doing_takes_effect, a_restart_forgets, nothing_is_allowed, tokens_of_steps_never_conflict,
};
pub use run_laws::tokens_never_conflict;
pub use run_worked::a_run_is_admitted;
pub use server_laws::{server_may_rest, wants_are_served_in_turn};
pub use server_worked::a_server_serves;
pub use worked::a_run_of_tokens_is_admitted;
