//! Scripts: what bytes say to the nodes of the service, or why they are refused. The grammar is this project's own.
#![tactic(auto)]

mod laws;
mod read;
mod refused;
mod walk;

pub use laws::{
    all_lines_go, later_lines_change_nothing, orders_leave_the_same, stuck_names_least,
    stuck_without_order,
};
pub use read::read_script;
pub use refused::ScriptRefused;
pub use script_lines::same_node;
pub use walk::can_go;
