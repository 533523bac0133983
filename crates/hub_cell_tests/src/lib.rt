//! Tests of the cell that threads take turns at.
#![tactic(auto)]

#[cfg(test)]
mod tests;

/// The crates that are tested here.
pub const TESTED: [&str; 2] = ["hub_cell", "hub_workers"];
