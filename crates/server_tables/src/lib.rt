//! What a file server knows of hosts, claims, wants and what it wrote down (Kazar et al., "DEcorum File System
//! Architectural Overview", 1990). The tables are this project's own.
#![tactic(auto)]

mod answered;
mod hosts;
mod pending;
mod recovering;
mod same;
mod tables;
mod wants;

pub use answered::without_token;
pub use hosts::Hosts;
pub use pending::{Pending, is_effect, is_meant_so, is_use};
pub use recovering::{Answered, Claimed, GaveUp, Recovering};
pub use same::{are_same_needs, is_same_answer};
pub use tables::{LastChange, LastGive, NO_FID, Tables};
