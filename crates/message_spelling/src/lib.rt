//! The messages between hosts and file servers, and between file servers, with one spelling each.
#![tactic(auto)]

mod asking;
mod body;
mod coding;
mod giving;
mod moving;
mod telling;
mod tokens;

pub use coding::{DecodeRefused, decode, encode, one_spelling, reads_back};
