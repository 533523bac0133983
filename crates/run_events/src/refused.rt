//! Why a text is no journal.

use std::alloc::AllocError;
use thiserror::Error;

/// What is wrong with a line.
#[derive(Clone, Copy, Debug, Error)]
pub enum Why {
    /// It is no JSON, or nested too deep.
    #[error("it is no JSON")]
    Json,
    /// It is no first line of a journal: there is no version, or no start.
    #[error("it begins no journal")]
    Head,
    /// The journal is of another version than 1.
    #[error("the journal is of another version")]
    Version,
    /// Its node is none, or isn't in the roster.
    #[error("it has no node of the roster")]
    Node,
    /// Its cause is none.
    #[error("it has no cause")]
    Cause,
    /// What is sent is no list of messages between nodes of the roster.
    #[error("what it sends is no list of messages")]
    Sent,
    /// What is taken is no list of tokens.
    #[error("what it takes is no list of tokens")]
    Taken,
    /// What is dropped is no list of tokens with reasons.
    #[error("what it drops is no list of tokens")]
    Dropped,
    /// The answers are no list of calls with replies.
    #[error("its answers are no list")]
    Answers,
    /// What a server applied is no list.
    #[error("what it applies is no list")]
    Applied,
    /// The line wasn't read: memory ran out.
    #[error("memory ran out")]
    Memory,
}

impl From<AllocError> for Why {
    fn from(_error: AllocError) -> Why {
        Why::Memory
    }
}

/// A line that is none of a journal.
#[derive(Clone, Copy, Debug, Error)]
#[error("line {line}: {why}")]
pub struct Refused {
    /// Its number, from 1.
    pub line: u64,
    /// What is wrong with it.
    pub why: Why,
}
