//! A gate that holds a host at a line until another one goes on.

use anyhow::{Context, Result};
use base_types::Node;
use service_run::Gate;
use std::sync::atomic::{AtomicU64, Ordering};

// How often the gate looks, as good as for ever, or for a moment.
const WAIT: u64 = 100_000_000_000;

const LOOK: u64 = 1_000_000;

/// A line whose host is held until the host of another one goes on at that.
#[derive(Clone, Copy, Debug, PartialEq, Eq)]
pub struct Hold {
    /// The number of the line that is held.
    line: u32,
    /// The number of the other.
    until: u32,
    /// Whether it is held as long as it takes, else for a moment alone.
    lasts: bool,
}

/// Reads a hold: `LINE waits LINE`, or with `looks` where the first is held for a moment alone.
pub fn hold_of(text: &str) -> Result<Option<Hold>> {
    let Some((line, rest)) = text.split_once(' ') else {
        return Ok(None);
    };
    let Some((word, until)) = rest.split_once(' ') else {
        return Ok(None);
    };
    Ok(Some(Hold {
        line: line.parse::<u32>().context("the number of a line")?,
        until: until.parse::<u32>().context("the number of a line")?,
        lasts: word == "waits",
    }))
}

/// A gate that holds the host of one line, if any.
#[derive(Drop)]
pub struct LineGate {
    hold: Option<Hold>,
    // 1 once the other host has gone on.
    told: AtomicU64,
    // 1 once it was looked for in vain.
    missed: AtomicU64,
}

impl LineGate {
    /// A gate with this hold.
    pub fn new(hold: Option<Hold>) -> LineGate {
        LineGate {
            hold,
            told: AtomicU64::new(0),
            missed: AtomicU64::new(0),
        }
    }

    // Looks so often at most whether the other host has gone on.
    fn hears(&self, often: u64) -> bool {
        for _ in 0..often {
            if self.told.load(Ordering::SeqCst) == 1 {
                return true;
            }
        }
        false
    }

    /// Whether the other host went on while the first was held, as it has to, or not, where it was held for a moment.
    pub fn is_right(&self) -> bool {
        let met = self.missed.load(Ordering::SeqCst) == 0;
        match self.hold {
            Some(hold) => met == hold.lasts,
            None => true,
        }
    }
}

impl Gate for LineGate {
    fn before(&self, _node: Node, line: u32) {
        let Some(hold) = self.hold else {
            return;
        };
        if line == hold.until {
            self.told.store(1, Ordering::SeqCst);
        }
        let often = if hold.lasts { WAIT } else { LOOK };
        if line == hold.line && !self.hears(often) {
            self.missed.store(1, Ordering::SeqCst);
        }
    }
}
