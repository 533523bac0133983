//! What one worker does.
ghost use Rattle.std.specs.Prelude.{◌≡◌};
ghost use Rattle.hub_workers.specs.Rows.{IsDone};

use crate::log::{Add, Entry, Log};
use hub_cell::{Pass, TurnCell};
use std::sync::Wait;

/// A worker and its pass.
#[derive(Drop)]
pub struct Job {
    pub worker: u32,
    pub pass: Pass<Entry>,
}

/// How many entries a worker made, and its pass.
#[derive(Drop)]
pub struct Done {
    pub count: u32,
    pub pass: Pass<Entry>,
}

/// Takes so many turns, each of which adds an entry, and stops where memory runs out. It may wait for other threads.
pub fn work<R: Wait>(rt: &R, cell: &TurnCell<Log>, job: Job, turns: u32) -> Done
    requires { job.pass.cell ≡ cell.now.id }
    ensures { IsDone job turns result }
{
    let Job { worker, mut pass } = job;
    for number in 0..turns {
        let mut add = Add {
            entry: Entry { worker, number },
            added: false,
        };
        cell.turn(rt, &mut pass, &mut add);
        if !add.added {
            return Done {
                count: number,
                pass,
            };
        }
    }
    Done { count: turns, pass }
}
