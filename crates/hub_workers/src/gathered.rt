//! All workers, each in a thread.
ghost use Rattle.std.specs.Prelude.{◌≡◌, ◌+◌, ◌≤◌, [], length, map, IfOk};
ghost use Rattle.hub_workers.specs.Rows.{IsDone, AreJobs, IsGathered, AreDone};

use crate::log::{Entry, Log};
use crate::worker::{Done, Job, work};
use base_types::NoMemory;
use hub_cell::{Pass, TurnCell};
use std::alloc::Global;
use std::sync::Wait;
use std::thread;
use std::thread::Threads;

/// The list, and how many entries each worker made.
#[derive(Drop)]
pub struct Gathered {
    pub entries: Vec<Entry>,
    pub counts: Vec<u32>,
}

// A job for each worker, the last one with the first pass.
fn jobs(
    alloc: Global,
    cell: &TurnCell<Log>,
    mut first: Pass<Entry>,
    workers: u32,
) -> Result<Vec<Job>, NoMemory>
    requires cell { first.cell ≡ cell.now.id }
    requires fresh { (first.made ≡ []) × (first.spare + 1 ≡ workers) }
    ensures { IfOk result (λ jobs. AreJobs cell.now.id workers jobs.items) }
{
    let mut jobs = Vec::new(alloc);
    for worker in 0..workers - 1 {
        let Some(pass) = cell.split(&mut first) else {
            unreachable!()
        };
        jobs.push(Job { worker, pass })?;
    }
    jobs.push(Job {
        worker: workers - 1,
        pass: first,
    })?;
    Ok(jobs)
}

// Lets each worker work in a thread of its own, where one can be started.
fn work_all<R: Threads + Wait + Sync>(
    rt: &R,
    cell: &TurnCell<Log>,
    jobs: Vec<Job>,
    turns: u32,
) -> Result<Vec<Done>, NoMemory>
    requires { AreJobs cell.now.id (length jobs.items) jobs.items }
    ensures len { IfOk result (λ done. length done.items ≡ length jobs.items) }
    ensures each { IfOk result (λ done. AreDone jobs.items turns done.items) }
{
    Ok(thread::map_vec(
        rt,
        jobs,
        &|job: Job| -> Done
            requires { job.pass.cell ≡ cell.now.id }
            ensures { IsDone job turns result }
        { work(rt, cell, job, turns) },
    )?)
}

// The passes, and how many entries were made through each.
fn apart(alloc: Global, done: Vec<Done>) -> Result<(Vec<Pass<Entry>>, Vec<u32>), NoMemory>
    ensures passes { IfOk result (λ r. r.0.items ≡ map (λ d. d.pass) done.items) }
    ensures counts { IfOk result (λ r. r.1.items ≡ map (λ d. d.count) done.items) }
{
    let mut passes = Vec::new(alloc);
    let mut counts = Vec::new(alloc);
    for each in done {
        let Done { count, pass } = each;
        passes.push(pass)?;
        counts.push(count)?;
    }
    Ok((passes, counts))
}

/// Lets so many workers, 1 or more, take so many turns each, in threads where they can be started. Each worker's
/// entries stand in the list in their order, each once. The only error is that memory ran out.
pub fn run<R: Threads + Wait + Sync>(
    rt: &R,
    alloc: Global,
    workers: u32,
    turns: u32,
) -> Result<Gathered, NoMemory>
    requires { 1 ≤ workers }
    ensures { IfOk result (λ g. IsGathered workers turns g) }
{
    let (cell, first) = TurnCell::new(alloc, Log::new(alloc), workers)?;
    let jobs = jobs(alloc, &cell, first, workers)?;
    let done = work_all(rt, &cell, jobs, turns)?;
    let (passes, counts) = apart(alloc, done)?;
    let Ok(log) = cell.close(passes) else {
        unreachable!()
    };
    Ok(Gathered {
        entries: log.into_entries(),
        counts,
    })
}
