//! Nodes are dealt out to workers, and collected again.
ghost use Rattle.std.specs.Prelude.{◌≡◌, ◌≤◌, ◌<◌, ◌+◌, ◌++◌, [], IfOk, List, length, map, true, vec_capacity};
ghost use Rattle.hub_drive.specs.Dealt.{AreDealt, HasMoved, worker_at};
ghost use Rattle.hub_drive.specs.Seats.{EachAt};

use base_types::NoMemory;
use std::alloc::Global;

// The worker to whom the node at a place belongs: the hosts come first, and are dealt out in turn, and so are the
// servers behind them.
fn worker_at(hosts: usize, workers: usize, place: usize) -> usize
    requires { 0 < workers }
    ensures is { result ≡ worker_at hosts workers place }
    ensures within { result < workers }
{
    if place < hosts {
        place % workers
    } else {
        (place - hosts) % workers
    }
}

/// So many empty lists. The only error is want of memory.
pub(crate) fn empty_bundles<T: Drop>(alloc: Global, workers: usize) -> Result<Vec<Vec<T>>, NoMemory>
    ensures { IfOk result (λ bundles. EachAt (λ b. b.items ≡ []) bundles.items) }
{
    let mut bundles = Vec::new(alloc);
    for _ in 0..workers {
        bundles.push(Vec::new(alloc))?;
    }
    Ok(bundles)
}

// The last of a list goes to the end of another. Answers false where there is none, or memory lacks.
fn move_last<T: Drop>(from: &mut Vec<T>, to: &mut Vec<T>) -> bool
    ensures moved { HasMoved from.old.items from.new.items to.old.items to.new.items result }
    ensures can { 0 < length from.old.items → length to.old.items < vec_capacity to.old → result ≡ true }
    ensures room { vec_capacity to.old ≤ vec_capacity to.new }
    ensures left { vec_capacity from.new ≡ vec_capacity from.old }
{
    if to.reserve(1).is_err() {
        return false;
    }
    let Some(last) = from.pop() else {
        return false;
    };
    to.push_reserved(last);
    true
}

/// Deals some out to the workers, from the last on, as far as memory lasts.
pub(crate) fn deal<T: Drop>(hosts: usize, all: &mut Vec<T>, bundles: &mut [Vec<T>])
    requires some { 0 < length bundles.old }
    requires empty { EachAt (λ b. b.items ≡ []) bundles.old }
    ensures many { length bundles.new ≡ length bundles.old }
    ensures room { vec_capacity all.new ≡ vec_capacity all.old }
    ensures dealt { (rest : List T) × (all.old.items ≡ all.new.items ++ rest)
        × AreDealt (worker_at hosts (length bundles.old)) (length all.new.items) rest
        (map (λ b. b.items) bundles.new) }
{
    for _ in 0..all.len() {
        let Some(place) = all.len().checked_sub(1) else {
            return;
        };
        let worker = worker_at(hosts, bundles.len(), place);
        if !move_last(all, &mut bundles[worker]) {
            return;
        }
    }
}

/// Collects those that were dealt out, behind those that weren't, so that there are so many again.
pub(crate) fn collect<T: Drop>(hosts: usize, count: usize, bundles: &mut [Vec<T>], all: &mut Vec<T>)
    requires some { 0 < length bundles.old }
    requires room { count ≤ vec_capacity all.old }
    ensures { (rest : List T) → AreDealt (worker_at hosts (length bundles.old)) (length all.old.items) rest
        (map (λ b. b.items) bundles.old) → length all.old.items + length rest ≡ count
        → all.new.items ≡ all.old.items ++ rest }
{
    for place in all.len()..count {
        let worker = worker_at(hosts, bundles.len(), place);
        let _moved = move_last(&mut bundles[worker], all);
    }
}
