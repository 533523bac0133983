//! Turns of many nodes.
ghost use Rattle.std.specs.Prelude.{◌≡◌, ◌<◌, [], false, length, true};
ghost use Rattle.hub_drive.specs.Seats.{EachAt, HasGone, IsAtRest, IsHere, IsIn, IsThrough, PairsAt};
ghost use Rattle.hub_node.specs.Nodes.{Beginning};

use crate::dealing::{collect, deal, empty_bundles};
use crate::gate::Gate;
use crate::seat::{Seat, turn};
use hub_node::Node;
use hub_turns::{Hub, Turned};
use std::sync::Wait;
use std::sync::atomic::{AtomicU64, Ordering};
use std::thread;
use std::thread::Threads;
use std::time::Duration;

/// What came of a turn of each of some nodes.
#[derive(Clone, Copy)]
pub(crate) struct Went {
    /// Each is done.
    pub through: bool,
    /// One of them did something.
    pub worked: bool,
    /// Something failed at one of them.
    pub stopped: bool,
}

/// Each node takes a turn, one after the other.
pub(crate) fn turn_all<N: Node, R: Wait, G: Gate>(
    rt: &R,
    hub: &Hub,
    gate: &G,
    seats: &mut [Seat<N>],
) -> Went
    requires { EachAt (IsHere N.stands hub.now) seats.old }
    ensures kept { EachAt (IsHere N.stands hub.now) seats.new }
    ensures through { (run : Beginning) → EachAt (IsIn N.stands run hub.now) seats.old → result.through ≡ true
        → EachAt (IsThrough N.stands run hub.now N.tells) seats.new }
    ensures rests { (run : Beginning) → EachAt (IsIn N.stands run hub.now) seats.old → result.worked ≡ false
        → result.stopped ≡ false → EachAt (IsAtRest N.stands run hub.now N.tells) seats.new }
    ensures gone { PairsAt (HasGone N.stands N.stays N.failed N.broken hub.now) seats.old seats.new }
{
    let mut went = Went {
        through: true,
        worked: false,
        stopped: false,
    };
    for k in 0..seats.len() {
        let turned = turn(rt, hub, gate, &mut seats[k]);
        went = went_on(went, turned, seats[k].fault.is_some());
    }
    went
}

// What has come of one turn more.
fn went_on(went: Went, turned: Turned, failed: bool) -> Went
    ensures through { result.through ≡ true → (went.through ≡ true) × (turned ≡ Turned.Ended) }
    ensures worked { result.worked ≡ false → (went.worked ≡ false) × (turned ≡ Turned.Worked → ⊥) }
    ensures stopped { result.stopped ≡ false → (went.stopped ≡ false) × (failed ≡ false) }
{
    Went {
        through: went.through && turned == Turned::Ended,
        worked: went.worked || turned == Turned::Worked,
        stopped: went.stopped || failed,
    }
}

// How many milliseconds a worker waits for those that haven't begun. Where no thread can be started for them they begin
// one after the other, when it has ended.
const PATIENCE: u64 = 100;

/// What workers on threads tell each other. No proof rests on it.
#[derive(Drop)]
struct Words {
    /// How often a round of some worker did something, or stopped.
    events: AtomicU64,
    /// How many workers haven't begun.
    late: AtomicU64,
    /// How many workers aren't waiting, with those that haven't begun.
    busy: AtomicU64,
    /// 1 where something failed.
    stop: AtomicU64,
}

impl Words {
    fn new(workers: u64) -> Words {
        Words {
            events: AtomicU64::new(0),
            late: AtomicU64::new(workers),
            busy: AtomicU64::new(workers),
            stop: AtomicU64::new(0),
        }
    }

    // Something has come about: who waits looks again.
    fn tell(&self) {
        self.events.fetch_add(1, Ordering::SeqCst);
        self.events.wake_all();
    }

    // Sleeps until something comes about behind what was seen; it may also wake for nothing. Answers false where
    // workers haven't begun for long.
    fn sleep<R: Wait>(&self, rt: &R, seen: u64) -> bool {
        let word = (seen & u32::MAX as u64) as u32;
        if self.late.load(Ordering::SeqCst) == 0 {
            self.events.park(rt, word);
            return true;
        }
        let patience = Duration::from_millis(PATIENCE);
        self.events.park_timeout(rt, word, patience);
        self.late.load(Ordering::SeqCst) == 0 || self.events.load(Ordering::SeqCst) != seen
    }

    // Waits until something comes about behind what was seen. Answers false where nobody is busy, or something failed.
    fn wait<R: Wait>(&self, rt: &R, seen: u64) -> bool {
        if self.busy.fetch_sub(1, Ordering::SeqCst) == 1 {
            self.tell();
            return false;
        }
        for _ in rt.forever() {
            if self.stop.load(Ordering::SeqCst) == 1 || self.busy.load(Ordering::SeqCst) == 0 {
                return false;
            }
            if self.events.load(Ordering::SeqCst) != seen {
                self.busy.fetch_add(1, Ordering::SeqCst);
                return true;
            }
            if !self.sleep(rt, seen) {
                return false;
            }
        }
        unreachable!()
    }
}

// What one worker does: its nodes take turns as long as any worker has something to do, and nothing failed.
fn work<N: Node, R: Wait, G: Gate>(
    rt: &R,
    hub: &Hub,
    gate: &G,
    words: &Words,
    seats: &mut [Seat<N>],
)
    requires { EachAt (IsHere N.stands hub.now) seats.old }
    ensures kept { EachAt (IsHere N.stands hub.now) seats.new }
    ensures gone { PairsAt (HasGone N.stands N.stays N.failed N.broken hub.now) seats.old seats.new }
{
    words.late.fetch_sub(1, Ordering::SeqCst);
    for _ in rt.forever() {
        let seen = words.events.load(Ordering::SeqCst);
        let went = turn_all(rt, hub, gate, seats);
        if went.stopped {
            words.stop.store(1, Ordering::SeqCst);
            words.tell();
            return;
        }
        if went.worked {
            words.tell();
        } else if !words.wait(rt, seen) {
            return;
        }
    }
    unreachable!()
}

// A worker's nodes take turns.
fn work_bundle<N: Node, R: Wait, G: Gate>(
    rt: &R,
    hub: &Hub,
    gate: &G,
    words: &Words,
    bundle: &mut Vec<Seat<N>>,
)
    requires { EachAt (IsHere N.stands hub.now) bundle.old.items }
    ensures gone { PairsAt (HasGone N.stands N.stays N.failed N.broken hub.now) bundle.old.items bundle.new.items }
{
    work(rt, hub, gate, words, bundle.as_mut_slice());
}

// Each bundle of nodes takes turns on a thread, where one can be started, until none has anything to do.
fn turn_bundles<N: Node + Send, R: Threads + Wait + Sync, G: Gate + Sync>(
    rt: &R,
    hub: &Hub,
    gate: &G,
    bundles: &mut [Vec<Seat<N>>],
)
    requires some { 0 < length bundles.old }
    requires here { EachAt (λ b. EachAt (IsHere N.stands hub.now) b.items) bundles.old }
    ensures gone { PairsAt (λ a b. PairsAt (HasGone N.stands N.stays N.failed N.broken hub.now) a.items b.items)
        bundles.old bundles.new }
{
    let words = Words::new(bundles.len() as u64);
    let told = &words;
    let workers = bundles.len();
    thread::for_each_mut(
        rt,
        bundles,
        workers,
        &|_place: usize, bundle: &mut Vec<Seat<N>>|
            requires { EachAt (IsHere N.stands hub.now) bundle.now.items }
            ensures gone { PairsAt (HasGone N.stands N.stays N.failed N.broken hub.entry.now) bundle.entry.now.items
                bundle.exit.now.items }
        { work_bundle(rt, hub, gate, told, bundle) },
    );
}

// Nodes are dealt out, take turns on threads until none has anything to do, and are collected again.
fn turn_dealt<N: Node + Send, R: Threads + Wait + Sync, G: Gate + Sync>(
    rt: &R,
    hub: &Hub,
    gate: &G,
    hosts: usize,
    seats: &mut Vec<Seat<N>>,
    bundles: &mut [Vec<Seat<N>>],
)
    requires here { EachAt (IsHere N.stands hub.now) seats.old.items }
    requires some { 0 < length bundles.old }
    requires empty { EachAt (λ b. b.items ≡ []) bundles.old }
    ensures gone { PairsAt (HasGone N.stands N.stays N.failed N.broken hub.now) seats.old.items seats.new.items }
{
    let count = seats.len();
    deal(hosts, seats, bundles);
    turn_bundles(rt, hub, gate, bundles);
    collect(hosts, count, bundles, seats);
}

// Nodes take turns by so many workers at most, each on a thread, until none has anything to do. Where memory lacks for
// that, those that have no worker take none.
fn turn_by_workers<N: Node + Send, R: Threads + Wait + Sync, G: Gate + Sync>(
    rt: &R,
    hub: &Hub,
    gate: &G,
    hosts: usize,
    seats: &mut Vec<Seat<N>>,
    workers: u32,
)
    requires here { EachAt (IsHere N.stands hub.now) seats.old.items }
    ensures gone { PairsAt (HasGone N.stands N.stays N.failed N.broken hub.now) seats.old.items seats.new.items }
{
    let count = seats.len().min(workers as usize);
    let Ok(mut bundles) = empty_bundles(*seats.allocator(), count) else {
        return;
    };
    if !bundles.is_empty() {
        turn_dealt(rt, hub, gate, hosts, seats, bundles.as_mut_slice());
    }
}

// Each node takes a turn.
fn turn_list<N: Node, R: Wait, G: Gate>(
    rt: &R,
    hub: &Hub,
    gate: &G,
    seats: &mut Vec<Seat<N>>,
) -> Went
    requires here { EachAt (IsHere N.stands hub.now) seats.old.items }
    ensures through { (run : Beginning) → EachAt (IsIn N.stands run hub.now) seats.old.items → result.through ≡ true
        → EachAt (IsThrough N.stands run hub.now N.tells) seats.new.items }
    ensures rests { (run : Beginning) → EachAt (IsIn N.stands run hub.now) seats.old.items → result.worked ≡ false
        → result.stopped ≡ false → EachAt (IsAtRest N.stands run hub.now N.tells) seats.new.items }
    ensures gone { PairsAt (HasGone N.stands N.stays N.failed N.broken hub.now) seats.old.items seats.new.items }
{
    turn_all(rt, hub, gate, seats.as_mut_slice())
}

// Nodes take turns by their workers, where there are several, and then one turn each.
fn turn_once<N: Node + Send, R: Threads + Wait + Sync, G: Gate + Sync>(
    rt: &R,
    hub: &Hub,
    gate: &G,
    hosts: usize,
    seats: &mut Vec<Seat<N>>,
    workers: u32,
) -> Went
    requires here { EachAt (IsHere N.stands hub.now) seats.old.items }
    ensures through { (run : Beginning) → EachAt (IsIn N.stands run hub.now) seats.old.items → result.through ≡ true
        → EachAt (IsThrough N.stands run hub.now N.tells) seats.new.items }
    ensures rests { (run : Beginning) → EachAt (IsIn N.stands run hub.now) seats.old.items → result.worked ≡ false
        → result.stopped ≡ false → EachAt (IsAtRest N.stands run hub.now N.tells) seats.new.items }
    ensures gone { PairsAt (HasGone N.stands N.stays N.failed N.broken hub.now) seats.old.items seats.new.items }
{
    if workers <= 1 {
        return turn_list(rt, hub, gate, seats);
    }
    turn_by_workers(rt, hub, gate, hosts, seats, workers);
    turn_list(rt, hub, gate, seats)
}

/// Nodes, of which so many are hosts, the first, take turns until all are done, or nothing more can be done, as where
/// something failed. Answers what came of a turn of each at last. With more than one worker they do so on threads, each
/// kind dealt out in turn.
pub(crate) fn turn_until<N: Node + Send, R: Threads + Wait + Sync, G: Gate + Sync>(
    rt: &R,
    hub: &Hub,
    gate: &G,
    hosts: usize,
    seats: &mut Vec<Seat<N>>,
    workers: u32,
) -> Went
    requires here { EachAt (IsHere N.stands hub.now) seats.old.items }
    ensures through { (run : Beginning) → EachAt (IsIn N.stands run hub.now) seats.old.items → result.through ≡ true
        → EachAt (IsThrough N.stands run hub.now N.tells) seats.new.items }
    ensures rests { (run : Beginning) → EachAt (IsIn N.stands run hub.now) seats.old.items → result.worked ≡ false
        → result.stopped ≡ false → EachAt (IsAtRest N.stands run hub.now N.tells) seats.new.items }
    ensures gone { PairsAt (HasGone N.stands N.stays N.failed N.broken hub.now) seats.old.items seats.new.items }
{
    for _ in rt.forever() {
        let went = turn_once(rt, hub, gate, hosts, seats, workers);
        let rested = !went.worked;
        if went.through || went.stopped || rested {
            return went;
        }
    }
    unreachable!()
}
