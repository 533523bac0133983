//! The third and the fourth stage: the script runs over the stores of its servers, which are on disks or in memory, and
//! what came of it is kept there and written.
ghost use Rattle.std.specs.Prelude.{◌≡◌, ◌≤◌, ◌+◌, ◌^◌, true, false, [], None, length, map, vec_capacity};
ghost use Rattle.disk_image.specs.Aggregate.{header_number};
ghost use Rattle.disk_layout.specs.Places.{page_start};
ghost use Rattle.message_types.specs.Soundness.{Each};
ghost use Rattle.script_lines.specs.Sound.{IsSound};
ghost use Rattle.script_reader.specs.Walk.{stuck_at};
ghost use Rattle.service_disks.specs.Seats.{AreSeated, seat_tells, seat_view, stores_in};
ghost use Rattle.service_disks.specs.Stores.{disks_of};
ghost use Rattle.service_disks.specs.View.{store_view};
ghost use Rattle.service_hosts.specs.Homes.{may_host};
ghost use Rattle.service_moves.specs.Stores.{AreStores, states_of};
ghost use Rattle.service_plain.specs.Played.{IsStart};
ghost use Rattle.service_run.specs.Courses.{IsPrintable, IsTold};
ghost use Rattle.service_run.specs.Disks.{RanOver};
ghost use Rattle.service_run.specs.Outcomes.{IsToldSo, RanSo};
ghost use Rattle.service_run.specs.Steps.{HaveHosted, IsClosedFrom, IsRunFrom, IsRunOn, course_of};
ghost use Rattle.service_run.specs.Steps.{IsOpeningRefused, IsPlaced, IsRunRefused, IsStopRefused};
ghost use Rattle.service_run.specs.World.{shown};
ghost use Rattle.service_stores.specs.Laws.{AreSayable};
ghost use Rattle.service_stores.specs.Starting.{HaveBegun};
ghost use Rattle.service_watch.specs.Gone.{HaveGone as HaveWorked};
ghost use Rattle.store_laws.specs.MoveKeeping.{KeepAll};
ghost use Rattle.store_records.specs.Stored.{IsStorable};

use crate::engine::play_script;
use crate::outcome::{Course, Outcome, Status, without_run};
use crate::output::{output_of, refuse_aggregate, refuse_disk, refuse_stuck};
use base_io::write_all;
use base_types::{Disk, NoMemory, Sink};
use disk_aggregate::MountRefused;
use run_rules::Journal;
use script_commands::Play;
use script_lines::Script;
use service_disks::{
    Count, Seat, ServerStore, StoresRefused, close_seats, close_stores, open_stores, seat_stores,
};
use service_hosts::{Gate, HostsStopped, may_host, run_hosts};
use service_moves::RunStopped;
use service_plain::Played;
use service_stores::{keep, start_on};
use service_watch::{Origin, unwatch, watch};
use std::alloc::Global;
use std::marker::Brand;
use std::sync::Wait;
use std::thread::Threads;
use store_memory::Store;
use tree_answers::Tree;

// Why a run over stores stopped.
#[derive(Clone, Copy)]
enum Stopped {
    // A store failed, or doesn't fit, or memory ran out.
    Run(RunStopped),
    // Hosts and servers came to no end: a node, by its place, and its next line.
    Stuck(usize, Option<u32>),
}

// How many workers run the nodes.
fn workers_of(play: Play) -> u32 {
    match play {
        Play::Run { workers, .. } => workers,
        Play::Gen { workers, .. } => workers,
    }
}

// The place on a disk, in bytes, of the header of a slot.
fn header_place(slot: u32) -> u64
    ensures { result ≡ page_start (header_number slot) }
{
    6_292_992 + 512 * (2 + 66 * u64::from(slot))
}

// Writes why the disks of a script can't be opened, and ends without a run.
fn refuse_opening<K: Sink>(alloc: Global, refused: StoresRefused, sink: &mut K) -> Outcome
    ensures { IsOpeningRefused refused result
        (shown K.tells (K.got sink.old) (K.faults sink.old)) (shown K.tells (K.got sink.new) (K.faults sink.new)) }
{
    match refused {
        StoresRefused::Refused(number, MountRefused::NotAggregate(place)) => {
            refuse_aggregate(alloc, usize::from(number), place, sink)
        }
        StoresRefused::Refused(number, MountRefused::Failed) => {
            refuse_disk(alloc, usize::from(number), sink)
        }
        StoresRefused::Refused(_, MountRefused::Memory) | StoresRefused::Memory => {
            without_run(alloc, Status::NoMemory)
        }
    }
}

// Writes why a run over disks stopped, and ends without one.
fn refuse_run<K: Sink>(alloc: Global, stopped: RunStopped, sink: &mut K) -> Outcome
    ensures { IsRunRefused stopped result
        (shown K.tells (K.got sink.old) (K.faults sink.old)) (shown K.tells (K.got sink.new) (K.faults sink.new)) }
{
    match stopped {
        RunStopped::Failed(server) => refuse_disk(alloc, usize::from(server.0), sink),
        RunStopped::Unfit(disk, slot) => {
            refuse_aggregate(alloc, usize::from(disk), header_place(slot), sink)
        }
        RunStopped::Memory => without_run(alloc, Status::NoMemory),
    }
}

// Writes why a run over stores stopped, or came to no end, and ends without one.
fn refuse_stopped<K: Sink>(
    alloc: Global,
    script: &Script,
    stopped: Stopped,
    sink: &mut K,
) -> Outcome
    requires sound { IsSound script.now }
    requires placed { IsPlaced script.now stopped }
    ensures { IsStopRefused script.now stopped result
        (shown K.tells (K.got sink.old) (K.faults sink.old)) (shown K.tells (K.got sink.new) (K.faults sink.new)) }
{
    match stopped {
        Stopped::Run(stopped) => refuse_run(alloc, stopped, sink),
        Stopped::Stuck(node, next) => refuse_stuck(alloc, script, node, next, sink),
    }
}

// The script runs on the file tree alone, from a tree on, and stores keep what came of it.
fn play_over<S: Store>(
    alloc: Global,
    script: &Script,
    start: Tree,
    stores: &mut [S],
) -> Result<Course, Stopped>
    requires sound { IsSound script.now }
    requires goes { stuck_at script.now.lines ≡ None }
    requires sayable { AreSayable script.now }
    requires start { IsStart script.now.roster start }
    requires moves { may_host script.now start ≡ false }
    requires count { length stores.old ≡ length script.now.roster.capacity }
    requires stores { AreStores S.view script.now.roster (2 ^ 40) 1 stores.old }
    requires kept { S.tells → KeepAll (λ host. 1) start (states_of S.view stores.old) }
    ensures { IsRunFrom S.tells S.view (λ stores. ⊥) script.now start result stores.old stores.new }
{
    let Ok(played) = play_script(alloc, script, start) else {
        return Err(Stopped::Run(RunStopped::Memory));
    };
    match keep(alloc, stores, &played.start, played.history.as_slice()) {
        Ok(()) => Ok(Course::Played(played)),
        Err(stopped) => {
            drop(played);
            Err(Stopped::Run(stopped))
        }
    }
}

// How a script ran that hosts and servers ran, or why it didn't.
fn course_of(hosted: Result<Journal, HostsStopped>) -> Result<Course, Stopped>
    ensures { result ≡ course_of hosted }
{
    match hosted {
        Ok(journal) => Ok(Course::Hosted(journal)),
        Err(HostsStopped::Failed(server)) => Err(Stopped::Run(RunStopped::Failed(server))),
        Err(HostsStopped::Stuck(waiting)) => Err(Stopped::Stuck(waiting.node, waiting.line)),
        Err(HostsStopped::Memory) => Err(Stopped::Run(RunStopped::Memory)),
    }
}

// Hosts and servers run a script from a tree on, over the seats of stores, which are watched meanwhile, and closed
// then.
fn host_over<
    D: Disk + Drop + Send,
    C: Count + Send,
    O: Origin + Send,
    R: Threads + Wait + Sync,
    G: Gate + Sync,
>(
    rt: &R,
    alloc: Global,
    script: &Script,
    start: Tree,
    seats: Vec<Seat<D, C>>,
    disks: &mut Vec<D>,
    workers: u32,
    gate: &G,
) -> Result<Course, Stopped>
    requires sound { IsSound script.now }
    requires sayable { AreSayable script.now }
    requires start { IsStart script.now.roster start }
    requires homes { may_host script.now start ≡ true }
    requires count { length seats.items ≡ length script.now.roster.capacity }
    requires stores { AreStores (seat_view D.tells D.view) script.now.roster (2 ^ 40) 1 seats.items }
    requires kept { seat_tells D.tells C.disks
        → KeepAll (λ host. 1) start (states_of (seat_view D.tells D.view) seats.items) }
    requires begun { seat_tells D.tells C.disks → HaveBegun (states_of (seat_view D.tells D.view) seats.items) }
    requires gone { seat_tells D.tells C.disks → HaveWorked O.from (seat_view D.tells D.view) seats.items }
    requires seats_room { length seats.items ≤ vec_capacity seats }
    requires room { length disks.old.items + length seats.items ≤ vec_capacity disks.old }
    ensures { IsClosedFrom (seat_tells D.tells C.disks) (seat_view D.tells D.view)
        (HaveHosted O.from (seat_view D.tells D.view) script.now start
        (map (λ state. state.epoch) (states_of (seat_view D.tells D.view) seats.items)) result)
        (λ seats. disks_of (stores_in seats))
        script.now start result seats.items disks.old.items disks.new.items }
{
    let mut seats = seats;
    match watch::<Seat<D, C>, O>(alloc, &mut seats) {
        Ok(watched) => {
            let hosted = run_hosts(rt, alloc, script, start, watched, workers, gate);
            unwatch(hosted.stores, &mut seats);
            close_seats(disks, seats);
            course_of(hosted.result)
        }
        Err(NoMemory) => {
            drop(start);
            close_seats(disks, seats);
            Err(Stopped::Run(RunStopped::Memory))
        }
    }
}

// A script runs over the seats of stores, and they are closed then: hosts and servers run it where they can.
fn run_over<
    D: Disk + Drop + Send,
    C: Count + Send,
    O: Origin + Send,
    R: Threads + Wait + Sync,
    G: Gate + Sync,
>(
    rt: &R,
    alloc: Global,
    script: &Script,
    start: Tree,
    mut seats: Vec<Seat<D, C>>,
    disks: &mut Vec<D>,
    workers: u32,
    gate: &G,
) -> Result<Course, Stopped>
    requires sound { IsSound script.now }
    requires goes { stuck_at script.now.lines ≡ None }
    requires sayable { AreSayable script.now }
    requires start { IsStart script.now.roster start }
    requires count { length seats.items ≡ length script.now.roster.capacity }
    requires stores { AreStores (seat_view D.tells D.view) script.now.roster (2 ^ 40) 1 seats.items }
    requires kept { seat_tells D.tells C.disks
        → KeepAll (λ host. 1) start (states_of (seat_view D.tells D.view) seats.items) }
    requires begun { seat_tells D.tells C.disks → HaveBegun (states_of (seat_view D.tells D.view) seats.items) }
    requires gone { seat_tells D.tells C.disks → HaveWorked O.from (seat_view D.tells D.view) seats.items }
    requires seats_room { length seats.items ≤ vec_capacity seats }
    requires room { length disks.old.items + length seats.items ≤ vec_capacity disks.old }
    ensures { IsClosedFrom (seat_tells D.tells C.disks) (seat_view D.tells D.view)
        (HaveHosted O.from (seat_view D.tells D.view) script.now start
        (map (λ state. state.epoch) (states_of (seat_view D.tells D.view) seats.items)) result)
        (λ seats. disks_of (stores_in seats))
        script.now start result seats.items disks.old.items disks.new.items }
{
    if may_host(script, &start) {
        return host_over::<D, C, O, R, G>(rt, alloc, script, start, seats, disks, workers, gate);
    }
    let result = play_over(alloc, script, start, seats.as_mut_slice());
    close_seats(disks, seats);
    result
}

// Runs a script over the stores of its servers, of which so many in front are on disks, and closes them.
fn play_on<D: Disk + Drop + Send, C: Count + Send, R: Threads + Wait + Sync, G: Gate + Sync>(
    rt: &R,
    alloc: Global,
    script: &Script,
    count: usize,
    stores: Vec<ServerStore<D>>,
    disks: &mut Vec<D>,
    workers: u32,
    gate: &G,
) -> Result<Course, Stopped>
    requires sound { IsSound script.now }
    requires goes { stuck_at script.now.lines ≡ None }
    requires sayable { AreSayable script.now }
    requires count { length stores.items ≡ length script.now.roster.capacity }
    requires stores { AreStores (store_view D.tells D.view) script.now.roster 0 1 stores.items }
    requires storable { seat_tells D.tells C.disks
        → Each IsStorable (states_of (store_view D.tells D.view) stores.items) }
    requires seated { AreSeated D.tells D.view C.disks stores.items }
    requires none { disks.old.items ≡ [] }
    requires room { length stores.items ≤ vec_capacity disks.old }
    ensures { IsRunOn (seat_tells D.tells C.disks) D.tells D.view script.now count result stores.items disks.new.items }
{
    let mut seats = match seat_stores::<D, C>(alloc, stores) {
        Ok(seats) => seats,
        Err(stores) => {
            close_stores(disks, stores);
            return Err(Stopped::Run(RunStopped::Memory));
        }
    };
    match start_on(alloc, seats.as_mut_slice(), count, &script.roster) {
        Ok(start) => {
            run_over::<D, C, Brand, R, G>(rt, alloc, script, start, seats, disks, workers, gate)
        }
        Err(stopped) => {
            close_seats(disks, seats);
            Err(Stopped::Run(stopped))
        }
    }
}

// Writes what came of a script that ran.
fn tell_run<K: Sink>(
    alloc: Global,
    play: Play,
    script: Script,
    course: Course,
    sink: &mut K,
) -> Outcome
    requires went { IsPrintable script course }
    ensures told { IsToldSo play script course result
        (shown K.tells (K.got sink.old) (K.faults sink.old)) (shown K.tells (K.got sink.new) (K.faults sink.new)) }
{
    let Ok(output) = output_of(alloc, play, &script, &course) else {
        return without_run(alloc, Status::NoMemory);
    };
    let status = match write_all(sink, output.as_slice()) {
        Ok(()) => Status::Done,
        Err(_) => Status::NoOutput,
    };
    Outcome {
        status,
        course,
        lines: script,
    }
}

/// Runs a script over disks, the first as that of server 1, and writes what came of it. A server without a disk keeps
/// its filesets in memory. All disks are in the list again then, in their order.
pub(crate) fn run_script<K: Sink, D: Disk + Drop + Send, R: Threads + Wait + Sync, G: Gate + Sync>(
    rt: &R,
    alloc: Global,
    play: Play,
    script: Script,
    disks: &mut Vec<D>,
    sink: &mut K,
    gate: &G,
) -> Outcome
    requires sound { IsSound script }
    requires goes { stuck_at script.lines ≡ None }
    requires sayable { AreSayable script }
    requires few { length disks.old.items ≤ length script.roster.capacity }
    ensures ran { RanSo (IsTold D.tells disks.old.items) play script result
        (shown K.tells (K.got sink.old) (K.faults sink.old)) (shown K.tells (K.got sink.new) (K.faults sink.new)) }
    ensures over { RanOver D.tells D.view script result disks.old.items disks.new.items
        (shown K.tells (K.got sink.old) (K.faults sink.old)) (shown K.tells (K.got sink.new) (K.faults sink.new)) }
{
    let count = disks.len();
    let stores = match open_stores(alloc, disks, &script.roster) {
        Ok(stores) => stores,
        Err(refused) => return refuse_opening(alloc, refused, sink),
    };
    let workers = workers_of(play);
    match play_on::<D, Brand, R, G>(rt, alloc, &script, count, stores, disks, workers, gate) {
        Ok(course) => tell_run(alloc, play, script, course, sink),
        Err(stopped) => refuse_stopped(alloc, &script, stopped, sink),
    }
}
