//! The stages of a run, one after the other: the words, the script, the disks, the engine, the disks again, the output.
//! A check of disks has the words and the disks.
ghost use Rattle.std.specs.Prelude.{◌≡◌, ℕ, true, false, Some, None, length, map};
ghost use Rattle.std.specs.String.{string_bytes};
ghost use Rattle.script_commands.specs.Command.{command_of, disk_names, IsPlayWithin};
ghost use Rattle.script_commands.specs.declared.command.Command.TheVariants.{Play as Plays, Check};
ghost use Rattle.script_commands.specs.declared.command.Play.{Play as PlayOf};
ghost use Rattle.service_run.specs.declared.outcome.Status.TheVariants.{NoCommand, NoMemory as OutOfMemory};
ghost use Rattle.service_run.specs.Checks.{ChecksSo, is_check, AreNamed};
ghost use Rattle.service_run.specs.Courses.{IsTold};
ghost use Rattle.service_run.specs.Lines.{usage_line};
ghost use Rattle.service_run.specs.Outcomes.{has_run, may_end, IsEmpty, EndsSo};
ghost use Rattle.service_run.specs.Disks.{RunsOver};
ghost use Rattle.service_run.specs.Output.{Wrote};
ghost use Rattle.service_run.specs.Scripts.{is_reading, reads, disks_of};
ghost use Rattle.service_run.specs.World.{shown, world};

use crate::check::check_disks;
use crate::disks::run_script;
use crate::lines::{input_line, usage_line};
use crate::outcome::{Outcome, Status, without_run};
use crate::output::{refuse, refuse_script};
use crate::script::{NotRead, script_for};
use base_types::{Disk, NoMemory, Sink, Source};
use script_commands::{Command, Play, command_of};
use service_hosts::Gate;
use std::alloc::Global;
use std::sync::Wait;
use std::thread::Threads;

/// Does what the words after the program's name ask for: reads a script from the source, or generates one, has hosts
/// and servers run it from the file tree that the disks hold, and writes to the sink each reply, each loss and each
/// fileset, or a summary of them as JSON; or checks disks, and writes what is found on them. The disks are those that
/// the words name, in their order, and are handed back so.
///
/// The first disk is that of server 1. A blank one is formatted; a server without a disk has its filesets in memory,
/// and at first none. Moves that an earlier run left unfinished are settled first, and those that go on are ended.
/// Then hosts that cache under tokens, and servers over these stores, run the script from the tree of what the servers
/// keep, on as many workers as the words say, with a network that the script plans; where a line of it moves a fileset,
/// or one of the tree has moved, it runs on the tree alone. The gate is told before a host or server goes on at a line;
/// nothing rests on what it does.
///
/// Where the status is `Done` or `NoOutput`, the script ran to its end from the tree that the disks held, and what is
/// written is what that run gave; of hosts and servers it keeps what `run_promises` says of each run. Each disk holds
/// its server's part of the last tree then, also where a crash comes right after. At any other status, of a script
/// that ran on the tree alone, the disks have what the first steps of the run made of what they had, up to one and the
/// same step for all: what was left of moves is settled and finished, each server begins the run, and then come the
/// acts of its history; a crash at any moment leaves of each disk what the first of its acts made, none more than a
/// batch behind that step, or a blank disk without a log, refused at place 0. Where hosts and servers had begun to run
/// it, each disk has the record that the acts with which its server began the run, and then some of its own, made of
/// what it had, and a crash leaves the same as above, or what the first of these made and perhaps some of one batch
/// more. However that ended, also where memory ran out, there is a run so far, by the rules, and all that a server
/// acknowledged in it is on its disk. Beside it there is nothing or what further steps by the server's rules did, and
/// all that durably; or, as where that server failed, acts for requests that it hasn't answered, or by which it begins a
/// newer epoch, as the disk stands: in what order, how often each, and why a call was refused, isn't said of these. At
/// `Stuck` there is no more. Where the disks weren't all opened, each that isn't blank has the record that it had.
///
/// The status is `NoCommand` exactly where the words aren't in the grammar, and then the usage line is written, and
/// nothing is called; `NoInput` only where the source's count of faults rose, and then `refused: read fault` is
/// written; `NoScript` only where the bytes that were read (at most `SCRIPT_BYTES`) are no script for so many disks,
/// and then the line and the cause are written; `NoAggregate` exactly where a disk isn't blank and its bytes can't be
/// mounted as its server's, or the disks don't fit one another, and then `refused: disk K is no aggregate at PLACE` is
/// written, of the first such disk; `NoDisk` only where the count of a disk rose by two or more and its last call
/// failed, and then `refused: disk K failed` is written; `Stuck` where hosts and servers come to no end, as where a
/// copy of a message waits for a flag that nobody raises, and then `stuck: cH behind line N` is written, of a node
/// (that it isn't done, and all have come to rest, `run_hosts` says) and the last of its lines that went; `NoOutput`
/// only where the sink's count rose, and then it got a part of the output, from its front; `HasFaults` where a disk
/// that was checked has a fault, with the output whole; `NoMemory` where memory ran out, which may come anywhere and
/// writes nothing; and else `Done`, with the output whole. Of two the first in this order comes, but that at the
/// opening of the disks the first disk that is refused decides. But for `Done` and `NoOutput` of a script nothing was
/// told of a run, and the outcome is empty. Where the sink fails while the line of a refusal is written, it got a part
/// of it, and the status stays. Where a disk fails, a look at it, a mount, a format and a batch are tried once more.
///
/// A check writes for each disk K, from 1, `disk K blank` where nobody formatted it or its format was stopped,
/// `disk K ok` where it has no faults, and else `disk K PLACE rule N` for each of its faults; then `end`. It writes
/// nothing to a disk.
#[tactic(auto, using(crate::proofs::Checked::check_may_end, crate::proofs::Checked::check_has_words))]
pub fn run<R: Source, K: Sink, D: Disk + Drop + Send, T: Threads + Wait + Sync, G: Gate + Sync>(
    rt: &T,
    alloc: Global,
    words: &[String],
    source: &mut R,
    sink: &mut K,
    disks: &mut Vec<D>,
    gate: &G,
) -> Outcome
    requires disks { AreNamed (disk_names (map string_bytes words.now)) (length disks.old.items) }
    ensures words { may_end (command_of (map string_bytes words.now)) result.status ≡ true }
    ensures untouched { is_reading (command_of (map string_bytes words.now)) ≡ false → source.new ≡ source.old }
    ensures unnamed { command_of (map string_bytes words.now) ≡ None → disks.new ≡ disks.old }
    ensures usage { K.tells → result.status ≡ NoCommand
        → Wrote usage_line (shown K.tells (K.got sink.old) (K.faults sink.old))
        (shown K.tells (K.got sink.new) (K.faults sink.new)) }
    ensures empty { has_run result.status ≡ false → IsEmpty result }
    ensures silent { K.tells → result.status ≡ OutOfMemory → K.got sink.new ≡ K.got sink.old }
    ensures ends { (play : PlayOf) → command_of (map string_bytes words.now) ≡ Some (Plays play) →
        EndsSo (IsTold D.tells disks.old.items) play result
        (world (shown R.tells (R.left source.old) (R.faults source.old))
        (shown K.tells (K.got sink.old) (K.faults sink.old)))
        (world (shown R.tells (R.left source.new) (R.faults source.new))
        (shown K.tells (K.got sink.new) (K.faults sink.new))) }
    ensures over { (play : PlayOf) → command_of (map string_bytes words.now) ≡ Some (Plays play) →
        RunsOver D.tells D.view play result disks.old.items disks.new.items
        (world (shown R.tells (R.left source.old) (R.faults source.old))
        (shown K.tells (K.got sink.old) (K.faults sink.old)))
        (world (shown R.tells (R.left source.new) (R.faults source.new))
        (shown K.tells (K.got sink.new) (K.faults sink.new))) }
    ensures checks { (workers : ℕ) → command_of (map string_bytes words.now) ≡ Some (Check workers) →
        ChecksSo D.tells D.view result disks.old.items disks.new.items
        (shown K.tells (K.got sink.old) (K.faults sink.old)) (shown K.tells (K.got sink.new) (K.faults sink.new)) }
{
    match command_of(alloc, words) {
        Ok(Some(Command::Play(play))) => run_play(rt, alloc, play, source, sink, disks, gate),
        Ok(Some(Command::Check { .. })) => check_disks(rt, alloc, disks.as_mut_slice(), sink),
        Ok(None) => refuse(alloc, Status::NoCommand, usage_line(), sink),
        Err(NoMemory) => without_run(alloc, Status::NoMemory),
    }
}

// Reads the script of a command, or generates it, and runs it over disks.
fn run_play<R: Source, K: Sink, D: Disk + Drop + Send, T: Threads + Wait + Sync, G: Gate + Sync>(
    rt: &T,
    alloc: Global,
    play: Play,
    source: &mut R,
    sink: &mut K,
    disks: &mut Vec<D>,
    gate: &G,
) -> Outcome
    requires within { IsPlayWithin play }
    requires disks { length disks.old.items ≡ disks_of play }
    ensures ends { EndsSo (IsTold D.tells disks.old.items) play result
        (world (shown R.tells (R.left source.old) (R.faults source.old))
        (shown K.tells (K.got sink.old) (K.faults sink.old)))
        (world (shown R.tells (R.left source.new) (R.faults source.new))
        (shown K.tells (K.got sink.new) (K.faults sink.new))) }
    ensures over { RunsOver D.tells D.view play result disks.old.items disks.new.items
        (world (shown R.tells (R.left source.old) (R.faults source.old))
        (shown K.tells (K.got sink.old) (K.faults sink.old)))
        (world (shown R.tells (R.left source.new) (R.faults source.new))
        (shown K.tells (K.got sink.new) (K.faults sink.new))) }
    ensures untouched { reads play ≡ false → source.new ≡ source.old }
    ensures empty { has_run result.status ≡ false → IsEmpty result }
{
    match script_for(alloc, play, source) {
        Ok(script) => run_script(rt, alloc, play, script, disks, sink, gate),
        Err(NotRead::Input) => refuse(alloc, Status::NoInput, input_line(), sink),
        Err(NotRead::Script(why)) => refuse_script(alloc, why, sink),
        Err(NotRead::Memory) => without_run(alloc, Status::NoMemory),
    }
}
