//! The last stage: what came of a run is written, or why there was none.
ghost use Rattle.std.specs.Prelude.{◌≡◌, ◌<◌, ◌∷◌, [], length, IfOk};
ghost use Rattle.tree_answers.specs.Histories.{after_history};
ghost use Rattle.service_run.specs.declared.outcome.Status.TheVariants.{NoScript, NoDisk, NoAggregate, Stuck};
ghost use Rattle.service_hosts.specs.Runs.{nodes_of};
ghost use Rattle.script_lines.specs.Sound.{IsSound};
ghost use Rattle.disk_report.specs.Text.{failed_line};
ghost use Rattle.service_run.specs.Courses.{IsPrintable};
ghost use Rattle.service_run.specs.declared.outcome.Course.TheVariants.{Hosted, Played as WasPlayed};
ghost use Rattle.tree_answers.specs.declared.tree.Tree.{Tree as TreeOf};
ghost use Rattle.service_run.specs.Lines.{no_aggregate_line, refusal_line, stuck_line};
ghost use Rattle.service_run.specs.Outcomes.{IsEmpty, RefusedSo};
ghost use Rattle.service_run.specs.Output.{is_json, output_of, Wrote};
ghost use Rattle.service_run.specs.World.{shown};

use crate::lines::{no_aggregate_line, refusal_line, stuck_line};
use crate::outcome::{Course, Outcome, Status, without_run};
use base_io::write_all;
use base_types::{Items, NoMemory, Sink};
use disk_report::failed_line;
use run_output::{print_json, print_text};
use run_rules::Journal;
use script_commands::Play;
use script_lines::Script;
use script_output::{json_of, text_of};
use script_reader::ScriptRefused;
use service_plain::Played;
use std::alloc::Global;

/// The output of a script that went so.
pub(crate) fn output_of(
    alloc: Global,
    play: Play,
    script: &Script,
    course: &Course,
) -> Result<Items<u8>, NoMemory>
    requires { IsPrintable script.now course.now }
    ensures { IfOk result (λ output. output ≡ output_of play script.now course.now) }
{
    match course {
        Course::Empty => Ok(Items::new(alloc)),
        Course::Hosted(journal) => hosted_output(alloc, play, script, journal),
        Course::Played(played) => played_output(alloc, play, script, played),
    }
}

// The output of a script that hosts and servers ran.
fn hosted_output(
    alloc: Global,
    play: Play,
    script: &Script,
    journal: &Journal,
) -> Result<Items<u8>, NoMemory>
    requires { (start : TreeOf) × (journal.now.start ≡ start ∷ []) }
    ensures { IfOk result (λ output. output ≡ output_of play script.now (Hosted journal.now)) }
{
    if is_json(play) {
        print_json(alloc, script, journal)
    } else {
        print_text(alloc, script, journal)
    }
}

// The output of a script that ran on the file tree alone.
fn played_output(
    alloc: Global,
    play: Play,
    script: &Script,
    played: &Played,
) -> Result<Items<u8>, NoMemory>
    requires { played.now.last ≡ after_history played.now.start played.now.history }
    ensures { IfOk result (λ output. output ≡ output_of play script.now (WasPlayed played.now)) }
{
    let history = played.history.as_slice();
    if is_json(play) {
        json_of(alloc, script, &played.start, history, &played.last)
    } else {
        text_of(alloc, script, &played.start, history, &played.last)
    }
}

fn is_json(play: Play) -> bool
    ensures { result ≡ is_json play }
{
    match play {
        Play::Run { json, .. } => json,
        Play::Gen { .. } => true,
    }
}

/// Writes why a script is refused.
pub(crate) fn refuse_script<K: Sink>(alloc: Global, why: ScriptRefused, sink: &mut K) -> Outcome
    ensures refused { RefusedSo NoScript (refusal_line why) result
        (shown K.tells (K.got sink.old) (K.faults sink.old)) (shown K.tells (K.got sink.new) (K.faults sink.new)) }
{
    match refusal_line(alloc, why) {
        Ok(line) => refuse(alloc, Status::NoScript, line.as_slice(), sink),
        Err(NoMemory) => without_run(alloc, Status::NoMemory),
    }
}

/// Writes `refused: disk K failed`, where disks are numbered from 1, and ends without a run. The status is `NoDisk`,
/// also where the sink fails, which then got a part of the line; or `NoMemory`, and then nothing is written.
pub fn refuse_disk<K: Sink>(alloc: Global, number: usize, sink: &mut K) -> Outcome
    ensures refused { RefusedSo NoDisk (failed_line number) result
        (shown K.tells (K.got sink.old) (K.faults sink.old)) (shown K.tells (K.got sink.new) (K.faults sink.new)) }
{
    match failed_line(alloc, number) {
        Ok(line) => refuse(alloc, Status::NoDisk, line.as_slice(), sink),
        Err(NoMemory) => without_run(alloc, Status::NoMemory),
    }
}

/// Writes that disk K, from 1, is no aggregate at a place, in bytes, and ends without a run.
pub(crate) fn refuse_aggregate<K: Sink>(
    alloc: Global,
    number: usize,
    place: u64,
    sink: &mut K,
) -> Outcome
    ensures refused { RefusedSo NoAggregate (no_aggregate_line number place) result
        (shown K.tells (K.got sink.old) (K.faults sink.old)) (shown K.tells (K.got sink.new) (K.faults sink.new)) }
{
    match no_aggregate_line(alloc, number, place) {
        Ok(line) => refuse(alloc, Status::NoAggregate, line.as_slice(), sink),
        Err(NoMemory) => without_run(alloc, Status::NoMemory),
    }
}

/// Writes which node of a script, by its place, isn't done where hosts and servers came to no end, and which of its
/// lines went last, where this is the number of its next; and ends without a run.
pub(crate) fn refuse_stuck<K: Sink>(
    alloc: Global,
    script: &Script,
    node: usize,
    next: Option<u32>,
    sink: &mut K,
) -> Outcome
    requires sound { IsSound script.now }
    requires within { node < length (nodes_of script.now) }
    ensures refused { RefusedSo Stuck (stuck_line script.now node next) result
        (shown K.tells (K.got sink.old) (K.faults sink.old)) (shown K.tells (K.got sink.new) (K.faults sink.new)) }
{
    match stuck_line(alloc, script, node, next) {
        Ok(line) => refuse(alloc, Status::Stuck, line.as_slice(), sink),
        Err(NoMemory) => without_run(alloc, Status::NoMemory),
    }
}

/// Writes a line, and ends without a run.
pub(crate) fn refuse<K: Sink>(alloc: Global, status: Status, line: &[u8], sink: &mut K) -> Outcome
    ensures status { result.status ≡ status }
    ensures empty { IsEmpty result }
    ensures wrote { K.tells → Wrote line.now
        (shown K.tells (K.got sink.old) (K.faults sink.old)) (shown K.tells (K.got sink.new) (K.faults sink.new)) }
{
    match write_all(sink, line) {
        Ok(()) | Err(_) => without_run(alloc, status),
    }
}
