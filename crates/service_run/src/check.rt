//! The check of disks, beside the stages of a run.
ghost use Rattle.std.specs.Prelude.{◌≡◌, true};
ghost use Rattle.service_run.specs.Checks.{ChecksSo, TellsSo};
ghost use Rattle.service_run.specs.Outcomes.{is_end_of_report};
ghost use Rattle.service_run.specs.World.{shown};

use crate::outcome::{Outcome, Status, without_run};
use crate::output::refuse_disk;
use base_io::write_all;
use base_types::{Disk, Sink};
use disk_report::{Report, Stopped, have_faults, report_text, reports_of};
use std::alloc::Global;
use std::thread::Threads;

// Writes what was found on disks, and tells how the check ends.
fn tell<K: Sink>(alloc: Global, reports: &[Report], sink: &mut K) -> Status
    ensures ends { is_end_of_report result ≡ true }
    ensures told { TellsSo reports.now result
        (shown K.tells (K.got sink.old) (K.faults sink.old)) (shown K.tells (K.got sink.new) (K.faults sink.new)) }
{
    let Ok(text) = report_text(alloc, reports) else {
        return Status::NoMemory;
    };
    match write_all(sink, text.as_slice()) {
        Ok(()) if have_faults(reports) => Status::HasFaults,
        Ok(()) => Status::Done,
        Err(_) => Status::NoOutput,
    }
}

/// Checks disks, and writes what is found on them, or which one fails.
#[tactic(auto, using(crate::proofs::Checked::checks_told, crate::proofs::Checked::checks_refused, crate::proofs::Checked::checks_stopped))]
pub(crate) fn check_disks<K: Sink, D: Disk>(
    rt: &(impl Threads + Sync),
    alloc: Global,
    disks: &mut [D],
    sink: &mut K,
) -> Outcome
    ensures { ChecksSo D.tells D.view result disks.old disks.new
        (shown K.tells (K.got sink.old) (K.faults sink.old)) (shown K.tells (K.got sink.new) (K.faults sink.new)) }
{
    match reports_of(rt, alloc, disks) {
        Ok(reports) => without_run(alloc, tell(alloc, reports.as_slice(), sink)),
        Err(Stopped::Failed(number)) => refuse_disk(alloc, number, sink),
        Err(Stopped::Memory) => without_run(alloc, Status::NoMemory),
    }
}
