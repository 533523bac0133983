// What a check finds on one disk.
ghost use Rattle.std.specs.Prelude.{◌≡◌, ◌≤◌, IfOk, IfErr};
ghost use Rattle.base_types.specs.Crash.{IsQuiet};
ghost use Rattle.disk_check.specs.Refused.{IsRefused};
ghost use Rattle.disk_report.specs.Report.{report_of, has_faults, have_faults, FailsTwice};

use base_types::{Disk, Items};
use disk_check::{CheckRefused, check_shared};
use disk_image::Fault;
use disk_log::is_blank;
use std::alloc::Global;
use std::thread::Threads;

/// What a check finds on a disk.
#[derive(Drop)]
pub enum Report {
    /// Nobody formatted the disk, or its format was stopped.
    Blank,
    /// The disk isn't blank, and these are its faults, in the order of the disk. A sound disk has none.
    Faults(Items<Fault>),
}

// One look at a disk.
#[tactic(auto, unfolding(crate::specs::Report::report_of), using(crate::proofs::Blank::blank_report, crate::proofs::Blank::faults_report))]
fn look<D: Disk>(
    rt: &(impl Threads + Sync),
    alloc: Global,
    disk: &mut D,
) -> Result<Report, CheckRefused>
    ensures report { D.tells → IfOk result (λ report. report ≡ report_of (D.view disk.old).image) }
    ensures quiet { IsQuiet (D.view disk.old) (D.view disk.new) }
    ensures counted { (D.view disk.old).faults ≤ (D.view disk.new).faults }
    ensures only { IfErr result (λ e. IsRefused e (D.view disk.old) (D.view disk.new)) }
{
    let blank = is_blank(disk)?;
    if blank {
        return Ok(Report::Blank);
    }
    let faults = check_shared(rt, alloc, disk)?;
    Ok(Report::Faults(Items::from_vec(faults)))
}

/// What is found on a disk. Nothing is written to it. A disk that fails is looked at once more; `Failed` is its second
/// failure. `Memory` is want of memory.
pub fn report_of<D: Disk>(
    rt: &(impl Threads + Sync),
    alloc: Global,
    disk: &mut D,
) -> Result<Report, CheckRefused>
    ensures report { D.tells → IfOk result (λ report. report ≡ report_of (D.view disk.old).image) }
    ensures quiet { IsQuiet (D.view disk.old) (D.view disk.new) }
    ensures counted { (D.view disk.old).faults ≤ (D.view disk.new).faults }
    ensures only { IfErr result (λ e. FailsTwice e (D.view disk.old) (D.view disk.new)) }
{
    match look(rt, alloc, disk) {
        Err(CheckRefused::Failed) => look(rt, alloc, disk),
        answer => answer,
    }
}

fn has_faults(report: &Report) -> bool
    ensures { result ≡ has_faults report.now }
{
    match report {
        Report::Blank => false,
        Report::Faults(faults) => !faults.is_empty(),
    }
}

/// Whether one of the disks has a fault.
pub fn have_faults(reports: &[Report]) -> bool
    ensures { result ≡ have_faults reports.now }
{
    reports.iter().any(has_faults)
}
