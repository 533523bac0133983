// The disks of a check, one after the other.
ghost use Rattle.std.specs.Prelude.{◌≡◌, map, IfOk, IfErr};
ghost use Rattle.disk_report.specs.Disks.{AreQuiet, IsStopped};
ghost use Rattle.disk_report.specs.Report.{report_of};

use crate::report::{Report, report_of};
use base_types::{Disk, Items, NoMemory};
use disk_check::CheckRefused;
use std::alloc::Global;
use std::thread::Threads;

/// Why there are no reports.
#[derive(Clone, Copy)]
pub enum Stopped {
    /// The disk of this number, from 1, failed, and failed again when it was looked at once more.
    Failed(usize),
    /// Memory ran out.
    Memory,
}

impl From<NoMemory> for Stopped {
    ghost from_gives = { λ _ e. e ≡ Memory };

    ghost use Rattle.disk_report.specs.declared.disks.Stopped.TheVariants.{Memory};

    fn from(_: NoMemory) -> Self {
        Stopped::Memory
    }
}

/// What is found on each of these disks, in their order. Nothing is written to them. At the first that fails twice no
/// further one is looked at.
pub fn reports_of<D: Disk>(
    rt: &(impl Threads + Sync),
    alloc: Global,
    disks: &mut [D],
) -> Result<Items<Report>, Stopped>
    ensures reports { D.tells → IfOk result (λ reports. reports
        ≡ map (λ disk. report_of (D.view disk).image) disks.old) }
    ensures quiet { AreQuiet D.view disks.old disks.new }
    ensures stopped { IfErr result (λ e. IsStopped D.view disks.old disks.new e) }
{
    let mut reports = Items::new(alloc);
    for (k, disk) in disks.iter_mut().enumerate() {
        match report_of(rt, alloc, disk) {
            Ok(report) => reports.push(report)?,
            Err(CheckRefused::Failed) => return Err(Stopped::Failed(k + 1)),
            Err(CheckRefused::Memory) => return Err(Stopped::Memory),
        }
    }
    Ok(reports)
}
