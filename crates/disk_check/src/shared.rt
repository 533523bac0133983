// The check with the pages and the counts judged by several threads.
ghost use Rattle.std.specs.Prelude.{◌≡◌, ◌≤◌, ◌<◌, ◌+◌, ◌/◌, ◌%◌, ℕ, List, false, IfOk, IfErr, length};
ghost use Rattle.base_types.specs.Crash.{IsQuiet};
ghost use Rattle.disk_image.specs.Anodes.{is_slot_anode as is_slot_anode_there};
ghost use Rattle.disk_image.specs.Counts.{uses_of, is_count_page as is_count_page_there};
ghost use Rattle.disk_image.specs.Faults.{faults_of, faults_in};
ghost use Rattle.disk_judge.specs.Judged.{AreAnodesJudged, AreCountsJudged};
ghost use Rattle.disk_judge.specs.Marks.{AreMarks};
ghost use Rattle.disk_judge.specs.Metadata.{IsSized, over, plain};
ghost use Rattle.disk_check.specs.Refused.{IsRefused};

use crate::checking::{faults_behind, finish, look};
use crate::fault::CheckRefused;
use crate::front::{Front, front_of};
use base_types::Disk;
use disk_image::Fault;
use disk_judge::{Mark, Metadata, is_count_page, is_slot_anode, marks_of};
use rayon::prelude::*;
use std::alloc::{AllocError, Global};
use std::thread::Threads;

const ANODES: usize = 64;

const SLOTS: usize = 16;

const COUNTS: usize = 256;

// For each anode of all slots whether all is well with its page.
fn anodes_shared(
    rt: &(impl Threads + Sync),
    alloc: Global,
    metadata: &Metadata,
) -> Result<Vec<bool>, AllocError>
    requires { IsSized metadata.now }
    ensures size { IfOk result (λ rights. length rights.items ≡ 1024) }
    ensures each { IfOk result (λ rights. AreAnodesJudged (plain metadata.now) rights.items) }
{
    (0..ANODES * SLOTS)
        .into_par_iter()
        .map(
            |k: usize| -> bool
                requires { IsSized metadata.now × (k < 1024) }
                ensures { result ≡ is_slot_anode_there (plain metadata.entry.now) (k / 64) (k % 64) }
            { is_slot_anode(metadata, k / ANODES, k % ANODES) },
        )
        .collect(rt, alloc)
}

// For each page of counts whether all is well with it.
fn counts_shared(
    rt: &(impl Threads + Sync),
    alloc: Global,
    metadata: &Metadata,
    marks: &[Mark],
) -> Result<Vec<bool>, AllocError>
    requires sized { IsSized metadata.now }
    requires size { length marks.now ≡ metadata.now.blocks }
    ensures size { IfOk result (λ rights. length rights.items ≡ (metadata.now.blocks + 255) / 256) }
    ensures each { IfOk result (λ rights. (image : List ℕ)
        → AreMarks (uses_of (over metadata.now image)) metadata.now.blocks marks.now
        → AreCountsJudged (over metadata.now image) rights.items) }
{
    (0..marks.len().div_ceil(COUNTS))
        .into_par_iter()
        .map(
            |p: usize| -> bool
                requires { IsSized metadata.now × (length marks.now ≡ metadata.now.blocks)
                    × (p < (metadata.now.blocks + 255) / 256) }
                ensures { (image : List ℕ)
                    → AreMarks (uses_of (over metadata.entry.now image)) metadata.entry.now.blocks marks.entry.now
                    → result ≡ is_count_page_there (over metadata.entry.now image) p }
            { is_count_page(metadata, marks, p) },
        )
        .collect(rt, alloc)
}

// The faults of metadata.
fn faults_shared<D: Disk>(
    rt: &(impl Threads + Sync),
    alloc: Global,
    disk: &mut D,
    metadata: &Metadata,
) -> Result<Vec<Fault>, CheckRefused>
    requires { IsSized metadata.now }
    ensures faults { D.tells
        → IfOk result (λ faults. faults.items ≡ faults_in (over metadata.now (D.view disk.old).image)) }
    ensures quiet { IsQuiet (D.view disk.old) (D.view disk.new) }
    ensures counted { (D.view disk.old).faults ≤ (D.view disk.new).faults }
    ensures only { IfErr result (λ e. IsRefused e (D.view disk.old) (D.view disk.new)) }
{
    let rights = anodes_shared(rt, alloc, metadata)?;
    let found = look(alloc, disk, metadata, rights.as_slice(), false)?;
    let marks = marks_of(alloc, metadata.blocks, found.uses.as_slice())?;
    let counts = counts_shared(rt, alloc, metadata, marks.as_slice())?;
    let faults = finish(metadata, counts.as_slice(), found)?;
    Ok(faults)
}

/// What `check` answers, with the pages of anodes and those of counts judged by several threads. The disk is read by
/// this thread alone. The errors are those of `check`.
pub fn check_shared<D: Disk>(
    rt: &(impl Threads + Sync),
    alloc: Global,
    disk: &mut D,
) -> Result<Vec<Fault>, CheckRefused>
    ensures faults { D.tells → IfOk result (λ faults. faults.items ≡ faults_of (D.view disk.old).image) }
    ensures quiet { IsQuiet (D.view disk.old) (D.view disk.new) }
    ensures counted { (D.view disk.old).faults ≤ (D.view disk.new).faults }
    ensures only { IfErr result (λ e. IsRefused e (D.view disk.old) (D.view disk.new)) }
{
    let front = front_of(alloc, disk)?;
    match &front {
        Front::Settled(metadata) => faults_shared(rt, alloc, disk, metadata),
        other => faults_behind(alloc, disk, other, false),
    }
}
