// The check of a disk.
ghost use Rattle.std.specs.Prelude.{◌≡◌, ◌≤◌, ◌+◌, ◌/◌, ◌++◌, ◌∷◌, [], ℕ, List, false, replicate, IfOk};
ghost use Rattle.std.specs.Prelude.{IfErr, OnOk, length, slice_get};
ghost use Rattle.base_types.specs.Crash.{IsQuiet};
ghost use Rattle.disk_image.specs.Joined.{joined};
ghost use Rattle.disk_image.specs.Aggregate.{Aggregate};
ghost use Rattle.disk_image.specs.Counts.{count_fault, promise_fault};
ghost use Rattle.disk_image.specs.Faults.{faults_of, faults_in};
ghost use Rattle.disk_judge.specs.Judged.{AreCountsJudged, IsJudged};
ghost use Rattle.disk_judge.specs.Metadata.{IsSized, over};
ghost use Rattle.disk_check.specs.Found.{server_faults, HasFound, AreFaults};
ghost use Rattle.disk_check.specs.Front.{IsWhole, faults_after};
ghost use Rattle.disk_check.specs.Refused.{IsRefused};

use crate::fault::CheckRefused;
use crate::found::Found;
use crate::front::{Front, front_of};
use crate::look::{is_done, look_at_slots};
use base_types::Disk;
use disk_image::{Fault, Rule};
use disk_judge::{
    Metadata, anodes_judged, are_kept, counts_judged, marks_of, page_place, push_unless,
};
use disk_pages::{is_numbers_page, is_server_page};
use std::alloc::{AllocError, Global};

// The first page of counts.
const COUNTS_PAGE: usize = 1_058;

// Nothing found yet.
fn nothing(alloc: Global, blocks: u32) -> Result<Found, AllocError>
    ensures faults { IfOk result (λ found. found.faults.items ≡ []) }
    ensures reach { IfOk result (λ found. found.reach.items ≡ []) }
    ensures uses { IfOk result (λ found. found.uses.items ≡ []) }
    ensures mapped { IfOk result (λ found. found.mapped.items ≡ replicate blocks false) }
{
    let mapped = vec![in alloc; false; blocks as usize]?;
    Ok(Found {
        faults: Vec::new(alloc),
        reach: Vec::new(alloc),
        links: Vec::new(alloc),
        uses: Vec::new(alloc),
        mapped,
    })
}

// Adds the faults of the server's pages.
fn push_server_faults(metadata: &Metadata, faults: &mut Vec<Fault>) -> Result<(), AllocError>
    requires { IsSized metadata.now }
    ensures { OnOk result ((image : List ℕ)
        → faults.new.items ≡ faults.old.items ++ server_faults (over metadata.now image)) }
{
    let is_server = is_server_page(metadata.page(0));
    push_unless(faults, is_server, page_place(0), Rule::ServerPage)?;
    let are_numbers = is_numbers_page(metadata.page(1));
    push_unless(faults, are_numbers, page_place(1), Rule::CallNumbers)?;
    Ok(())
}

// What is found in the pages of the server, in slots and in blocks: all, or else enough for the first fault of these.
pub(crate) fn look<D: Disk>(
    alloc: Global,
    disk: &mut D,
    metadata: &Metadata,
    rights: &[bool],
    stops: bool,
) -> Result<Found, CheckRefused>
    requires { IsJudged metadata.now rights.now }
    ensures found { D.tells
        → IfOk result (λ found. HasFound (over metadata.now (D.view disk.old).image) stops found) }
    ensures quiet { IsQuiet (D.view disk.old) (D.view disk.new) }
    ensures counted { (D.view disk.old).faults ≤ (D.view disk.new).faults }
    ensures only { IfErr result (λ e. IsRefused e (D.view disk.old) (D.view disk.new)) }
{
    let mut found = nothing(alloc, metadata.blocks)?;
    push_server_faults(metadata, &mut found.faults)?;
    look_at_slots(alloc, disk, metadata, rights, stops, &mut found)?;
    Ok(found)
}

// Adds the faults of the pages of counts.
fn push_count_faults(rights: &[bool], faults: &mut Vec<Fault>) -> Result<(), AllocError>
    requires { length rights.now ≤ 260 }
    ensures { OnOk result ((disk : Aggregate) → length rights.now ≡ (disk.blocks + 255) / 256
        → AreCountsJudged disk rights.now
        → faults.new.items ≡ faults.old.items ++ joined (count_fault disk) (length rights.now)) }
{
    for (p, is_right) in rights.iter().enumerate() {
        push_unless(faults, *is_right, page_place(COUNTS_PAGE + p), Rule::Count)?;
    }
    Ok(())
}

// Adds the faults of reach, of counts and of promises to those that were found.
pub(crate) fn finish(
    metadata: &Metadata,
    counts: &[bool],
    found: Found,
) -> Result<Vec<Fault>, AllocError>
    requires sized { IsSized metadata.now }
    requires size { length counts.now ≡ (metadata.now.blocks + 255) / 256 }
    ensures { IfOk result (λ faults. (image : List ℕ) → AreCountsJudged (over metadata.now image) counts.now
        → faults.items ≡ ((found.faults.items ++ found.reach.items)
        ++ joined (count_fault (over metadata.now image)) ((metadata.now.blocks + 255) / 256))
        ++ promise_fault (over metadata.now image)) }
{
    let mut faults = found.faults;
    faults.extend_from_slice(found.reach.as_slice())?;
    push_count_faults(counts, &mut faults)?;
    push_unless(&mut faults, are_kept(metadata), 0, Rule::Promises)?;
    Ok(faults)
}

// The faults of metadata: all, or else at least the first.
pub(crate) fn faults_found<D: Disk>(
    alloc: Global,
    disk: &mut D,
    metadata: &Metadata,
    stops: bool,
) -> Result<Vec<Fault>, CheckRefused>
    requires { IsSized metadata.now }
    ensures faults { D.tells → IfOk result (λ faults.
        AreFaults (faults_in (over metadata.now (D.view disk.old).image)) stops faults.items) }
    ensures quiet { IsQuiet (D.view disk.old) (D.view disk.new) }
    ensures counted { (D.view disk.old).faults ≤ (D.view disk.new).faults }
    ensures only { IfErr result (λ e. IsRefused e (D.view disk.old) (D.view disk.new)) }
{
    let rights = anodes_judged(alloc, metadata)?;
    let found = look(alloc, disk, metadata, rights.as_slice(), stops)?;
    if is_done(stops, &found) {
        return Ok(found.faults);
    }
    let marks = marks_of(alloc, metadata.blocks, found.uses.as_slice())?;
    let counts = counts_judged(alloc, metadata, marks.as_slice())?;
    let faults = finish(metadata, counts.as_slice(), found)?;
    Ok(faults)
}

// One fault.
fn one_fault(alloc: Global, fault: Fault) -> Result<Vec<Fault>, AllocError>
    ensures { IfOk result (λ faults. faults.items ≡ fault ∷ []) }
{
    let mut faults = Vec::new(alloc);
    faults.push(fault)?;
    Ok(faults)
}

// The faults of a disk by what stands before its metadata: all, or else at least the first.
pub(crate) fn faults_behind<D: Disk>(
    alloc: Global,
    disk: &mut D,
    front: &Front,
    stops: bool,
) -> Result<Vec<Fault>, CheckRefused>
    requires { IsWhole front.now }
    ensures faults { D.tells → IfOk result (λ faults.
        AreFaults (faults_after front.now (D.view disk.old).image) stops faults.items) }
    ensures quiet { IsQuiet (D.view disk.old) (D.view disk.new) }
    ensures counted { (D.view disk.old).faults ≤ (D.view disk.new).faults }
    ensures only { IfErr result (λ e. IsRefused e (D.view disk.old) (D.view disk.new)) }
{
    match front {
        Front::Blank => Ok(Vec::new(alloc)),
        Front::Broken(fault) => Ok(one_fault(alloc, *fault)?),
        Front::Settled(metadata) => faults_found(alloc, disk, metadata, stops),
    }
}

/// Each fault of the bytes of a disk, with the place of the page or block that breaks a rule, in bytes, and the rule,
/// in the order of the disk. A blank disk has none. Nothing is written to the disk. The errors are `Failed`, only where
/// the disk's count of faults rose, and `Memory`.
pub fn check<D: Disk>(alloc: Global, disk: &mut D) -> Result<Vec<Fault>, CheckRefused>
    ensures faults { D.tells → IfOk result (λ faults. faults.items ≡ faults_of (D.view disk.old).image) }
    ensures quiet { IsQuiet (D.view disk.old) (D.view disk.new) }
    ensures counted { (D.view disk.old).faults ≤ (D.view disk.new).faults }
    ensures only { IfErr result (λ e. IsRefused e (D.view disk.old) (D.view disk.new)) }
{
    let front = front_of(alloc, disk)?;
    faults_behind(alloc, disk, &front, false)
}

/// The first of these faults, where there is one: its place is what a mount names. No block is read behind the slot
/// in which it is found. The errors are those of `check`.
pub fn check_first<D: Disk>(alloc: Global, disk: &mut D) -> Result<Option<Fault>, CheckRefused>
    ensures first { D.tells → IfOk result (λ first. first ≡ slice_get (faults_of (D.view disk.old).image) 0) }
    ensures quiet { IsQuiet (D.view disk.old) (D.view disk.new) }
    ensures counted { (D.view disk.old).faults ≤ (D.view disk.new).faults }
    ensures only { IfErr result (λ e. IsRefused e (D.view disk.old) (D.view disk.new)) }
{
    let front = front_of(alloc, disk)?;
    let faults = faults_behind(alloc, disk, &front, true)?;
    Ok(faults.first().copied())
}
