// What stands before the metadata of a disk.
ghost use Rattle.std.specs.Prelude.{◌≡◌, ◌≤◌, ◌&&◌, nat_le, IfOk, IfErr};
ghost use Rattle.base_types.specs.Crash.{IsQuiet};
ghost use Rattle.disk_layout.specs.Half.{used_half};
ghost use Rattle.disk_layout.specs.Places.{pages_of as pages_for};
ghost use Rattle.disk_layout.specs.Superblock.{IsBlank, IsSuperblock};
ghost use Rattle.disk_image.specs.Faults.{faults_of, faults_behind};
ghost use Rattle.disk_check.specs.Front.{IsWhole, faults_after};
ghost use Rattle.disk_check.specs.Refused.{IsRefused};

use crate::fault::CheckRefused;
use base_types::Disk;
use disk_image::{BLOCKS_MIN, Fault, Rule};
use disk_judge::Metadata;
use disk_layout::{Superblock, pages_of};
use disk_log::{LogFault, found_superblock, is_blank, settled_pages};
use std::alloc::Global;

const SERVERS: u8 = 4;

const NO_SUPERBLOCK: Fault = Fault {
    place: 0,
    rule: Rule::Superblock,
};

// No half of the log is used.
const NO_LOG: Fault = Fault {
    place: 512,
    rule: Rule::Log,
};

// What stands there.
#[derive(Drop)]
pub enum Front {
    // Nobody formatted the disk, or its format was stopped.
    Blank,
    // A fault, behind which nothing is judged.
    Broken(Fault),
    // The metadata behind the log.
    Settled(Metadata),
}

// The metadata behind the log with this superblock.
fn settled<D: Disk>(
    alloc: Global,
    disk: &mut D,
    superblock: Superblock,
) -> Result<Front, CheckRefused>
    requires { superblock.blocks ≤ 66560 }
    ensures whole { IfOk result (λ front. IsWhole front) }
    ensures faults { D.tells → IsSuperblock superblock (D.view disk.old).image → IfOk result (λ front.
        faults_after front (D.view disk.old).image ≡ faults_behind superblock
        (used_half (pages_for superblock.blocks) (D.view disk.old).image) (D.view disk.old).image) }
    ensures quiet { IsQuiet (D.view disk.old) (D.view disk.new) }
    ensures counted { (D.view disk.old).faults ≤ (D.view disk.new).faults }
    ensures only { IfErr result (λ e. IsRefused e (D.view disk.old) (D.view disk.new)) }
{
    match settled_pages(alloc, disk) {
        Ok(pages) => {
            if pages.len() != pages_of(superblock.blocks) as usize {
                return Ok(Front::Broken(NO_SUPERBLOCK));
            }
            Ok(Front::Settled(Metadata {
                server: superblock.server,
                blocks: superblock.blocks,
                pages,
            }))
        }
        Err(LogFault::NotALog(_)) => Ok(Front::Broken(NO_LOG)),
        Err(LogFault::Failed) => Err(CheckRefused::Failed),
        Err(LogFault::Memory) => Err(CheckRefused::Memory),
        Err(LogFault::Full { .. }) => unreachable!(),
    }
}

// Whether a log's superblock is that of an aggregate.
pub(crate) fn is_aggregate(superblock: &Superblock) -> bool
    ensures { result ≡ (nat_le 1 superblock.now.server && nat_le superblock.now.server 4
        && nat_le 1092 superblock.now.blocks) }
{
    1 <= superblock.server && superblock.server <= SERVERS && BLOCKS_MIN <= superblock.blocks
}

// What stands behind a superblock, where the disk isn't blank.
fn behind<D: Disk>(
    alloc: Global,
    disk: &mut D,
    superblock: Superblock,
) -> Result<Front, CheckRefused>
    requires { superblock.blocks ≤ 66560 }
    ensures whole { IfOk result (λ front. IsWhole front) }
    ensures faults { D.tells → (IsBlank (D.view disk.old).image → ⊥) → IsSuperblock superblock (D.view disk.old).image
        → IfOk result (λ front. faults_after front (D.view disk.old).image ≡ faults_of (D.view disk.old).image) }
    ensures quiet { IsQuiet (D.view disk.old) (D.view disk.new) }
    ensures counted { (D.view disk.old).faults ≤ (D.view disk.new).faults }
    ensures only { IfErr result (λ e. IsRefused e (D.view disk.old) (D.view disk.new)) }
{
    if !is_aggregate(&superblock) {
        return Ok(Front::Broken(NO_SUPERBLOCK));
    }
    settled(alloc, disk, superblock)
}

// What stands before the metadata of a disk.
pub fn front_of<D: Disk>(alloc: Global, disk: &mut D) -> Result<Front, CheckRefused>
    ensures whole { IfOk result (λ front. IsWhole front) }
    ensures faults { D.tells → IfOk result (λ front.
        faults_after front (D.view disk.old).image ≡ faults_of (D.view disk.old).image) }
    ensures quiet { IsQuiet (D.view disk.old) (D.view disk.new) }
    ensures counted { (D.view disk.old).faults ≤ (D.view disk.new).faults }
    ensures only { IfErr result (λ e. IsRefused e (D.view disk.old) (D.view disk.new)) }
{
    let blank = is_blank(disk)?;
    if blank {
        return Ok(Front::Blank);
    }
    let found = found_superblock(disk)?;
    match found {
        Some(superblock) => behind(alloc, disk, superblock),
        None => Ok(Front::Broken(NO_SUPERBLOCK)),
    }
}
