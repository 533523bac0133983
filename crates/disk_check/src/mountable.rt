// Whether a disk can be mounted for a server, and the place at which it is refused.
ghost use Rattle.std.specs.Prelude.{◌≡◌, ◌≤◌, ◌++◌, ℕ, List, None, length, slice_get, IfOk, IfErr, IfSome, MatchOption};
ghost use Rattle.std.specs.List.{list_any};
ghost use Rattle.base_types.specs.Crash.{IsQuiet};
ghost use Rattle.disk_pages.specs.declared.server.TakenShip.{TakenShip as TheShip};
ghost use Rattle.disk_layout.specs.Half.{used_half};
ghost use Rattle.disk_layout.specs.Places.{page_start, pages_of as pages_for};
ghost use Rattle.disk_layout.specs.Superblock.{IsSuperblock};
ghost use Rattle.disk_layout.specs.declared.half.Half.{Half as UsedHalf};
ghost use Rattle.disk_image.specs.Aggregate.{aggregate_of, header_number};
ghost use Rattle.disk_image.specs.Faults.{faults_in};
ghost use Rattle.disk_image.specs.Joined.{joined};
ghost use Rattle.disk_image.specs.Refused.{
  is_worn as is_worn_number,
  are_worn as are_worn_facts,
  is_declared,
  refused_unless,
  refusals,
  refused_behind,
  refused_at,
};
ghost use Rattle.disk_judge.specs.Metadata.{IsSized, over};
ghost use Rattle.disk_check.specs.Refused.{IsRefused};

use crate::checking::faults_found;
use crate::fault::CheckRefused;
use crate::front::is_aggregate;
use base_types::{Disk, ServerId};
use disk_image::Fault;
use disk_judge::{Metadata, page_place};
use disk_layout::{Superblock, pages_of};
use disk_log::{LogFault, found_superblock, is_blank, read_used, settled_pages};
use disk_pages::{ServerFacts, TakenShip, server_of};
use std::alloc::Global;

const SLOTS: usize = 16;

// The first header, and the pages of a slot.
const HEADER: usize = 2;

const SLOT_PAGES: usize = 66;

// Where a header names the other server.
const OTHER_AT: usize = 73;

// Where the log begins.
const LOG_PLACE: u64 = 512;

// From here on a number is worn.
const WORN: u64 = 9_223_372_036_854_775_808;

fn is_worn(number: u64) -> bool
    ensures { result ≡ is_worn_number number }
{
    WORN <= number
}

// Whether the number of a ship that was taken is.
fn is_any_worn(taken: &[TakenShip]) -> bool
    ensures { result ≡ list_any (λ (ship : TheShip). is_worn_number ship.ship) taken.now }
{
    taken.iter().any(|ship| is_worn(ship.ship))
}

fn are_worn(facts: &ServerFacts) -> bool
    ensures { result ≡ are_worn_facts facts.now }
{
    is_worn(facts.epoch) || is_worn(facts.ship) || is_any_worn(&facts.taken)
}

// The first header that names a server that isn't one of so many.
fn undeclared(servers: usize, metadata: &Metadata) -> Option<u64>
    requires { IsSized metadata.now }
    ensures { (image : List ℕ) → result ≡ slice_get (joined (λ slot. refused_unless
        (is_declared servers (over metadata.now image) slot) (page_start (header_number slot))) 16) 0 }
{
    for slot in 0..SLOTS {
        if metadata.header(slot)[OTHER_AT] as usize > servers {
            return Some(page_place(HEADER + SLOT_PAGES * slot));
        }
    }
    None
}

// The first place at which metadata is refused, by its first fault and the generation of the used half.
fn first_place(
    servers: usize,
    generation: u64,
    metadata: &Metadata,
    first: Option<Fault>,
) -> Option<u64>
    requires { IsSized metadata.now }
    ensures { (image : List ℕ) (half : UsedHalf) → half.generation ≡ generation
        → first ≡ slice_get (faults_in (over metadata.now image)) 0
        → result ≡ slice_get (refusals servers half (over metadata.now image)) 0 }
{
    if let Some(fault) = first {
        return Some(fault.place);
    }
    if let Some(place) = undeclared(servers, metadata) {
        return Some(place);
    }
    if is_worn(generation) {
        return Some(LOG_PLACE);
    }
    if are_worn(&server_of(metadata.page(0))) {
        return Some(page_place(0));
    }
    None
}

// The metadata behind the log with this superblock, where a half of it is used.
fn metadata_in<D: Disk>(
    alloc: Global,
    disk: &mut D,
    superblock: Superblock,
) -> Result<Option<Metadata>, CheckRefused>
    requires { superblock.blocks ≤ 66560 }
    ensures sized { IfOk result (λ found. IfSome found (λ metadata. IsSized metadata)) }
    ensures metadata { D.tells → IsSuperblock superblock (D.view disk.old).image → IfOk result
        (λ found. MatchOption found (used_half (pages_for superblock.blocks) (D.view disk.old).image ≡ None)
        (λ metadata. (half : UsedHalf) → used_half (pages_for superblock.blocks) (D.view disk.old).image ≡ Some half
        → over metadata (D.view disk.old).image ≡ aggregate_of superblock half (D.view disk.old).image)) }
    ensures quiet { IsQuiet (D.view disk.old) (D.view disk.new) }
    ensures counted { (D.view disk.old).faults ≤ (D.view disk.new).faults }
    ensures only { IfErr result (λ e. IsRefused e (D.view disk.old) (D.view disk.new)) }
{
    match settled_pages(alloc, disk) {
        Ok(pages) => {
            if pages.len() != pages_of(superblock.blocks) as usize {
                return Ok(None);
            }
            Ok(Some(Metadata {
                server: superblock.server,
                blocks: superblock.blocks,
                pages,
            }))
        }
        Err(LogFault::NotALog(_)) => Ok(None),
        Err(LogFault::Failed) => Err(CheckRefused::Failed),
        Err(LogFault::Memory) => Err(CheckRefused::Memory),
        Err(LogFault::Full { .. }) => unreachable!(),
    }
}

// The place behind a superblock.
fn place_behind<D: Disk>(
    alloc: Global,
    disk: &mut D,
    servers: usize,
    superblock: Superblock,
) -> Result<Option<u64>, CheckRefused>
    requires { superblock.blocks ≤ 66560 }
    ensures place { D.tells → IsSuperblock superblock (D.view disk.old).image → IfOk result
        (λ place. place ≡ refused_behind servers superblock
        (used_half (pages_for superblock.blocks) (D.view disk.old).image) (D.view disk.old).image) }
    ensures quiet { IsQuiet (D.view disk.old) (D.view disk.new) }
    ensures counted { (D.view disk.old).faults ≤ (D.view disk.new).faults }
    ensures only { IfErr result (λ e. IsRefused e (D.view disk.old) (D.view disk.new)) }
{
    let used = read_used(disk, pages_of(superblock.blocks))?;
    let Some(half) = used else {
        return Ok(Some(LOG_PLACE));
    };
    let found = metadata_in(alloc, disk, superblock)?;
    let Some(metadata) = found else {
        return Ok(Some(LOG_PLACE));
    };
    let faults = faults_found(alloc, disk, &metadata, true)?;
    let first = faults.first().copied();
    Ok(first_place(servers, half.generation, &metadata, first))
}

/// The place, in bytes, at which a mount of a disk for a server is refused, where so many servers are declared; none
/// where it can be mounted. It is that of the first fault, of a header that names another server, of the log where its
/// generation is worn, or of the server's page where one of its numbers is; 0 of a blank disk, and of another server's.
/// Nothing is written to the disk. The errors are those of `check`.
pub fn refusal<D: Disk>(
    alloc: Global,
    disk: &mut D,
    server: ServerId,
    servers: usize,
) -> Result<Option<u64>, CheckRefused>
    ensures place { D.tells
        → IfOk result (λ place. place ≡ refused_at server.0 servers (D.view disk.old).image) }
    ensures quiet { IsQuiet (D.view disk.old) (D.view disk.new) }
    ensures counted { (D.view disk.old).faults ≤ (D.view disk.new).faults }
    ensures only { IfErr result (λ e. IsRefused e (D.view disk.old) (D.view disk.new)) }
{
    let blank = is_blank(disk)?;
    if blank {
        return Ok(Some(0));
    }
    let found = found_superblock(disk)?;
    match found {
        Some(superblock) => {
            if !is_aggregate(&superblock) {
                return Ok(Some(0));
            }
            if superblock.server != server.0 {
                return Ok(Some(0));
            }
            place_behind(alloc, disk, servers, superblock)
        }
        None => Ok(Some(0)),
    }
}
