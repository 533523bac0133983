// What recovery makes of a log's pages, with nothing written.
ghost use Rattle.std.specs.Prelude.{◌≡◌, ◌<◌, ◌≤◌, ℕ, None, length, get_or, MatchOption, IfOk, IfErr};
ghost use Rattle.base_types.specs.Crash.{IsQuiet};
ghost use Rattle.disk_layout.specs.Places.{in_place};
ghost use Rattle.disk_log.specs.Blame.{IsBlamed, IsDiskOrMemory};
ghost use Rattle.disk_log.specs.Mount.{AreSettled, IsSettledFault};
ghost use Rattle.disk_log.specs.Recovered.{AreOver};

use crate::fault::LogFault;
use crate::mount::found_log;
use crate::read::read_entries;
use crate::recover::recovered;
use base_types::{Disk, Failed};
use disk_layout::{PAGE, PAGES_START};
use std::alloc::Global;

// A page that recovery makes anew, or else as it stands in its place.
fn settled_page<D: Disk>(
    disk: &mut D,
    place: usize,
    page: &Option<[u8; PAGE]>,
) -> Result<[u8; PAGE], Failed>
    requires { place < 131072 }
    ensures bytes { D.tells → IfOk result
        (λ bytes. MatchOption page.now (bytes ≡ in_place (D.view disk.old).image place) (λ made. bytes ≡ made)) }
    ensures quiet { IsQuiet (D.view disk.old) (D.view disk.new) }
    ensures blamed { IsBlamed result (D.view disk.old) (D.view disk.new) }
{
    if let Some(bytes) = page {
        return Ok(*bytes);
    }
    let mut bytes = [0; PAGE];
    disk.read(PAGES_START + 512 * place as u64, &mut bytes)?;
    Ok(bytes)
}

// All pages, those of the table in place of what stands on the disk.
fn settled_by<D: Disk>(
    alloc: Global,
    disk: &mut D,
    table: &[Option<[u8; PAGE]>],
) -> Result<Vec<[u8; PAGE]>, LogFault>
    requires { length table.now ≤ 131072 }
    ensures size { IfOk result (λ pages. length pages.items ≡ length table.now) }
    ensures pages { D.tells
        → IfOk result (λ pages. AreOver table.now (D.view disk.old).image (length table.now) pages.items) }
    ensures quiet { IsQuiet (D.view disk.old) (D.view disk.new) }
    ensures counted { (D.view disk.old).faults ≤ (D.view disk.new).faults }
    ensures only { IfErr result (λ fault. IsDiskOrMemory fault (D.view disk.old) (D.view disk.new)) }
{
    let mut pages = Vec::with_capacity(alloc, table.len())?;
    for (place, page) in table.iter().enumerate() {
        pages.push_reserved(settled_page(disk, place, page)?);
    }
    Ok(pages)
}

/// All metadata pages of the log on a disk, of 512 bytes each, in their order, as recovery makes them by redo and undo.
/// Nothing is written to the disk. It answers `NotALog` exactly where the bytes of the disk are no log, with the place,
/// `Failed` only where the count of faults rose, and `Memory`.
pub fn settled_pages<D: Disk>(alloc: Global, disk: &mut D) -> Result<Vec<[u8; PAGE]>, LogFault>
    ensures pages { D.tells → IfOk result (λ pages. AreSettled (D.view disk.old).image pages.items) }
    ensures quiet { IsQuiet (D.view disk.old) (D.view disk.new) }
    ensures counted { (D.view disk.old).faults ≤ (D.view disk.new).faults }
    ensures only { IfErr result (λ fault. IsSettledFault D.tells fault (D.view disk.old) (D.view disk.new)) }
{
    let (_, half) = found_log(disk)?;
    let entries = read_entries(alloc, disk, &half)?;
    let table = recovered(alloc, &entries, half.pages)?;
    settled_by(alloc, disk, table.as_slice())
}
