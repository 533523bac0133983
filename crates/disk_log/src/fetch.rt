ghost use Rattle.std.specs.Prelude.{◌≡◌, ◌<◌, ◌≤◌, length, OnOk};
ghost use Rattle.base_types.specs.Crash.{IsQuiet};
ghost use Rattle.disk_layout.specs.Pages.{redone};
ghost use Rattle.disk_layout.specs.Places.{in_place};
ghost use Rattle.disk_log.specs.Blame.{IsBlamed};
ghost use Rattle.disk_log.specs.Pages.{HoldsPages};

use crate::over::redo;
use base_types::{Disk, Failed, Items};
use disk_layout::{Entry, PAGE, PAGES_START};

// Reads a metadata page where it stands.
fn read_page<D: Disk>(disk: &mut D, page: u32, out: &mut [u8; PAGE]) -> Result<(), Failed>
    requires { page < 131072 }
    ensures bytes { D.tells → OnOk result (out.new ≡ in_place (D.view disk.old).image page) }
    ensures quiet { IsQuiet (D.view disk.old) (D.view disk.new) }
    ensures blamed { IsBlamed result (D.view disk.old) (D.view disk.new) }
{
    disk.read(PAGES_START + (PAGE as u64) * page as u64, out)
}

// Fills `out` with a metadata page as entries leave it, and keeps it; one that is kept is not read again.
pub fn fetch<D: Disk>(
    disk: &mut D,
    pages: &mut Items<Option<[u8; PAGE]>>,
    held: &[Entry],
    page: u32,
    out: &mut [u8; PAGE],
) -> Result<(), Failed>
    requires page { page < length pages.old }
    requires few { length pages.old ≤ 131072 }
    requires pages { D.tells → HoldsPages pages.old held.now (D.view disk.old).image }
    ensures bytes { D.tells → OnOk result (out.new ≡ redone held.now (in_place (D.view disk.old).image) page) }
    ensures size { length pages.new ≡ length pages.old }
    ensures pages { D.tells → HoldsPages pages.new held.now (D.view disk.new).image }
    ensures quiet { IsQuiet (D.view disk.old) (D.view disk.new) }
    ensures blamed { IsBlamed result (D.view disk.old) (D.view disk.new) }
{
    if let Some(bytes) = pages.get(page as usize) {
        *out = *bytes;
        return Ok(());
    }
    read_page(disk, page, out)?;
    redo(held, page, out);
    pages.set(page as usize, Some(*out));
    Ok(())
}
