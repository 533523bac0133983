// Where the anodes of a slot stand.
ghost use Rattle.std.specs.Prelude.{◌≡◌, ◌≤◌, ◌<◌};
ghost use Rattle.disk_objects.specs.Objects.{page_for};

// Pages of a slot, and those before the page of its first anode.
const SLOT_PAGES: u32 = 66;

const BEFORE: u32 = 3;

/// The metadata page of an anode, from 1 to 64, of a slot from 0 to 15.
pub fn anode_page(slot: u32, anode: u32) -> u32
    requires slot { slot < 16 }
    requires anode { anode ≤ 64 }
    ensures { result ≡ page_for slot anode }
{
    BEFORE + SLOT_PAGES * slot + anode
}
