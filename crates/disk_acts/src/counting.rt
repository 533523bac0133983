// The blocks that are free.
ghost use Rattle.std.specs.Prelude.{◌≡◌, ◌≤◌, ◌<◌, ◌+◌, ◌*◌, ◌==◌, ℕ, IfOk, IfErr};
ghost use Rattle.base_types.specs.Crash.{IsQuiet};
ghost use Rattle.disk_layout.specs.Numbers.{number_at};
ghost use Rattle.disk_log.specs.Contents.{contents_of, last_stage};
ghost use Rattle.disk_log.specs.Log.{disk_of, state_of, IsIdle};
ghost use Rattle.disk_anode.specs.Faults.{IsNodeFault};
ghost use Rattle.disk_anode.specs.Room.{free_blocks, how_many};

use base_types::Disk;
use disk_anode::NodeFault;
use disk_layout::{PAGE, u16_at};
use disk_log::Log;

// The first page of counts, and how many stand in a page.
const COUNTS_PAGE: u32 = 1_058;

const COUNTS: u32 = 256;

// As many free blocks as a batch may need, of 8 acts of 144 each: no more are counted.
const ENOUGH: u32 = 1_152;

// How many of the first counts of a page are 0.
fn zeros(page: &[u8; PAGE], counts: u32) -> u32
    requires { counts ≤ 256 }
    ensures zeros { result ≡ how_many (λ i. number_at 2 (2 * i) page.now == 0) counts }
    ensures few { result ≤ counts }
{
    let mut zeros = 0;
    for i in 0..counts {
        if u16_at(page, 2 * i as usize) == 0 {
            zeros += 1;
        }
    }
    zeros
}

// How many blocks are free, where all that ended is durable: each that no pointer names. It counts no further than to
// as many as a batch may need. The only error is `Failed`.
pub(crate) fn count_free<D: Disk>(log: &mut Log<D>) -> Result<u32, NodeFault>
    requires idle { IsIdle D.tells D.view log.old }
    requires durable { last_stage (contents_of D.view log.old) ≡ 0 }
    ensures idle { IsIdle D.tells D.view log.new }
    ensures state { state_of log.new ≡ state_of log.old }
    ensures free { D.tells
        → IfOk result (λ free. free ≤ free_blocks (state_of log.old) (D.view (disk_of log.old)).image) }
    ensures all { D.tells → IfOk result
        (λ free. free < 1152 → free ≡ free_blocks (state_of log.old) (D.view (disk_of log.old)).image) }
    ensures quiet { IsQuiet (D.view (disk_of log.old)) (D.view (disk_of log.new)) }
    ensures counted { (D.view (disk_of log.old)).faults ≤ (D.view (disk_of log.new)).faults }
    ensures only { IfErr result
        (λ fault. IsNodeFault fault (D.view (disk_of log.old)) (D.view (disk_of log.new))) }
{
    let mut page = [0; PAGE];
    let mut free = 0;
    for index in 0..log.blocks().div_ceil(COUNTS) {
        let is_enough = free >= ENOUGH;
        if is_enough {
            return Ok(free);
        }
        log.page(COUNTS_PAGE + index, &mut page)?;
        let counts = COUNTS.min(log.blocks() - COUNTS * index);
        free += zeros(&page, counts);
    }
    Ok(free)
}

// And how many are left where so many are needed, of those that it counts. Where fewer are free it answers `Memory`.
pub(crate) fn count_left<D: Disk>(log: &mut Log<D>, needed: u32) -> Result<u32, NodeFault>
    requires idle { IsIdle D.tells D.view log.old }
    requires durable { last_stage (contents_of D.view log.old) ≡ 0 }
    ensures idle { IsIdle D.tells D.view log.new }
    ensures state { state_of log.new ≡ state_of log.old }
    ensures left { D.tells
        → IfOk result (λ left. left + needed ≤ free_blocks (state_of log.old) (D.view (disk_of log.old)).image) }
    ensures quiet { IsQuiet (D.view (disk_of log.old)) (D.view (disk_of log.new)) }
    ensures counted { (D.view (disk_of log.old)).faults ≤ (D.view (disk_of log.new)).faults }
    ensures only { IfErr result
        (λ fault. IsNodeFault fault (D.view (disk_of log.old)) (D.view (disk_of log.new))) }
{
    let free = count_free(log)?;
    if free < needed {
        return Err(NodeFault::Memory);
    }
    Ok(free - needed)
}
