// Room for an act.
ghost use Rattle.std.specs.Prelude.{◌≤◌, ◌<◌};
ghost use Rattle.disk_log.specs.Log.{disk_of, state_of, IsIdle};
ghost use Rattle.disk_anode.specs.Room.{free_blocks};
ghost use Rattle.disk_acts.specs.Acts.{act_blocks as blocks_of};
ghost use Rattle.disk_acts.specs.Batch.{MakesRoom};

use crate::acts::act_blocks;
use crate::counting::count_left;
use crate::running::ACT_ENTRIES;
use crate::settling::{empty, settle};
use base_types::Disk;
use disk_anode::NodeFault;
use disk_log::Log;
use store_acts::Act;

// Makes room for an act, where so many blocks are known to be free, and answers how many are left to later ones: then
// it has the entries of the log and the blocks that it needs. Only where these are short the log is emptied or forced,
// and the free blocks are counted anew. Where they still are too few it answers `Memory`.
pub(crate) fn make_room<D: Disk>(log: &mut Log<D>, room: u32, act: &Act) -> Result<u32, NodeFault>
    requires idle { IsIdle D.tells D.view log.old }
    requires unworn { (state_of log.old).half.generation < 18446744073709551615 }
    requires room { D.tells → room ≤ free_blocks (state_of log.old) (D.view (disk_of log.old)).image }
    ensures { MakesRoom D.tells D.view (blocks_of act.now) result log.old log.new }
{
    let needed = act_blocks(act);
    if log.free() < ACT_ENTRIES {
        return match empty(log) {
            Ok(()) => count_left(log, needed),
            Err(fault) => Err(fault),
        };
    }
    if room < needed {
        return match settle(log) {
            Ok(()) => count_left(log, needed),
            Err(fault) => Err(fault),
        };
    }
    Ok(room - needed)
}
