// What promises leave free. The function does nothing, and what it ensures is a law.
ghost use Rattle.std.specs.Prelude.{◌≤◌};
ghost use Rattle.store_state.specs.declared.state.StoreState.{StoreState};
ghost use Rattle.disk_log.specs.Log.{disk_of, state_of};
ghost use Rattle.disk_anode.specs.Room.{free_blocks};
ghost use Rattle.disk_acts.specs.Batch.{AreClonesTrimmed, Rests};

use base_types::Disk;
use disk_log::Log;

/// Promises leave room: where a log rests with the record of a store, and no anode of a clone has pointers past its
/// length, 1,024 blocks are free.
pub fn promises_leave_room<D: Disk>(log: &Log<D>)
    ensures { (state : StoreState) → D.tells → Rests D.tells D.view state log.now
        → AreClonesTrimmed state (state_of log.now) (D.view (disk_of log.now)).image
        → 1024 ≤ free_blocks (state_of log.now) (D.view (disk_of log.now)).image }
{}
