// A batch of acts.
ghost use Rattle.std.specs.Prelude.{◌≡◌, ◌≤◌, ◌<◌, ◌+◌, ◌^◌, true, false, length, IfOk, IfErr, OnOk, OnErr};
ghost use Rattle.base_outside.specs.Runs.{LeavesOnly};
ghost use Rattle.store_acts.specs.Acts.{dones_of, state_after};
ghost use Rattle.store_acts.specs.Sound.{AreActs};
ghost use Rattle.disk_anode.specs.Faults.{IsNodeFault};

use crate::aggregate::Aggregate;
use base_types::{Disk, Items};
use disk_acts::put_batch;
use disk_anode::NodeFault;
use store_acts::Act;
use store_state::Done;

// By how much a batch makes a number rise at most: one for each act, and one that a crash or a fault may leave.
const BATCH_WEAR: u64 = 9;

impl<D: Disk> Aggregate<D> {
    ghost use Rattle.disk_aggregate.specs.Applying.{HasFirst, IsLeftOfBatch};
    ghost use Rattle.disk_aggregate.specs.Stands.{Stands, state_in as kept_in, disk_in};

    // Does acts in their order, in memory and on the disk, and answers what became of each. The errors are `Failed`,
    // only where the disk's count of faults rose, and `Memory`. After either the disk has what the first acts made, and
    // the aggregate is to be opened again.
    pub(crate) fn do_batch(&mut self, batch: &[Act]) -> Result<Items<Done>, NodeFault>
        requires acts { AreActs (kept_in self.old).roster (kept_in self.old).server batch.now }
        requires stands { Stands D.tells D.view self.old }
        requires wear { self.old.wear < 2 ^ 48 }
        ensures dones { IfOk result (λ dones. dones ≡ dones_of (kept_in self.old) batch.now) }
        ensures state { OnOk result (kept_in self.new ≡ state_after (kept_in self.old) batch.now) }
        ensures stands { OnOk result (Stands D.tells D.view self.new) }
        ensures shut { OnErr result (self.new.is_open ≡ false) }
        ensures left { D.tells → OnErr result
            (HasFirst self.new.wear (kept_in self.old) batch.now (D.view (disk_in self.new)).image) }
        ensures server { (kept_in self.new).server ≡ (kept_in self.old).server }
        ensures roster { (kept_in self.new).roster ≡ (kept_in self.old).roster }
        ensures wear { self.new.wear ≡ self.old.wear + 9 }
        ensures crash { D.tells → LeavesOnly (IsLeftOfBatch self.new.wear (kept_in self.old) batch.now)
            (D.view (disk_in self.old)) (D.view (disk_in self.new)) }
        ensures counted { (D.view (disk_in self.old)).faults ≤ (D.view (disk_in self.new)).faults }
        ensures only { IfErr result
            (λ fault. IsNodeFault fault (D.view (disk_in self.old)) (D.view (disk_in self.new))) }
    {
        self.wear += BATCH_WEAR;
        match put_batch(&mut self.log, &mut self.store, batch) {
            Ok(dones) => Ok(dones),
            Err(fault) => {
                self.is_open = false;
                Err(fault)
            }
        }
    }
}
