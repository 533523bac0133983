// One act.
ghost use Rattle.std.specs.Prelude.{◌≡◌, ◌-◌, ◌<◌, ◌^◌, IfOk, OnOk};
ghost use Rattle.store_memory.specs.MapStores.{kept_in};
ghost use Rattle.store_acts.specs.Acts.{act_done};
ghost use Rattle.store_acts.specs.Sound.{IsAct};
ghost use Rattle.store_state.specs.declared.state.StoreState.{StoreState as Kept};
ghost use Rattle.store_records.specs.Stored.{IsStorable};
ghost use Rattle.store_records.specs.Stands.{LeavesStorable};
ghost use Rattle.disk_acts.specs.Acts.{act_blocks, DoesAct, MayAct};
ghost use Rattle.disk_acts.specs.Records.{HasTables};
ghost use Rattle.disk_acts.specs.Touched.{IsMade};

use crate::acts::put_act;
use crate::touched::{Before, keep_before};
use base_types::{Disk, NoMemory};
use disk_anode::NodeFault;
use disk_log::Log;
use store_acts::Act;
use store_memory::MapStore;
use store_records::may_stand;
use store_state::{Done, StoreState};

// Puts what an act left into the log, if a disk can have it. If not it answers `Memory`, and the log is as it was.
fn put_standing<D: Disk>(
    log: &mut Log<D>,
    before: &Before,
    act: &Act,
    after: &StoreState,
) -> Result<(), NodeFault>
    requires tables { HasTables after.now }
    requires made { (old : Kept) × IsMade old act.now before.now after.now
        × MayAct D.tells D.view (act_blocks act.now) old log.old }
    ensures stands { OnOk result (LeavesStorable act.now after.now) }
    ensures does { DoesAct D.tells D.view (act_blocks act.now) after.now result log.old log.new }
{
    match may_stand(act, after) {
        Ok(true) => put_act(log, before, act, after),
        Ok(false) | Err(NoMemory) => Err(NodeFault::Memory),
    }
}

// Does an act in memory, and puts it into the log, unless it isn't done now. Where it left what no disk can have it
// answers `Memory`, and the log is as it was.
pub(crate) fn do_one<D: Disk>(
    log: &mut Log<D>,
    store: &mut MapStore,
    act: &Act,
) -> Result<Done, NodeFault>
    requires act { IsAct (kept_in store.old).roster (kept_in store.old).server act.now }
    requires tables { HasTables (kept_in store.old) }
    requires epoch { (kept_in store.old).epoch < 2 ^ 64 - 1 }
    requires ship { (kept_in store.old).ship < 2 ^ 64 - 1 }
    requires may { MayAct D.tells D.view (act_blocks act.now) (kept_in store.old) log.old }
    ensures done { IfOk result (λ done. done ≡ (act_done (kept_in store.old) act.now).done) }
    ensures state { OnOk result (kept_in store.new ≡ (act_done (kept_in store.old) act.now).state) }
    ensures storable { OnOk result (IsStorable (kept_in store.old) → IsStorable (kept_in store.new)) }
    ensures server { (kept_in store.new).server ≡ (kept_in store.old).server }
    ensures roster { (kept_in store.new).roster ≡ (kept_in store.old).roster }
    ensures does { DoesAct D.tells D.view (act_blocks act.now) (act_done (kept_in store.old) act.now).state result
        log.old log.new }
{
    let before = match keep_before(store.state(), act) {
        Ok(before) => before,
        Err(NoMemory) => return Err(NodeFault::Memory),
    };
    let done = match store.do_act(act) {
        Ok(done) => done,
        Err(NoMemory) => return Err(NodeFault::Memory),
    };
    if !done.fresh {
        return Ok(done);
    }
    match put_standing(log, &before, act, store.state()) {
        Ok(()) => Ok(done),
        Err(fault) => Err(fault),
    }
}
