// A batch.
ghost use Rattle.std.specs.Prelude.{◌≡◌, ◌≤◌, ◌<◌, ◌+◌, ◌-◌, ◌^◌, true, length, IfOk, IfErr, OnOk, OnErr};
ghost use Rattle.base_types.specs.declared.limits.TheConstants.{HOSTS_MAX as HOSTS, SERVERS_MAX as SERVERS};
ghost use Rattle.base_outside.specs.Runs.{LeavesOnly};
ghost use Rattle.store_memory.specs.MapStores.{kept_in};
ghost use Rattle.store_acts.specs.Acts.{dones_of, state_after};
ghost use Rattle.store_acts.specs.Sound.{AreActs};
ghost use Rattle.disk_log.specs.Log.{disk_of, state_of};
ghost use Rattle.disk_anode.specs.Faults.{IsNodeFault};
ghost use Rattle.disk_acts.specs.Records.{HasTables};
ghost use Rattle.disk_acts.specs.Batch.{Counts, Goes, HoldsFirst, Rests};

use crate::counting::count_free;
use crate::one::do_one;
use crate::room::make_room;
use crate::settling::settle;
use base_types::{Disk, HOSTS_MAX, Items, NoMemory, SERVERS_MAX};
use disk_anode::NodeFault;
use disk_log::Log;
use store_acts::Act;
use store_memory::MapStore;
use store_state::{Done, StoreState};

// Whether a record has as many hosts and other servers as each store has. One that was read from a disk that isn't told
// may have others.
fn has_tables(state: &StoreState) -> bool
    ensures { result ≡ true → (length state.now.hosts ≡ HOSTS + 1) × (length state.now.taken ≡ SERVERS) }
{
    state.hosts.len() == HOSTS_MAX as usize + 1 && state.taken.len() == SERVERS_MAX as usize
}

// Does acts, each in one transaction. What each may need is taken off the free blocks that were counted.
fn do_all<D: Disk>(
    log: &mut Log<D>,
    store: &mut MapStore,
    batch: &[Act],
) -> Result<Items<Done>, NodeFault>
    requires acts { AreActs (kept_in store.old).roster (kept_in store.old).server batch.now }
    requires rests { Rests D.tells D.view (kept_in store.old) log.old }
    requires tables { HasTables (kept_in store.old) }
    requires unworn { (state_of log.old).half.generation < 2 ^ 64 - 16 }
    requires epoch { (kept_in store.old).epoch < 2 ^ 64 - 16 }
    requires ship { (kept_in store.old).ship < 2 ^ 64 - 16 }
    ensures dones { IfOk result (λ dones. dones ≡ dones_of (kept_in store.old) batch.now) }
    ensures state { OnOk result (kept_in store.new ≡ state_after (kept_in store.old) batch.now) }
    ensures server { (kept_in store.new).server ≡ (kept_in store.old).server }
    ensures roster { (kept_in store.new).roster ≡ (kept_in store.old).roster }
    ensures goes { OnOk result (Goes D.tells D.view ((state_of log.old).half.generation + 9) (kept_in store.old)
        batch.now (length batch.now) (D.view (disk_of log.old)) log.new) }
    ensures counts { OnOk result (Counts (length batch.now) (kept_in store.old) (kept_in store.new) log.old log.new) }
    ensures crash { D.tells → LeavesOnly
        (HoldsFirst ((state_of log.old).half.generation + 9) (kept_in store.old) batch.now)
        (D.view (disk_of log.old)) (D.view (disk_of log.new)) }
    ensures counted { (D.view (disk_of log.old)).faults ≤ (D.view (disk_of log.new)).faults }
    ensures only { IfErr result
        (λ fault. IsNodeFault fault (D.view (disk_of log.old)) (D.view (disk_of log.new))) }
{
    let mut dones = Items::new(store.state().slots.alloc());
    let mut room = count_free(log)?;
    for act in batch {
        room = make_room(log, room, act)?;
        let done = do_one(log, store, act)?;
        match dones.push(done) {
            Ok(()) => {}
            Err(NoMemory) => return Err(NodeFault::Memory),
        }
    }
    Ok(dones)
}

/// Does up to `BATCH_ACTS_MAX` acts, in their order, in memory and each in one transaction of the log, and forces them.
/// After `Ok` all are durable, and the log holds what the store has. A crash at any moment of the call leaves what was
/// there, or what the first acts of the batch made, up to one of them. The errors are `Failed` and `Memory`; after
/// either the disk has what the first acts made, and the store in memory may be ahead of it: the log is to be mounted
/// again, and the store to be read anew. `Memory` also says that an act doesn't fit, as it would leave what no disk can
/// have (`may_stand`), or that fewer blocks are free than an act may need, which promises rule out where no anode of a
/// clone has pointers past its length (`promises_leave_room`).
pub fn put_batch<D: Disk>(
    log: &mut Log<D>,
    store: &mut MapStore,
    batch: &[Act],
) -> Result<Items<Done>, NodeFault>
    requires acts { AreActs (kept_in store.old).roster (kept_in store.old).server batch.now }
    requires rests { Rests D.tells D.view (kept_in store.old) log.old }
    requires unworn { (state_of log.old).half.generation < 2 ^ 64 - 16 }
    requires epoch { (kept_in store.old).epoch < 2 ^ 64 - 16 }
    requires ship { (kept_in store.old).ship < 2 ^ 64 - 16 }
    ensures dones { IfOk result (λ dones. dones ≡ dones_of (kept_in store.old) batch.now) }
    ensures state { OnOk result (kept_in store.new ≡ state_after (kept_in store.old) batch.now) }
    ensures server { (kept_in store.new).server ≡ (kept_in store.old).server }
    ensures roster { (kept_in store.new).roster ≡ (kept_in store.old).roster }
    ensures rests { OnOk result (Rests D.tells D.view (kept_in store.new) log.new) }
    ensures counts { OnOk result (Counts (length batch.now) (kept_in store.old) (kept_in store.new) log.old log.new) }
    ensures crash { D.tells → LeavesOnly
        (HoldsFirst ((state_of log.old).half.generation + 9) (kept_in store.old) batch.now)
        (D.view (disk_of log.old)) (D.view (disk_of log.new)) }
    ensures left { D.tells → OnErr result
        (HoldsFirst ((state_of log.old).half.generation + 9) (kept_in store.old) batch.now
        (D.view (disk_of log.new)).image) }
    ensures counted { (D.view (disk_of log.old)).faults ≤ (D.view (disk_of log.new)).faults }
    ensures only { IfErr result
        (λ fault. IsNodeFault fault (D.view (disk_of log.old)) (D.view (disk_of log.new))) }
{
    if !has_tables(store.state()) {
        return Err(NodeFault::Memory);
    }
    let dones = do_all(log, store, batch)?;
    match settle(log) {
        Ok(()) => Ok(dones),
        Err(fault) => Err(fault),
    }
}
