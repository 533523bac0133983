//! One act, in one transaction.
ghost use Rattle.std.specs.Prelude.{◌≡◌, Some};
ghost use Rattle.store_state.specs.State.{held_at as held_in};
ghost use Rattle.store_state.specs.declared.state.StoreState.{StoreState as Kept};
ghost use Rattle.disk_acts.specs.Acts.{act_pages, act_blocks, MayAct, DoesAct};
ghost use Rattle.disk_acts.specs.Records.{HasTables, HasNow};
ghost use Rattle.disk_log.specs.Log.{disk_of, state_of};
ghost use Rattle.store_acts.specs.Acts.{booted};
ghost use Rattle.store_acts.specs.declared.act.Act.TheVariants.{Boot};
ghost use Rattle.disk_acts.specs.Steps.{MayStep, Steps, SaysNext, MayPutSlot, PutsSlot, beside_anodes};
ghost use Rattle.disk_acts.specs.Touched.{IsMade};

use crate::anodes::put_anodes;
use crate::facts::{say_all, say_held, say_server};
use crate::running::{begin, finish};
use crate::touched::{Before, renews};
use base_types::{Disk, FILESETS_MAX, OBJECTS_MAX};
use disk_anode::NodeFault;
use disk_fileset::{copy_slot, give};
use disk_log::{Log, Tx};
use store_acts::Act;
use store_state::{Holding, StoreState, held_at};
use tree_calls::Call;

/// How many free blocks an act needs.
pub fn act_blocks(act: &Act) -> u32
    ensures { result ≡ act_blocks act.now }
{
    match act {
        Act::Give { .. } => 68,
        _ => 144,
    }
}

// Gives back to the file in a slot, as an act did in memory.
fn give_held<D: Disk>(
    log: &mut Log<D>,
    tx: &mut Tx,
    before: &Before,
    act: &Act,
    state: &StoreState,
    holding: &Holding,
) -> Result<(), NodeFault>
    requires tables { HasTables state.now }
    requires held { held_in state.now.slots before.now.slot ≡ Some holding.now }
    requires may { MayPutSlot D.tells D.view act.now before.now state.now log.old tx.old }
    ensures puts { PutsSlot D.tells D.view act.now before.now state.now (Some holding.now) result log.old log.new }
    ensures steps { Steps D.tells D.view (act_pages before.now.slot) (act_blocks act.now) result
        log.old log.new tx.old tx.new }
{
    let Act::Give {
        fid,
        pieces,
        length,
        ..
    } = act
    else {
        return Err(NodeFault::Memory);
    };
    if !before.gives {
        return Ok(());
    }
    if fid.anode == 0 || fid.anode > OBJECTS_MAX {
        return Err(NodeFault::Memory);
    }
    let (alloc, slot) = (state.slots.alloc(), before.slot as u32);
    give(alloc, log, tx, slot, fid.anode, pieces.as_slice(), *length)
}

// Gives the slot of a clone what its source has.
fn copy_held<D: Disk>(
    log: &mut Log<D>,
    tx: &mut Tx,
    before: &Before,
    act: &Act,
    state: &StoreState,
    holding: &Holding,
) -> Result<(), NodeFault>
    requires tables { HasTables state.now }
    requires held { held_in state.now.slots before.now.slot ≡ Some holding.now }
    requires may { MayPutSlot D.tells D.view act.now before.now state.now log.old tx.old }
    ensures puts { PutsSlot D.tells D.view act.now before.now state.now (Some holding.now) result log.old log.new }
    ensures steps { Steps D.tells D.view (act_pages before.now.slot) (act_blocks act.now) result
        log.old log.new tx.old tx.new }
{
    let Act::Do { call, .. } = act else {
        return Err(NodeFault::Memory);
    };
    let Call::CloneFileset { .. } = call else {
        return Err(NodeFault::Memory);
    };
    if before.source >= FILESETS_MAX || before.source == before.slot {
        return Err(NodeFault::Memory);
    }
    copy_slot(log, tx, before.source as u32, before.slot as u32)
}

// Puts the anodes of a slot that an act changed.
fn renew_held<D: Disk>(
    log: &mut Log<D>,
    tx: &mut Tx,
    before: &Before,
    act: &Act,
    state: &StoreState,
    holding: &Holding,
) -> Result<(), NodeFault>
    requires tables { HasTables state.now }
    requires held { held_in state.now.slots before.now.slot ≡ Some holding.now }
    requires may { MayPutSlot D.tells D.view act.now before.now state.now log.old tx.old }
    ensures puts { PutsSlot D.tells D.view act.now before.now state.now (Some holding.now) result log.old log.new }
    ensures steps { Steps D.tells D.view (act_pages before.now.slot) (act_blocks act.now) result
        log.old log.new tx.old tx.new }
{
    let (alloc, slot) = (state.slots.alloc(), before.slot as u32);
    let anodes = &holding.fileset.anodes;
    if !renews(act) || anodes.len() > OBJECTS_MAX as usize {
        return Err(NodeFault::Memory);
    }
    put_anodes(alloc, log, tx, slot, &before.anodes, anodes)
}

// Puts the anodes of a slot with a fileset as they are held after an act.
fn put_held<D: Disk>(
    log: &mut Log<D>,
    tx: &mut Tx,
    before: &Before,
    act: &Act,
    state: &StoreState,
    holding: &Holding,
) -> Result<(), NodeFault>
    requires tables { HasTables state.now }
    requires held { held_in state.now.slots before.now.slot ≡ Some holding.now }
    requires may { MayPutSlot D.tells D.view act.now before.now state.now log.old tx.old }
    ensures puts { PutsSlot D.tells D.view act.now before.now state.now (Some holding.now) result log.old log.new }
    ensures steps { Steps D.tells D.view (act_pages before.now.slot) (act_blocks act.now) result
        log.old log.new tx.old tx.new }
{
    match act {
        Act::Give { .. } => give_held(log, tx, before, act, state, holding),
        Act::Do {
            call: Call::CloneFileset { .. },
            ..
        } => copy_held(log, tx, before, act, state, holding),
        _ => renew_held(log, tx, before, act, state, holding),
    }
}

// Puts the anodes of a slot, if anything is held there.
fn put_slot<D: Disk>(
    log: &mut Log<D>,
    tx: &mut Tx,
    before: &Before,
    act: &Act,
    state: &StoreState,
) -> Result<(), NodeFault>
    requires tables { HasTables state.now }
    requires may { MayPutSlot D.tells D.view act.now before.now state.now log.old tx.old }
    ensures puts { PutsSlot D.tells D.view act.now before.now state.now
        (held_in state.now.slots before.now.slot) result log.old log.new }
    ensures steps { Steps D.tells D.view (act_pages before.now.slot) (act_blocks act.now) result
        log.old log.new tx.old tx.new }
{
    match held_at(&state.slots, before.slot) {
        Some(holding) => put_held(log, tx, before, act, state, holding),
        None => Ok(()),
    }
}

// Puts what an act changed of filesets.
fn put_filesets<D: Disk>(
    log: &mut Log<D>,
    tx: &mut Tx,
    before: &Before,
    act: &Act,
    state: &StoreState,
) -> Result<(), NodeFault>
    requires tables { HasTables state.now }
    requires made { (old : Kept) × IsMade old act.now before.now state.now }
    requires may { MayStep D.tells D.view (act_pages before.now.slot) (act_blocks act.now) log.old tx.old }
    requires held { D.tells → (old : Kept) × IsMade old act.now before.now state.now
        × HasNow old (state_of log.old) (D.view (disk_of log.old)).image }
    ensures says { (old : Kept) → IsMade old act.now before.now state.now → (act.now ≡ Boot → ⊥)
        → SaysNext D.tells D.view old state.now result log.old log.new }
    ensures steps { Steps D.tells D.view (act_pages before.now.slot) (act_blocks act.now) result
        log.old log.new tx.old tx.new }
{
    say_server(log, tx, state)?;
    say_held(log, tx, before.other, state)?;
    say_held(log, tx, before.slot, state)?;
    put_slot(log, tx, before, act, state)
}

// Puts what a boot changed.
fn put_boot<D: Disk>(log: &mut Log<D>, tx: &mut Tx, state: &StoreState) -> Result<(), NodeFault>
    requires tables { HasTables state.now }
    requires may { MayStep D.tells D.view beside_anodes 0 log.old tx.old }
    ensures says { (old : Kept) → HasTables old → state.now ≡ booted old
        → SaysNext D.tells D.view old state.now result log.old log.new }
    ensures steps { Steps D.tells D.view beside_anodes 0 result log.old log.new tx.old tx.new }
{
    say_server(log, tx, state)?;
    say_all(log, tx, state)
}

// Puts what an act changed.
fn put_made<D: Disk>(
    log: &mut Log<D>,
    tx: &mut Tx,
    before: &Before,
    act: &Act,
    state: &StoreState,
) -> Result<(), NodeFault>
    requires tables { HasTables state.now }
    requires made { (old : Kept) × IsMade old act.now before.now state.now }
    requires may { MayStep D.tells D.view (act_pages before.now.slot) (act_blocks act.now) log.old tx.old }
    requires held { D.tells → (old : Kept) × IsMade old act.now before.now state.now
        × HasNow old (state_of log.old) (D.view (disk_of log.old)).image }
    ensures says { (old : Kept) → IsMade old act.now before.now state.now
        → SaysNext D.tells D.view old state.now result log.old log.new }
    ensures steps { Steps D.tells D.view (act_pages before.now.slot) (act_blocks act.now) result
        log.old log.new tx.old tx.new }
{
    match act {
        Act::Boot => put_boot(log, tx, state),
        _ => put_filesets(log, tx, before, act, state),
    }
}

/// Puts what an act changed of a store into pages and blocks of the log, in one transaction, which has ended where the
/// answer is Ok: the pages then say the store's record after the act. `before` was kept before the act, and `state` is
/// the store after it.
///
/// It needs `ACT_ENTRIES` free entries of the log, and as many free blocks as `act_blocks` tells. The errors are
/// `Failed`, after which the log is to be mounted again, and `Memory`; after either nothing of the act is put.
pub fn put_act<D: Disk>(
    log: &mut Log<D>,
    before: &Before,
    act: &Act,
    state: &StoreState,
) -> Result<(), NodeFault>
    requires tables { HasTables state.now }
    requires made { (old : Kept) × IsMade old act.now before.now state.now
        × MayAct D.tells D.view (act_blocks act.now) old log.old }
    ensures { DoesAct D.tells D.view (act_blocks act.now) state.now result log.old log.new }
{
    let mut tx = begin(log)?;
    let put = put_made(log, &mut tx, before, act, state);
    finish(log, tx, put)
}
