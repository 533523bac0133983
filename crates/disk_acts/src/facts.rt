// Pages that say parts of a store's record.
ghost use Rattle.std.specs.Prelude.{◌≡◌, ◌≤◌, ◌<◌, ◌+◌, ◌*◌, length};
ghost use Rattle.disk_anode.specs.Room.{is_page};
ghost use Rattle.disk_pages.specs.Puts.{SaysFacts, SaysHeader, SaysNumbers};
ghost use Rattle.store_acts.specs.Sound.{AreRecords};
ghost use Rattle.disk_acts.specs.Records.{HasTables};
ghost use Rattle.store_state.specs.State.{held_at as held_in};
ghost use Rattle.disk_acts.specs.Steps.{
  MayStep,
  Steps,
  SaysPage,
  beside_anodes,
  ServerIsSaid,
  SlotIsSaid,
  HeldIsSaid,
  AllSaid,
  node_result,
};
ghost use Rattle.std.specs.Prelude.{OnOk};

use base_types::{Disk, FILESETS_MAX};
use disk_anode::NodeFault;
use disk_log::{Log, LogFault, Tx};
use disk_pages::{ServerFacts, SlotHeader, put_facts, put_header, put_numbers};
use disk_records::{facts_of, header_of};
use store_state::{Holding, StoreState, held_at};
use tree_calls::Record;

// The page of a slot's header, in front of that of its call numbers. Slots are counted from 0.
pub fn header_page(slot: u32) -> u32
    requires { slot < 16 }
    ensures { result ≡ 2 + 66 * slot }
{
    2 + 66 * slot
}

// The answer of a call of the log, among those of anodes.
fn as_node(put: Result<(), LogFault>) -> Result<(), NodeFault>
    ensures { result ≡ node_result put }
{
    match put {
        Ok(()) => Ok(()),
        Err(fault) => Err(NodeFault::from(fault)),
    }
}

// Puts facts of the server.
pub fn say_facts<D: Disk>(
    log: &mut Log<D>,
    tx: &mut Tx,
    facts: &ServerFacts,
) -> Result<(), NodeFault>
    requires format { facts.now.format ≡ 2 }
    requires may { MayStep D.tells D.view (is_page 0) 0 log.old tx.old }
    ensures says { SaysPage D.tells D.view 0 (SaysFacts facts.now) result log.old log.new }
    ensures steps { Steps D.tells D.view (is_page 0) 0 result log.old log.new tx.old tx.new }
{
    as_node(put_facts(log, tx, facts))
}

// Puts the header of a slot.
pub fn say_header<D: Disk>(
    log: &mut Log<D>,
    tx: &mut Tx,
    slot: u32,
    header: &SlotHeader,
) -> Result<(), NodeFault>
    requires slot { slot < 16 }
    requires may { MayStep D.tells D.view (is_page (2 + 66 * slot)) 0 log.old tx.old }
    ensures says { SaysPage D.tells D.view (2 + 66 * slot) (SaysHeader header.now) result log.old log.new }
    ensures steps { Steps D.tells D.view (is_page (2 + 66 * slot)) 0 result log.old log.new tx.old tx.new }
{
    as_node(put_header(log, tx, header_page(slot), header))
}

// Puts what is kept of hosts' requests on filesets themselves.
pub fn say_own_numbers<D: Disk>(
    log: &mut Log<D>,
    tx: &mut Tx,
    kept: &[Record],
) -> Result<(), NodeFault>
    requires hosts { length kept.now ≤ 17 }
    requires may { MayStep D.tells D.view (is_page 1) 0 log.old tx.old }
    ensures says { SaysPage D.tells D.view 1 (SaysNumbers kept.now) result log.old log.new }
    ensures steps { Steps D.tells D.view (is_page 1) 0 result log.old log.new tx.old tx.new }
{
    as_node(put_numbers(log, tx, 1, kept))
}

// Puts what is kept of hosts' requests on the fileset in a slot.
pub fn say_numbers<D: Disk>(
    log: &mut Log<D>,
    tx: &mut Tx,
    slot: u32,
    kept: &[Record],
) -> Result<(), NodeFault>
    requires slot { slot < 16 }
    requires hosts { length kept.now ≤ 17 }
    requires may { MayStep D.tells D.view (is_page (3 + 66 * slot)) 0 log.old tx.old }
    ensures says { SaysPage D.tells D.view (3 + 66 * slot) (SaysNumbers kept.now) result log.old log.new }
    ensures steps { Steps D.tells D.view (is_page (3 + 66 * slot)) 0 result log.old log.new tx.old tx.new }
{
    as_node(put_numbers(log, tx, header_page(slot) + 1, kept))
}

// Puts the pages of the server.
pub fn say_server<D: Disk>(
    log: &mut Log<D>,
    tx: &mut Tx,
    state: &StoreState,
) -> Result<(), NodeFault>
    requires tables { HasTables state.now }
    requires may { MayStep D.tells D.view beside_anodes 0 log.old tx.old }
    ensures says { D.tells → OnOk result (ServerIsSaid D.view state.now log.old log.new) }
    ensures steps { Steps D.tells D.view beside_anodes 0 result log.old log.new tx.old tx.new }
{
    let facts = facts_of(state);
    say_facts(log, tx, &facts)?;
    say_own_numbers(log, tx, state.records.as_slice())
}

// Puts the header and the numbers of a slot.
pub fn say_slot<D: Disk>(
    log: &mut Log<D>,
    tx: &mut Tx,
    slot: u32,
    holding: &Holding,
) -> Result<(), NodeFault>
    requires slot { slot < 16 }
    requires records { AreRecords holding.now.records }
    requires may { MayStep D.tells D.view beside_anodes 0 log.old tx.old }
    ensures says { D.tells → OnOk result (SlotIsSaid D.view slot holding.now log.old log.new) }
    ensures steps { Steps D.tells D.view beside_anodes 0 result log.old log.new tx.old tx.new }
{
    let Ok(header) = header_of(holding) else {
        return Err(NodeFault::Memory);
    };
    say_header(log, tx, slot, &header)?;
    say_numbers(log, tx, slot, holding.records.as_slice())
}

// Puts those of what is held in a slot, if anything is.
pub fn say_held<D: Disk>(
    log: &mut Log<D>,
    tx: &mut Tx,
    slot: usize,
    state: &StoreState,
) -> Result<(), NodeFault>
    requires tables { HasTables state.now }
    requires may { MayStep D.tells D.view beside_anodes 0 log.old tx.old }
    ensures says { D.tells → OnOk result (HeldIsSaid D.view slot (held_in state.now.slots slot) log.old log.new) }
    ensures steps { Steps D.tells D.view beside_anodes 0 result log.old log.new tx.old tx.new }
{
    match held_at(&state.slots, slot) {
        Some(holding) => say_slot(log, tx, slot as u32, holding),
        None => Ok(()),
    }
}

// Puts those of all slots.
pub fn say_all<D: Disk>(log: &mut Log<D>, tx: &mut Tx, state: &StoreState) -> Result<(), NodeFault>
    requires tables { HasTables state.now }
    requires may { MayStep D.tells D.view beside_anodes 0 log.old tx.old }
    ensures says { D.tells → OnOk result (AllSaid D.view 16 state.now log.old log.new) }
    ensures steps { Steps D.tells D.view beside_anodes 0 result log.old log.new tx.old tx.new }
{
    for slot in 0..FILESETS_MAX {
        say_held(log, tx, slot, state)?;
    }
    Ok(())
}
