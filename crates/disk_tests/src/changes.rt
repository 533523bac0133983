// Changes of anodes, directories and access lists, each in a transaction of its own.
ghost use Rattle.std.specs.Prelude.{◌≡◌, ◌<◌, ◌≤◌, OnOk};
ghost use Rattle.disk_anode.specs.Room.{MayPutAll, with_counts};
ghost use Rattle.disk_log.specs.Log.{state_of, slot_of};
ghost use Rattle.disk_tests.specs.Ready.{IsReady, IsAlone, MayAct};

use crate::acts::Change;
use crate::lists::list_of;
use base_types::{Disk, Name};
use disk_anode::{
    BLOCK, NodeFault, clone_of, create, cut, remove, write_at, write_end, write_list,
};
use disk_layout::{PAGE, put_u32};
use disk_lists::{add, drop_name, save};
use disk_log::{Log, Tx};
use disk_space::{SpaceFault, count_of, give, share, take};
use std::alloc::Global;

// What a change answers that finds no free block, and one that may not be made.
const NONE: u32 = 99;

const REFUSED: u32 = 9_999;

// A page by hand: a file of so many bytes, whose indirect block is the first block.
fn page_by_hand(length: u32) -> [u8; PAGE] {
    let mut page = [0; PAGE];
    page[0] = 2;
    put_u32(&mut page, 4, 1);
    put_u32(&mut page, 8, length);
    put_u32(&mut page, 72, 1);
    page
}

// Writes so many blocks of one byte, each in a call of its own.
fn filled<D: Disk>(
    log: &mut Log<D>,
    tx: &mut Tx,
    page: u32,
    blocks: u32,
    byte: u8,
) -> Result<(), NodeFault>
    requires act { MayAct D.tells D.view log.old tx.old page }
    requires page { page < 1058 }
    requires blocks { blocks ≤ 64 }
    ensures { IsAlone D.tells D.view log.new tx.new }
{
    for i in 0..blocks {
        write_at(log, tx, page, 1_024 * i, &[byte; BLOCK])?;
    }
    Ok(())
}

// Changes the bytes of an anode.
fn bytes_changed<D: Disk>(
    log: &mut Log<D>,
    tx: &mut Tx,
    page: u32,
    change: Change,
) -> Result<u32, NodeFault>
    requires act { MayAct D.tells D.view log.old tx.old page }
    requires page { page < 1058 }
    ensures { IsAlone D.tells D.view log.new tx.new }
{
    match change {
        Change::Write(from, piece) if from < 65_000 && piece.len() < 500 => {
            write_at(log, tx, page, from, piece.as_bytes())?;
        }
        Change::End(from, piece) if from < 65_000 && piece.len() < 500 => {
            write_end(log, tx, page, from, piece.as_bytes())?;
        }
        Change::Cut(length) if length <= 65_536 => cut(log, tx, page, length)?,
        Change::Fill(blocks, byte) if blocks <= 64 => filled(log, tx, page, blocks, byte)?,
        Change::List(which, byte) if which < 3 => write_list(log, tx, page, which, &[byte; BLOCK])?,
        _ => return Ok(REFUSED),
    }
    Ok(0)
}

// Makes an anode, in place of another one, or none.
fn anode_changed<D: Disk>(
    log: &mut Log<D>,
    tx: &mut Tx,
    page: u32,
    change: Change,
    owner: &Name,
) -> Result<u32, NodeFault>
    requires act { MayAct D.tells D.view log.old tx.old page }
    requires page { page < 1058 }
    ensures { IsAlone D.tells D.view log.new tx.new }
{
    match change {
        Change::Create(is_dir) => create(log, tx, page, is_dir, owner, owner),
        Change::Copy(from) if from < 1_058 => {
            clone_of(log, tx, from, page)?;
            Ok(0)
        }
        Change::Remove => {
            remove(log, tx, page)?;
            Ok(0)
        }
        Change::Hand(length) => {
            log.put(tx, page, &page_by_hand(length))?;
            Ok(0)
        }
        _ => Ok(REFUSED),
    }
}

// Changes the count of a block, and answers the block.
fn count_changed<D: Disk>(
    log: &mut Log<D>,
    tx: &mut Tx,
    page: u32,
    change: Change,
) -> Result<u32, SpaceFault>
    requires act { MayAct D.tells D.view log.old tx.old page }
    ensures { IsAlone D.tells D.view log.new tx.new }
{
    match change {
        Change::Take => match take(log, tx) {
            Err(SpaceFault::Full) => Ok(NONE),
            answer => answer,
        },
        Change::Share(block) if block < log.blocks() => {
            share(log, tx, block)?;
            Ok(block)
        }
        Change::Give(block) if block < log.blocks() => {
            give(log, tx, block)?;
            Ok(block)
        }
        _ => Ok(REFUSED),
    }
}

// What was made, where there was memory for it.
pub fn or_memory<T, E: Drop>(made: Result<T, E>) -> Result<T, NodeFault> {
    match made {
        Ok(value) => Ok(value),
        Err(_) => Err(NodeFault::Memory),
    }
}

pub fn named(alloc: Global, name: &str) -> Result<Name, NodeFault> {
    or_memory(Name::new(alloc, name.as_bytes()))
}

// Adds a name to a directory.
fn name_added<D: Disk>(
    alloc: Global,
    log: &mut Log<D>,
    tx: &mut Tx,
    page: u32,
    name: &str,
    numbers: (u32, u32),
) -> Result<(), NodeFault>
    requires act { MayAct D.tells D.view log.old tx.old page }
    requires page { page < 1058 }
    ensures { IsAlone D.tells D.view log.new tx.new }
{
    let name = named(alloc, name)?;
    let added = add(alloc, log, tx, page, &name, numbers.0, numbers.1);
    drop(name);
    added
}

// Drops one.
fn name_dropped<D: Disk>(
    alloc: Global,
    log: &mut Log<D>,
    tx: &mut Tx,
    page: u32,
    name: &str,
) -> Result<(), NodeFault>
    requires act { MayAct D.tells D.view log.old tx.old page }
    requires page { page < 1058 }
    ensures { IsAlone D.tells D.view log.new tx.new }
{
    let name = named(alloc, name)?;
    let dropped = drop_name(log, tx, page, &name);
    drop(name);
    dropped
}

// Saves an access list.
fn list_saved<D: Disk>(
    alloc: Global,
    log: &mut Log<D>,
    tx: &mut Tx,
    page: u32,
    which: u8,
    words: &str,
) -> Result<(), NodeFault>
    requires act { MayAct D.tells D.view log.old tx.old page }
    requires page { page < 1058 }
    requires which { which < 3 }
    ensures { IsAlone D.tells D.view log.new tx.new }
{
    let list = or_memory(list_of(alloc, words))?;
    let saved = save(alloc, log, tx, page, which, &list);
    drop(list);
    saved
}

// Changes a directory or an access list.
fn names_changed<D: Disk>(
    alloc: Global,
    log: &mut Log<D>,
    tx: &mut Tx,
    page: u32,
    change: Change,
) -> Result<u32, NodeFault>
    requires act { MayAct D.tells D.view log.old tx.old page }
    requires page { page < 1058 }
    ensures { IsAlone D.tells D.view log.new tx.new }
{
    match change {
        Change::Add(name, anode, unique) => {
            name_added(alloc, log, tx, page, name, (anode, unique))?;
        }
        Change::Drop(name) => name_dropped(alloc, log, tx, page, name)?,
        Change::Save(which, words) if which < 3 => list_saved(alloc, log, tx, page, which, words)?,
        _ => return Ok(REFUSED),
    }
    Ok(0)
}

// Makes an anode of ann's.
fn anode_made<D: Disk>(
    alloc: Global,
    log: &mut Log<D>,
    tx: &mut Tx,
    page: u32,
    change: Change,
) -> Result<u32, NodeFault>
    requires act { MayAct D.tells D.view log.old tx.old page }
    requires page { page < 1058 }
    ensures { IsAlone D.tells D.view log.new tx.new }
{
    let owner = named(alloc, "ann")?;
    let made = anode_changed(log, tx, page, change, &owner);
    drop(owner);
    made
}

fn changed<D: Disk>(
    alloc: Global,
    log: &mut Log<D>,
    tx: &mut Tx,
    page: u32,
    change: Change,
) -> Result<u32, NodeFault>
    requires act { MayAct D.tells D.view log.old tx.old page }
    requires page { page < 1058 }
    ensures { IsAlone D.tells D.view log.new tx.new }
{
    match change {
        Change::Take | Change::Share(_) | Change::Give(_) => Ok(count_changed(
            log, tx, page, change,
        )?),
        Change::Add(_, _, _) | Change::Drop(_) | Change::Save(_, _) => names_changed(
            alloc, log, tx, page, change,
        ),
        Change::Create(_) | Change::Copy(_) | Change::Remove | Change::Hand(_) => anode_made(
            alloc, log, tx, page, change,
        ),
        _ => bytes_changed(log, tx, page, change),
    }
}

// Makes a change in a transaction of its own, where one page has all counts, and forces it where that is wanted.
pub fn acted<D: Disk>(
    alloc: Global,
    log: &mut Log<D>,
    page: u32,
    change: Change,
    is_forced: bool,
) -> Result<u32, NodeFault>
    requires { IsReady D.tells D.view log.old }
    ensures { OnOk result (IsReady D.tells D.view log.new) }
{
    if 256 < log.blocks() || 1_058 <= page {
        return Ok(REFUSED);
    }
    let mut tx = log.begin(3)?;
    let answer = changed(alloc, log, &mut tx, page, change);
    log.end(tx);
    if is_forced {
        log.force()?;
    }
    answer
}
