// The anodes of a slot, as an act leaves them.
ghost use Rattle.std.specs.Prelude.{◌≡◌, ◌≤◌, ◌<◌, ◌+◌, ◌-◌, ◌*◌, true, IsTrue, IfSome, ⊤, length, slice_get};
ghost use Rattle.tree_objects.specs.declared.content.Anode.{Anode as Kept};
ghost use Rattle.disk_objects.specs.Objects.{with_anode};
ghost use Rattle.disk_fileset.specs.Slots.{is_whole, MayChange, TurnsInto, ChangesSlot};
ghost use Rattle.disk_acts.specs.Anodes.{IsAt, AreAt, slot_replaced, renewed};
ghost use Rattle.disk_acts.specs.Seen.{seen_content, seen_object, seen_anode};

use crate::seen::{SeenAnode, SeenContent, SeenObject, is_settled};
use base_types::{AccessEntry, AccessList, Disk, Items, Who};
use disk_anode::NodeFault;
use disk_fileset::{put_anode, vacate};
use disk_log::{Log, Tx};
use std::alloc::Global;
use store_acts::told_object;
use tree_calls::DirEntry;
use tree_objects::{Anode, Content, Object};

// Anodes of a slot.
const ANODES: usize = 64;

fn same_entry(was: &DirEntry, is: &DirEntry) -> bool
    ensures { result ≡ true → was.now ≡ is.now }
{
    was.anode == is.anode && was.unique == is.unique && was.name == is.name
}

fn same_entries(was: &[DirEntry], is: &[DirEntry]) -> bool
    ensures { result ≡ true → was.now ≡ is.now }
{
    if was.len() != is.len() {
        return false;
    }
    for i in 0..was.len() {
        if !same_entry(&was[i], &is[i]) {
            return false;
        }
    }
    true
}

fn same_who(was: &Who, is: &Who) -> bool
    ensures { result ≡ true → was.now ≡ is.now }
{
    match (was, is) {
        (Who::UserObj, Who::UserObj)
        | (Who::GroupObj, Who::GroupObj)
        | (Who::OtherObj, Who::OtherObj)
        | (Who::MaskObj, Who::MaskObj) => true,
        (Who::User(was), Who::User(is)) | (Who::Group(was), Who::Group(is)) => was == is,
        _ => false,
    }
}

fn same_access(was: &AccessEntry, is: &AccessEntry) -> bool
    ensures { result ≡ true → was.now ≡ is.now }
{
    was.rights == is.rights && same_who(&was.who, &is.who)
}

fn same_list(was: &AccessList, is: &AccessList) -> bool
    ensures { result ≡ true → was.now ≡ is.now }
{
    let (was, is) = (was.as_slice(), is.as_slice());
    if was.len() != is.len() {
        return false;
    }
    for i in 0..was.len() {
        if !same_access(&was[i], &is[i]) {
            return false;
        }
    }
    true
}

fn same_lists(was: &[AccessList], is: &[AccessList]) -> bool
    ensures { result ≡ true → was.now ≡ is.now }
{
    if was.len() != is.len() {
        return false;
    }
    for i in 0..was.len() {
        if !same_list(&was[i], &is[i]) {
            return false;
        }
    }
    true
}

fn same_content(was: &SeenContent, is: &Content) -> bool
    ensures { result ≡ true → was.now ≡ seen_content is.now }
{
    match (was, is) {
        (
            SeenContent::Dir { entries, lists },
            Content::Dir {
                entries: new_entries,
                lists: new_lists,
            },
        ) => {
            same_entries(entries.as_slice(), new_entries.as_slice())
                && same_lists(lists.as_slice(), new_lists.as_slice())
        }
        (
            SeenContent::File {
                list,
                bytes,
                settled,
            },
            Content::File {
                list: new_list,
                kept,
                ..
            },
        ) => *bytes == kept.len() && *settled == is_settled(is) && same_list(list, new_list),
        _ => false,
    }
}

fn same_object(was: &SeenObject, is: &Object) -> bool
    ensures { result ≡ true → was.now ≡ seen_object is.now }
{
    was.owner == is.owner && was.group == is.group && same_content(&was.content, &is.content)
}

// Whether an anode is seen as one was.
fn same_anode(was: &SeenAnode, is: &Anode) -> bool
    ensures { result ≡ true → was.now ≡ seen_anode is.now }
{
    if was.unique != is.unique {
        return false;
    }
    match (&was.object, &is.object) {
        (Some(was), Some(is)) => same_object(was, is),
        (None, None) => true,
        _ => false,
    }
}

// Whether an anode can be kept as it is, counted from 0.
fn is_whole(anodes: &Items<Anode>, at: usize) -> bool
    requires { at < 64 }
    ensures { result ≡ true → IfSome (slice_get anodes.now at)
        (λ anode. IfSome anode.object (λ object. is_whole object.content ≡ true)) }
{
    match anodes.at(at) {
        Some(
            Anode {
                object: Some(object),
                ..
            },
        ) => is_settled(&object.content) && told_object(anodes, at as u32 + 1).is_some(),
        _ => true,
    }
}

// Puts an anode in place of another one.
fn replace<D: Disk>(
    alloc: Global,
    log: &mut Log<D>,
    tx: &mut Tx,
    slot: u32,
    anode: u32,
    kept: &Anode,
) -> Result<(), NodeFault>
    requires slot { slot < 16 }
    requires first { 1 ≤ anode }
    requires last { anode ≤ 64 }
    requires whole { IfSome kept.now.object (λ object. is_whole object.content ≡ true) }
    requires may { MayChange D.tells D.view (λ slots. ⊤) slot 72 log.old tx.old }
    ensures kept { TurnsInto D.tells D.view (λ slots. ⊤) (with_anode slot anode (λ was. kept.now)) result
        log.old log.new }
    ensures changes { ChangesSlot D.tells D.view slot 72 result log.old log.new tx.old tx.new }
{
    vacate(log, tx, slot, anode)?;
    put_anode(alloc, log, tx, slot, anode, kept)
}

// Puts an anode of a slot, counted from 0, where it isn't seen as before. There is room for so many with objects.
fn renew<D: Disk>(
    alloc: Global,
    log: &mut Log<D>,
    tx: &mut Tx,
    slot: u32,
    at: usize,
    before: &Items<SeenAnode>,
    after: &Items<Anode>,
    room: &mut u32,
) -> Result<(), NodeFault>
    requires slot { slot < 16 }
    requires at { at < 64 }
    requires may { MayChange D.tells D.view (IsAt slot at before.now after.now) slot (72 * room.old) log.old tx.old }
    ensures room { room.new ≤ room.old }
    ensures kept { TurnsInto D.tells D.view (IsAt slot at before.now after.now)
        (with_anode slot (at + 1) (renewed (slice_get after.now at))) result log.old log.new }
    ensures changes { ChangesSlot D.tells D.view slot (72 * (room.old - room.new)) result
        log.old log.new tx.old tx.new }
{
    let anode = at as u32 + 1;
    match (before.at(at), after.at(at)) {
        (None, None) => Ok(()),
        (Some(was), Some(is)) if same_anode(was, is) => Ok(()),
        (_, Some(is)) => {
            if *room == 0 || !is_whole(after, at) {
                return Err(NodeFault::Memory);
            }
            *room -= 1;
            replace(alloc, log, tx, slot, anode, is)
        }
        (_, None) => vacate(log, tx, slot, anode),
    }
}

// Puts the anodes of a slot that aren't seen as before: the first are these, and the others are freed. There is room
// for two with objects, as no act changes more.
pub fn put_anodes<D: Disk>(
    alloc: Global,
    log: &mut Log<D>,
    tx: &mut Tx,
    slot: u32,
    before: &Items<SeenAnode>,
    after: &Items<Anode>,
) -> Result<(), NodeFault>
    requires slot { slot < 16 }
    requires may { MayChange D.tells D.view (AreAt slot before.now after.now) slot 144 log.old tx.old }
    ensures kept { TurnsInto D.tells D.view (AreAt slot before.now after.now) (slot_replaced slot after.now) result
        log.old log.new }
    ensures changes { ChangesSlot D.tells D.view slot 144 result log.old log.new tx.old tx.new }
{
    let mut room = 2;
    for at in 0..ANODES {
        renew(alloc, log, tx, slot, at, before, after, &mut room)?;
    }
    Ok(())
}
