// The bytes of access lists.
ghost use Rattle.std.specs.Prelude.{◌≡◌, ◌≤◌, ◌<◌, ◌+◌, ◌*◌, ◌++◌, ◌∷◌, ◌↔◌, [], ℕ, List, IfOk, OnOk, IsTrue};
ghost use Rattle.std.specs.Prelude.{length, vec_len};
ghost use Rattle.std.proofs.Common.{get_or};
ghost use Rattle.base_types.specs.Name.{is_name};
ghost use Rattle.base_types.specs.declared.access.AccessEntry.{AccessEntry as Entry};
ghost use Rattle.base_types.specs.declared.access.Who.{Who as Whom};
ghost use Rattle.disk_lists.specs.Lists.{who_bytes, entry_bytes, list_bytes, FitsWho, FitsEntry, EachFits, HoldsList};
ghost use Rattle.disk_lists.specs.Lists.{NameStands, WhoStands, EntryStands, IsReadAs};

use base_types::{
    AccessEntry, AccessList, Items, ListRefused, Name, NameRefused, NoMemory, Rights, Who,
};
use disk_anode::BLOCK;
use std::alloc::Global;

// Bytes of a name at most, entries of a list, and the bits of all rights.
const NAME_MAX: usize = 60;

const ENTRIES_MAX: u8 = 16;

const RIGHTS_MAX: u8 = 63;

// Appends a name behind its length.
fn push_name(bytes: &mut Vec<u8>, kind: u8, name: &Name) -> Result<(), NoMemory>
    ensures items { OnOk result (bytes.new.items ≡ bytes.old.items ++ kind ∷ length name.now ∷ name.now) }
    ensures few { OnOk result (vec_len bytes.new ≤ vec_len bytes.old + 62) }
    ensures fits { IsTrue (is_name name.now) }
{
    let name = name.as_bytes();
    bytes.extend_from_slice(&[kind, name.len() as u8])?;
    bytes.extend_from_slice(name)?;
    Ok(())
}

// Appends one byte.
fn push_kind(bytes: &mut Vec<u8>, kind: u8) -> Result<(), NoMemory>
    ensures items { OnOk result (bytes.new.items ≡ bytes.old.items ++ kind ∷ []) }
    ensures few { OnOk result (vec_len bytes.new ≤ vec_len bytes.old + 62) }
{
    bytes.push(kind)?;
    Ok(())
}

// Appends whom an entry speaks of.
fn push_who(bytes: &mut Vec<u8>, who: &Who) -> Result<(), NoMemory>
    ensures items { OnOk result (bytes.new.items ≡ bytes.old.items ++ who_bytes who.now) }
    ensures few { OnOk result (vec_len bytes.new ≤ vec_len bytes.old + 62) }
    ensures fits { FitsWho who.now }
{
    match who {
        Who::User(name) => push_name(bytes, 2, name),
        Who::Group(name) => push_name(bytes, 4, name),
        Who::UserObj => push_kind(bytes, 1),
        Who::GroupObj => push_kind(bytes, 3),
        Who::OtherObj => push_kind(bytes, 5),
        Who::MaskObj => push_kind(bytes, 6),
    }
}

// Appends an entry.
fn push_entry(bytes: &mut Vec<u8>, entry: &AccessEntry) -> Result<(), NoMemory>
    ensures items { OnOk result (bytes.new.items ≡ bytes.old.items ++ entry_bytes entry.now) }
    ensures few { OnOk result (vec_len bytes.new ≤ vec_len bytes.old + 63) }
    ensures fits { OnOk result (FitsEntry entry.now) }
{
    push_who(bytes, &entry.who)?;
    let rights = entry.rights.bits();
    // it never is above, which the type of rights tells no other crate
    if RIGHTS_MAX < rights {
        return Err(NoMemory);
    }
    bytes.push(rights)?;
    Ok(())
}

// The bytes of a list.
pub fn list_in_bytes(alloc: Global, entries: &[AccessEntry]) -> Result<Vec<u8>, NoMemory>
    requires { length entries.now ≤ 16 }
    ensures items { IfOk result (λ bytes. bytes.items ≡ list_bytes entries.now) }
    ensures few { IfOk result (λ bytes. vec_len bytes ≤ 1024) }
    ensures fits { OnOk result (EachFits entries.now) }
{
    let mut bytes = Vec::new(alloc);
    bytes.push(entries.len() as u8)?;
    for entry in entries {
        push_entry(&mut bytes, entry)?;
    }
    Ok(bytes)
}

// The name at a place, behind its length.
fn name_at(alloc: Global, bytes: &[u8; BLOCK], at: usize) -> Result<Name, ListRefused>
    requires { at + 61 ≤ 1024 }
    ensures ok { IfOk result (λ made. NameStands bytes.now at made) }
    ensures read { (name : List ℕ) → NameStands bytes.now at name → IsReadAs name result }
{
    let size = bytes[at] as usize;
    if NAME_MAX < size {
        return Err(ListRefused::BadList);
    }
    match Name::new(alloc, &bytes[at + 1..at + 1 + size]) {
        Ok(name) => Ok(name),
        Err(NameRefused::BadName) => Err(ListRefused::BadList),
        Err(NameRefused::Memory) => Err(ListRefused::Memory),
    }
}

// Whom the entry at a place speaks of.
fn who_at(alloc: Global, bytes: &[u8; BLOCK], at: usize) -> Result<Who, ListRefused>
    requires { at + 62 ≤ 1024 }
    ensures ok { IfOk result (λ made. WhoStands bytes.now at made) }
    ensures read { (who : Whom) → WhoStands bytes.now at who → IsReadAs who result }
{
    match bytes[at] {
        1 => Ok(Who::UserObj),
        2 => Ok(Who::User(name_at(alloc, bytes, at + 1)?)),
        3 => Ok(Who::GroupObj),
        4 => Ok(Who::Group(name_at(alloc, bytes, at + 1)?)),
        5 => Ok(Who::OtherObj),
        6 => Ok(Who::MaskObj),
        _ => Err(ListRefused::BadList),
    }
}

// How many bytes tell whom an entry speaks of.
fn who_size(who: &Who) -> usize
    ensures size { result ≡ length (who_bytes who.now) }
    ensures few { result ≤ 62 }
{
    match who {
        Who::User(name) | Who::Group(name) => name.as_bytes().len() + 2,
        Who::UserObj | Who::GroupObj | Who::OtherObj | Who::MaskObj => 1,
    }
}

// The entry at a place.
fn entry_at(alloc: Global, bytes: &[u8; BLOCK], at: usize) -> Result<AccessEntry, ListRefused>
    requires { at + 63 ≤ 1024 }
    ensures ok { IfOk result (λ made. EntryStands bytes.now at made) }
    ensures read { (entry : Entry) → EntryStands bytes.now at entry → IsReadAs entry result }
{
    let who = who_at(alloc, bytes, at)?;
    let rights = bytes[at + who_size(&who)];
    if RIGHTS_MAX < rights {
        return Err(ListRefused::BadList);
    }
    let rights = Rights::from_bits(rights);
    Ok(AccessEntry { who, rights })
}

// Whether a block is zero from a place on.
fn is_zero_from(bytes: &[u8; BLOCK], from: usize) -> bool
    ensures { IsTrue result ↔ ((k : ℕ) → from ≤ k → k < 1024 → get_or bytes.now k 0 ≡ 0) }
{
    for k in from..BLOCK {
        if bytes[k] != 0 {
            return false;
        }
    }
    true
}

// The list in a block.
pub fn list_from(alloc: Global, bytes: &[u8; BLOCK]) -> Result<AccessList, ListRefused>
    ensures ok { IfOk result (λ list. HoldsList list (λ k. get_or bytes.now k 0)) }
    ensures read { (entries : List Entry) → HoldsList entries (λ k. get_or bytes.now k 0) → IsReadAs entries result }
{
    let count = bytes[0];
    if ENTRIES_MAX < count {
        return Err(ListRefused::BadList);
    }
    let mut entries = Items::new(alloc);
    let mut at = 1;
    for i in 0..count {
        let entry = entry_at(alloc, bytes, at)?;
        at += who_size(&entry.who) + 1;
        match entries.push(entry) {
            Ok(()) => {}
            Err(NoMemory) => return Err(ListRefused::Memory),
        }
    }
    if !is_zero_from(bytes, at) {
        return Err(ListRefused::BadList);
    }
    AccessList::new(alloc, entries.as_slice())
}
