// The bytes of entries.
ghost use Rattle.std.specs.Prelude.{
  ◌≡◌,
  ◌≤◌,
  ◌<◌,
  ◌+◌,
  ◌-◌,
  ◌*◌,
  ◌∷◌,
  ◌++◌,
  ℕ,
  List,
  IfOk,
  IfSome,
  OnOk,
  length,
  take,
  drop,
  true,
  false,
};
ghost use Rattle.std.specs.Int.{w32, from_be_bytes};
ghost use Rattle.tree_calls.specs.declared.part.DirEntry.{DirEntry as Entry};
ghost use Rattle.disk_lists.specs.Entries.{entry_bytes, bytes_of, numbers_of, name_in};
ghost use Rattle.disk_lists.specs.Entries.{IsEntry, EachFits, AreEntries, IsNamedAt, IsPlace};
ghost use Rattle.base_types.specs.Name.{is_before, same_name};

use base_types::{Items, Name, NoMemory};
use std::alloc::{AllocError, Global};
use tree_calls::DirEntry;

// Bytes of an entry, and of all entries of a directory at most.
pub const ENTRY: usize = 72;

pub const ENTRIES_MAX: usize = 64;

pub const BYTES_MAX: usize = ENTRIES_MAX * ENTRY;

const NAME_MAX: usize = 60;

const ANODE_AT: usize = 64;

const UNIQUE_AT: usize = 68;

// Appends an entry.
fn push_entry(bytes: &mut Vec<u8>, name: &Name, anode: u32, unique: u32) -> Result<(), AllocError>
    ensures items { OnOk result (bytes.new.items
        ≡ bytes.old.items ++ entry_bytes (record { name = name.now; anode = anode; unique = unique })) }
    ensures fits { OnOk result (IsEntry (record { name = name.now; anode = anode; unique = unique })) }
{
    let name = name.as_bytes();
    let zeros: &[u8] = &[0; 63];
    bytes.push(name.len() as u8)?;
    bytes.extend_from_slice(name)?;
    bytes.extend_from_slice(&zeros[name.len()..])?;
    bytes.extend_from_slice(&anode.to_be_bytes())?;
    bytes.extend_from_slice(&unique.to_be_bytes())?;
    Ok(())
}

// An entry, and the bytes behind it.
pub fn entry_before(
    alloc: Global,
    name: &Name,
    anode: u32,
    unique: u32,
    rest: &[u8],
) -> Result<Vec<u8>, AllocError>
    ensures { IfOk result
        (λ bytes. bytes.items ≡ entry_bytes (record { name = name.now; anode = anode; unique = unique }) ++ rest.now) }
{
    let mut bytes = Vec::new(alloc);
    push_entry(&mut bytes, name, anode, unique)?;
    bytes.extend_from_slice(rest)?;
    Ok(bytes)
}

// The bytes of entries.
pub fn bytes_of(alloc: Global, entries: &[DirEntry]) -> Result<Vec<u8>, AllocError>
    ensures items { IfOk result (λ bytes. bytes.items ≡ bytes_of entries.now) }
    ensures fits { OnOk result (EachFits entries.now) }
{
    let mut bytes = Vec::new(alloc);
    for entry in entries {
        push_entry(&mut bytes, &entry.name, entry.anode, entry.unique)?;
    }
    Ok(bytes)
}

// The name of entry i.
fn name_at(bytes: &[u8], i: usize) -> &[u8]
    requires { 72 * i + 72 ≤ length bytes.now }
    ensures { (entries : List Entry) (entry : Entry) (rest : List Entry)
        → AreEntries entries bytes.now → drop i entries ≡ entry ∷ rest → result.now ≡ entry.name }
{
    let at = ENTRY * i;
    let size = (bytes[at] as usize).min(NAME_MAX);
    &bytes[at + 1..at + 1 + size]
}

// The number in four bytes, the highest first.
fn number_at(bytes: &[u8], at: usize) -> u32
    requires { at + 4 ≤ length bytes.now }
    ensures { result ≡ from_be_bytes w32 (take 4 (drop at bytes.now)) }
{
    let mut number = [0; 4];
    number.copy_from_slice(&bytes[at..at + 4]);
    u32::from_be_bytes(number)
}

// The numbers of entry i: its anode, and the unique number.
fn numbers_at(bytes: &[u8], i: usize) -> (u32, u32)
    requires { 72 * i + 72 ≤ length bytes.now }
    ensures { (entries : List Entry) (entry : Entry) (rest : List Entry)
        → AreEntries entries bytes.now → drop i entries ≡ entry ∷ rest → result ≡ (entry.anode, entry.unique) }
{
    let at = ENTRY * i;
    (
        number_at(bytes, at + ANODE_AT),
        number_at(bytes, at + UNIQUE_AT),
    )
}

// Entry i. It lacks memory also where the bytes are no name.
fn entry_at(alloc: Global, bytes: &[u8], i: usize) -> Result<DirEntry, NoMemory>
    requires { 72 * i + 72 ≤ length bytes.now }
    ensures { (entries : List Entry) (entry : Entry) (rest : List Entry)
        → AreEntries entries bytes.now → drop i entries ≡ entry ∷ rest → IfOk result (λ made. made ≡ entry) }
{
    let (anode, unique) = numbers_at(bytes, i);
    match Name::new(alloc, name_at(bytes, i)) {
        Ok(name) => Ok(DirEntry {
            name,
            anode,
            unique,
        }),
        Err(_) => Err(NoMemory),
    }
}

// Whether a name comes before that of entry i.
fn is_before_entry(bytes: &[u8], i: usize, name: &[u8]) -> bool
    requires { 72 * i + 72 ≤ length bytes.now }
    ensures { (entries : List Entry) → AreEntries entries bytes.now → result ≡ is_before name.now (name_in entries i) }
{
    name.cmp(&name_at(bytes, i)).is_lt()
}

// Whether a name is that of entry i.
fn is_name_of_entry(bytes: &[u8], i: usize, name: &[u8]) -> bool
    requires { 72 * i + 72 ≤ length bytes.now }
    ensures { (entries : List Entry) → AreEntries entries bytes.now → result ≡ same_name (name_in entries i) name.now }
{
    name_at(bytes, i) == name
}

// Where a name goes among entries: before the first with a greater name.
pub fn place_of(bytes: &[u8], name: &[u8]) -> usize
    ensures within { 72 * result ≤ length bytes.now }
    ensures place { (entries : List Entry) → AreEntries entries bytes.now → IsPlace entries name.now result }
{
    let mut low = 0;
    let mut high = bytes.len() / ENTRY;
    while low < high {
        let middle = (low + high) / 2;
        if is_before_entry(bytes, middle, name) {
            high = middle;
        } else {
            low = middle + 1;
        }
    }
    low
}

// The place of the entry of a name, where there is one.
pub fn place_named(bytes: &[u8], name: &[u8]) -> Option<usize>
    ensures within { IfSome result (λ i. 72 * i + 72 ≤ length bytes.now) }
    ensures entry { (entries : List Entry) → AreEntries entries bytes.now → IsNamedAt entries name.now result }
{
    let place = place_of(bytes, name);
    if place == 0 {
        return None;
    }
    if is_name_of_entry(bytes, place - 1, name) {
        Some(place - 1)
    } else {
        None
    }
}

// The numbers of the entry of a name, where there is one.
pub fn numbers_named(bytes: &[u8], name: &[u8]) -> Option<(u32, u32)>
    ensures { (entries : List Entry) → AreEntries entries bytes.now → result ≡ numbers_of entries name.now }
{
    match place_named(bytes, name) {
        Some(i) => Some(numbers_at(bytes, i)),
        None => None,
    }
}

// All entries, in their order.
pub fn entries_in(alloc: Global, bytes: &[u8]) -> Result<Items<DirEntry>, NoMemory>
    ensures { (entries : List Entry) → AreEntries entries bytes.now → IfOk result (λ made. made ≡ entries) }
{
    let mut made = Items::new(alloc);
    for i in 0..bytes.len() / ENTRY {
        made.push(entry_at(alloc, bytes, i)?)?;
    }
    Ok(made)
}
