// Whether a fileset is a tree.
ghost use Rattle.std.specs.Prelude.{
  ◌≡◌,
  ◌≤◌,
  ◌↔◌,
  ℕ,
  nat_eq,
  true,
  false,
  IsTrue,
  IfOk,
  IfSome,
  IfNone,
  length,
  is_some,
};
ghost use Rattle.std.specs.List.{list_any};
ghost use Rattle.std.specs.Option.{option_map_or};
ghost use Rattle.tree_filesets.specs.Walk.{object_at};
ghost use Rattle.tree_filesets.specs.WellFormed.{is_at_rest, IsUsed, IsWellFormed};
ghost use Rattle.store_records.specs.Tree.{
  are_kept_sound,
  entries_at,
  has_root,
  is_kept_sound,
  AreFound,
  AreWellFormed,
  LeadAstray,
  LeadOn,
};

use base_types::{FILE_BYTES_MAX, Items, NoMemory, OBJECTS_MAX};
use store_acts::names_rise;
use store_state::unique_at;
use tree_calls::DirEntry;
use tree_filesets::{Fileset, object_at};
use tree_objects::{Anode, Content};

// The anode of the root.
const ROOT: u32 = 1;

// Whether the content of an object is well formed, where nothing of it is unsaved.
fn is_kept_sound(content: &Content) -> bool
    ensures { result ≡ is_kept_sound content.now }
{
    match content {
        Content::Dir { entries, lists } => names_rise(entries.as_slice()) && lists.len() == 3,
        Content::File { kept, .. } => kept.len() <= FILE_BYTES_MAX as usize,
    }
}

fn is_sound_there(anode: &Anode) -> bool
    ensures { result ≡ option_map_or (λ object. is_kept_sound object.content) anode.now.object true }
{
    match &anode.object {
        Some(object) => is_kept_sound(&object.content),
        None => true,
    }
}

// Whether that of each object is.
fn are_kept_sound(anodes: &Items<Anode>) -> bool
    ensures { result ≡ are_kept_sound anodes.now }
{
    anodes.as_slice().iter().all(|anode| is_sound_there(anode))
}

// Whether the first anode is in its first use, and a directory.
pub(crate) fn has_root(anodes: &Items<Anode>) -> bool
    ensures { result ≡ has_root anodes.now }
{
    unique_at(anodes, ROOT) == 1
        && match object_at(anodes, ROOT) {
            Some(root) => root.is_dir(),
            None => false,
        }
}

// Whether an anode is among those that were found.
fn is_among(found: &[u32], anode: u32) -> bool
    ensures { result ≡ list_any (nat_eq anode) found.now }
{
    found.iter().any(|other| anode == *other)
}

// Whether an entry names the present use of an anode.
fn is_used(anodes: &Items<Anode>, entry: &DirEntry) -> bool
    ensures { IsTrue result ↔ IsUsed anodes.now entry.now }
{
    object_at(anodes, entry.anode).is_some() && unique_at(anodes, entry.anode) == entry.unique
}

// Adds what entries lead to, to the anodes that were found. False where one of them leads astray.
fn add_targets(
    anodes: &Items<Anode>,
    entries: &[DirEntry],
    found: &mut Items<u32>,
) -> Result<bool, NoMemory>
    ensures on { IfOk result (λ on. on ≡ true → LeadOn anodes.now entries.now found.old found.new) }
    ensures astray { IfOk result (λ on. on ≡ false → LeadAstray anodes.now entries.now found.old) }
{
    for entry in entries {
        if !is_used(anodes, entry) || is_among(found.as_slice(), entry.anode) {
            return Ok(false);
        }
        found.push(entry.anode)?;
    }
    Ok(true)
}

// So for the entries of the directory at an anode.
fn add_targets_of(anodes: &Items<Anode>, at: u32, found: &mut Items<u32>) -> Result<bool, NoMemory>
    ensures on { IfOk result (λ on. on ≡ true → LeadOn anodes.now (entries_at anodes.now at) found.old found.new) }
    ensures astray { IfOk result (λ on. on ≡ false → LeadAstray anodes.now (entries_at anodes.now at) found.old) }
{
    let Some(object) = object_at(anodes, at) else {
        return Ok(true);
    };
    match &object.content {
        Content::Dir { entries, .. } => add_targets(anodes, entries.as_slice(), found),
        Content::File { .. } => Ok(true),
    }
}

// All anodes that entries lead to from the root on, the nearest first. None where some lead astray, or to more anodes
// than there can be.
fn found_from_root(anodes: &Items<Anode>) -> Result<Option<Items<u32>>, NoMemory>
    requires { are_kept_sound anodes.now ≡ true }
    ensures found { IfOk result (λ found. IfSome found (λ found. AreFound anodes.now (length found) found)) }
    ensures none { IfOk result (λ found. IfNone found (AreWellFormed anodes.now → ⊥)) }
{
    let mut found = Items::new(anodes.alloc());
    found.push(ROOT)?;
    for next in 0..OBJECTS_MAX as usize + 1 {
        let Some(at) = found.at(next).copied() else {
            return Ok(Some(found));
        };
        if !add_targets_of(anodes, at, &mut found)? {
            return Ok(None);
        }
    }
    Ok(None)
}

// Whether each object is among those that were found.
fn has_all(found: &[u32], anodes: &Items<Anode>) -> bool
    ensures { IsTrue result ↔ ((at : ℕ) → at ≤ OBJECTS_MAX → is_some (object_at anodes.now at) ≡ true
        → list_any (nat_eq at) found.now ≡ true) }
{
    for at in 0..OBJECTS_MAX + 1 {
        if object_at(anodes, at).is_some() && !is_among(found, at) {
            return false;
        }
    }
    true
}

/// Whether a fileset with nothing unsaved is well formed: whether each of its objects is, and the entries of its
/// directories lead to each object but the root, once. The only error is want of memory.
pub fn is_well_formed(fileset: &Fileset) -> Result<bool, NoMemory>
    ensures formed { IfOk result
        (λ formed. formed ≡ true → is_at_rest fileset.now ≡ true → IsWellFormed fileset.now) }
    ensures refused { IfOk result (λ formed. formed ≡ false → IsWellFormed fileset.now → ⊥) }
{
    let anodes = &fileset.anodes;
    if fileset.objects > OBJECTS_MAX || anodes.len() != fileset.objects as usize {
        return Ok(false);
    }
    if !has_root(anodes) || !are_kept_sound(anodes) {
        return Ok(false);
    }
    match found_from_root(anodes)? {
        Some(found) => Ok(has_all(found.as_slice(), anodes)),
        None => Ok(false),
    }
}
