//! What is told of an object, and the object that a part of a fileset tells of.
ghost use Rattle.std.specs.Prelude.{◌≡◌, true, replicate, IfOk, IfSome};
ghost use Rattle.store_state.specs.Giving.{put_pieces};
ghost use Rattle.std.specs.List.{list_all};
ghost use Rattle.std.specs.Option.{option_copied};
ghost use Rattle.base_types.specs.Name.{is_before};
ghost use Rattle.tree_objects.specs.Sound.{names_rise};
ghost use Rattle.tree_filesets.specs.Laws.{lists_in, entries_in};
ghost use Rattle.store_acts.specs.Parts.{
  is_tellable,
  told_object,
  kept_length,
  kept_bytes,
  status_of,
  pieces_of,
  object_part,
  part_of,
  told_content,
  object_of_part,
  anode_of_part,
};

use base_types::{AccessList, FILE_BYTES_MAX, Items, Name, NoMemory, OBJECTS_MAX, Plain};
use std::alloc::Global;
use store_state::{Holding, put_pieces, unique_at};
use tree_calls::{DirEntry, Mover, Piece, ShipPart, Status};
use tree_filesets::object_at;
use tree_objects::{Anode, Content, Object, UnsavedBytes};

// Whether a name comes before those of these entries.
fn is_first(name: &Name, entries: &[DirEntry]) -> bool
    ensures { result ≡ list_all (λ other. is_before name.now other.name) entries.now }
{
    entries.iter().all(|other| name.is_before(&other.name))
}

/// Whether the names of entries rise.
pub fn names_rise(entries: &[DirEntry]) -> bool
    ensures { result ≡ names_rise entries.now }
{
    let mut rest = entries;
    while let Some((first, behind)) = rest.split_first() {
        if !is_first(&first.name, behind) {
            return false;
        }
        rest = behind;
    }
    true
}

// Whether an object is within the limits of what is told.
fn is_tellable(content: &Content) -> bool
    ensures { result ≡ is_tellable content.now }
{
    match content {
        Content::Dir { entries, lists } => {
            entries.len() <= OBJECTS_MAX as usize
                && lists.len() == 3
                && names_rise(entries.as_slice())
        }
        Content::File { kept, .. } => kept.len() <= FILE_BYTES_MAX as usize,
    }
}

/// The object at an anode, as far as it may be told.
pub fn told_object(anodes: &Items<Anode>, anode: u32) -> Option<&Object>
    ensures value { option_copied result ≡ told_object anodes.now anode }
    ensures tellable { IfSome result (λ object. is_tellable object.now.content ≡ true) }
{
    match object_at(anodes, anode) {
        Some(object) if is_tellable(&object.content) => Some(object),
        _ => None,
    }
}

// The kept length of a file, and the number of a directory's entries.
fn kept_length(content: &Content) -> usize
    ensures { result ≡ kept_length content.now }
{
    match content {
        Content::Dir { entries, .. } => entries.len(),
        Content::File { kept, .. } => kept.len(),
    }
}

// The access lists of an object.
fn lists_in(content: &Content) -> Result<Items<AccessList>, NoMemory>
    ensures { IfOk result (λ lists. lists ≡ lists_in content.now) }
{
    match content {
        Content::Dir { lists, .. } => lists.copy(),
        Content::File { list, kept, .. } => {
            let mut lists = Items::new(kept.alloc());
            lists.push(list.copy()?)?;
            Ok(lists)
        }
    }
}

/// The entries of a directory, and none of a file.
pub fn entries_in(content: &Content) -> Result<Items<DirEntry>, NoMemory>
    ensures { IfOk result (λ entries. entries ≡ entries_in content.now) }
{
    match content {
        Content::Dir { entries, .. } => entries.copy(),
        Content::File { kept, .. } => Ok(Items::new(kept.alloc())),
    }
}

/// The status of an object that may be told.
pub fn status_of(read_only: bool, object: &Object) -> Result<Status, NoMemory>
    requires { is_tellable object.now.content ≡ true }
    ensures { IfOk result (λ status. status ≡ status_of read_only object.now) }
{
    Ok(Status {
        dir: object.is_dir(),
        read_only,
        length: kept_length(&object.content) as u32,
        owner: object.owner.copy()?,
        group: object.group.copy()?,
        lists: lists_in(&object.content)?,
    })
}

// The bytes of a file as one piece, and no piece of a directory.
fn pieces_of(alloc: Global, content: &Content) -> Result<Items<Piece>, NoMemory>
    ensures { IfOk result (λ pieces. pieces ≡ pieces_of content.now) }
{
    let mut pieces = Items::new(alloc);
    if let Content::File { kept, .. } = content {
        pieces.push(Piece {
            from: 0,
            bytes: Items::from_slice(alloc, kept.as_slice())?,
        })?;
    }
    Ok(pieces)
}

/// A part of a fileset that is leaving.
pub fn part_of(
    alloc: Global,
    holding: &Holding,
    at: u32,
    mover: &Mover,
) -> Result<ShipPart, NoMemory>
    ensures { IfOk result (λ part. part ≡ part_of holding.now at mover.now) }
{
    if at == 0 {
        return head_of(holding, mover);
    }
    let anodes = &holding.fileset.anodes;
    let unique = unique_at(anodes, at);
    match told_object(anodes, at) {
        Some(object) => used_part(alloc, at, unique, object),
        None => Ok(free_part(alloc, at, unique)),
    }
}

fn head_of(holding: &Holding, mover: &Mover) -> Result<ShipPart, NoMemory>
    ensures { IfOk result (λ part. part ≡ part_of holding.now 0 mover.now) }
{
    Ok(ShipPart::Head {
        name: holding.fileset.name.copy()?,
        objects: holding.fileset.objects,
        records: holding.records.copy()?,
        mover: mover.copy()?,
    })
}

/// A part that tells of a free anode.
pub fn free_part(alloc: Global, anode: u32, unique: u32) -> ShipPart
    ensures { result ≡ object_part anode unique None }
{
    ShipPart::Object {
        anode,
        unique,
        status: None,
        pieces: Items::new(alloc),
        entries: Items::new(alloc),
    }
}

fn used_part(alloc: Global, anode: u32, unique: u32, object: &Object) -> Result<ShipPart, NoMemory>
    requires { is_tellable object.now.content ≡ true }
    ensures { IfOk result (λ part. part ≡ object_part anode unique (Some object.now)) }
{
    Ok(ShipPart::Object {
        anode,
        unique,
        status: Some(status_of(false, object)?),
        pieces: pieces_of(alloc, &object.content)?,
        entries: entries_in(&object.content)?,
    })
}

// So many zeros.
fn zeros(alloc: Global, count: u32) -> Result<Items<u8>, NoMemory>
    ensures { IfOk result (λ bytes. bytes ≡ replicate count 0) }
{
    let mut bytes = Vec::new(alloc);
    bytes.resize(count as usize, 0)?;
    Ok(Items::from_vec(bytes))
}

// The bytes of a file of a length that pieces tell of.
fn told_bytes(alloc: Global, length: u32, pieces: &[Piece]) -> Result<Items<u8>, NoMemory>
    ensures { IfOk result (λ bytes. bytes ≡ put_pieces (replicate length 0) pieces.now) }
{
    let mut bytes = zeros(alloc, length)?;
    put_pieces(&mut bytes, pieces);
    Ok(bytes)
}

// The content that a part tells of; a file without a list is none.
fn told_content(
    status: &Status,
    pieces: &Items<Piece>,
    entries: &Items<DirEntry>,
) -> Result<Option<Content>, NoMemory>
    ensures { IfOk result (λ content. content ≡ told_content status.now pieces.now entries.now) }
{
    if status.dir {
        return Ok(Some(Content::Dir {
            entries: entries.copy()?,
            lists: status.lists.copy()?,
        }));
    }
    let Some(list) = status.lists.at(0) else {
        return Ok(None);
    };
    Ok(Some(Content::File {
        list: list.copy()?,
        kept: told_bytes(pieces.alloc(), status.length, pieces.as_slice())?,
        unsaved: UnsavedBytes::new(pieces.alloc()),
        length: None,
    }))
}

fn object_of_part(
    status: &Option<Status>,
    pieces: &Items<Piece>,
    entries: &Items<DirEntry>,
) -> Result<Option<Object>, NoMemory>
    ensures { IfOk result (λ object. object ≡ object_of_part status.now pieces.now entries.now) }
{
    let Some(status) = status else {
        return Ok(None);
    };
    let (owner, group) = (status.owner.copy()?, status.group.copy()?);
    match told_content(status, pieces, entries)? {
        Some(content) => Ok(Some(Object {
            owner,
            group,
            content,
        })),
        None => Ok(None),
    }
}

/// The anode that a part tells of.
pub(crate) fn anode_of_part(
    unique: u32,
    status: &Option<Status>,
    pieces: &Items<Piece>,
    entries: &Items<DirEntry>,
) -> Result<Anode, NoMemory>
    ensures { IfOk result (λ anode. anode ≡ anode_of_part unique status.now pieces.now entries.now) }
{
    let object = object_of_part(status, pieces, entries)?;
    Ok(Anode { unique, object })
}
