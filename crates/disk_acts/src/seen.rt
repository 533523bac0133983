//! What is kept of anodes before an act: all of them but the bytes of files.
ghost use Rattle.std.specs.Prelude.{◌≡◌, IfOk, map};
ghost use Rattle.tree_filesets.specs.WellFormed.{is_settled};
ghost use Rattle.disk_acts.specs.Seen.{seen_content, seen_object, seen_anode};

use base_types::{AccessList, Items, Name, NoMemory, Plain};
use std::alloc::Global;
use tree_calls::DirEntry;
use tree_objects::{Anode, Content, Object};

/// What is seen of the content of an object.
#[derive(Drop)]
pub enum SeenContent {
    /// A directory, whole.
    Dir {
        entries: Items<DirEntry>,
        lists: Items<AccessList>,
    },
    /// A file: its access list, how many bytes of it are kept, and whether nothing of it is unsaved.
    File {
        list: AccessList,
        bytes: usize,
        settled: bool,
    },
}

/// What is seen of an object.
#[derive(Drop)]
pub struct SeenObject {
    pub(crate) owner: Name,
    pub(crate) group: Name,
    pub(crate) content: SeenContent,
}

/// What is seen of an anode.
#[derive(Drop)]
pub struct SeenAnode {
    pub(crate) unique: u32,
    pub(crate) object: Option<SeenObject>,
}

// Whether nothing of an object is unsaved.
pub(crate) fn is_settled(content: &Content) -> bool
    ensures { result ≡ is_settled content.now }
{
    match content {
        Content::Dir { .. } => true,
        Content::File {
            unsaved,
            length,
            ..
        } => unsaved.is_empty() && length.is_none(),
    }
}

fn see_content(content: &Content) -> Result<SeenContent, NoMemory>
    ensures { IfOk result (λ seen. seen ≡ seen_content content.now) }
{
    let settled = is_settled(content);
    match content {
        Content::Dir { entries, lists } => {
            let lists = lists.copy()?;
            Ok(SeenContent::Dir {
                entries: entries.copy()?,
                lists,
            })
        }
        Content::File { list, kept, .. } => Ok(SeenContent::File {
            list: list.copy()?,
            bytes: kept.len(),
            settled,
        }),
    }
}

fn see_object(object: &Object) -> Result<SeenObject, NoMemory>
    ensures { IfOk result (λ seen. seen ≡ seen_object object.now) }
{
    let owner = object.owner.copy()?;
    let group = object.group.copy()?;
    Ok(SeenObject {
        owner,
        group,
        content: see_content(&object.content)?,
    })
}

fn see_anode(anode: &Anode) -> Result<SeenAnode, NoMemory>
    ensures { IfOk result (λ seen. seen ≡ seen_anode anode.now) }
{
    let object = match &anode.object {
        Some(object) => Some(see_object(object)?),
        None => None,
    };
    Ok(SeenAnode {
        unique: anode.unique,
        object,
    })
}

// What is seen of anodes.
pub(crate) fn see_anodes(alloc: Global, anodes: &[Anode]) -> Result<Items<SeenAnode>, NoMemory>
    ensures { IfOk result (λ seen. seen ≡ map seen_anode anodes.now) }
{
    let mut seen = Items::new(alloc);
    for anode in anodes {
        seen.push(see_anode(anode)?)?;
    }
    Ok(seen)
}
