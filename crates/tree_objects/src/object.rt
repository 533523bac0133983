ghost use Rattle.std.specs.Prelude.{◌≡◌, Ok, Err, IfOk, MatchResult};
ghost use Rattle.tree_objects.specs.Objects.{
  is_dir,
  entries_of,
  own_rights,
  entered,
  told_length,
  facts_of,
  list_index,
  access_of,
  blocks_of,
  object_as_cloned,
};
ghost use Rattle.tree_objects.specs.Changes.{content_as_cloned};

use crate::bytes::{present_bytes, present_length};
use crate::content::{Content, Object};
use crate::unsaved::UnsavedBytes;
use base_types::{AccessList, BLOCK_BYTES, Items, NoMemory, Plain, Rights, User, rights_of};
use tree_calls::{DirEntry, Facts, Refusal, Which};

impl Object {
    /// Whether it is a directory.
    pub fn is_dir(&self) -> bool
        ensures { result ≡ is_dir self.now.content }
    {
        matches!(&self.content, Content::Dir { .. })
    }

    /// The entries of a directory. `NotDir` where it is a file.
    pub fn entries(&self) -> Result<&Items<DirEntry>, Refusal>
        ensures { MatchResult result (λ entries. entries_of self.now.content ≡ Ok entries.now)
            (λ refusal. entries_of self.now.content ≡ Err refusal) }
    {
        match &self.content {
            Content::Dir { entries, lists: _ } => Ok(entries),
            Content::File { .. } => Err(Refusal::NotDir),
        }
    }

    /// The rights of a user, by the object's own access list.
    pub fn own_rights(&self, user: &User) -> Rights
        ensures { result ≡ own_rights self.now user.now }
    {
        match &self.content {
            Content::Dir { entries: _, lists } => match lists.at(0) {
                Some(list) => rights_of(list, &self.owner, &self.group, user),
                None => Rights::NONE,
            },
            Content::File {
                list,
                kept: _,
                unsaved: _,
                length: _,
            } => rights_of(list, &self.owner, &self.group, user),
        }
    }

    /// The entries of a directory that the user may search. `NotDir` where it is a file, and `Denied` where the user
    /// lacks the right to execute.
    pub fn entered(&self, user: &User) -> Result<&Items<DirEntry>, Refusal>
        ensures { MatchResult result (λ entries. entered self.now user.now ≡ Ok entries.now)
            (λ refusal. entered self.now user.now ≡ Err refusal) }
    {
        match &self.content {
            Content::Dir { entries, lists: _ } => {
                if self.own_rights(user).allows(Rights::EXECUTE) {
                    Ok(entries)
                } else {
                    Err(Refusal::Denied(Rights::EXECUTE))
                }
            }
            Content::File { .. } => Err(Refusal::NotDir),
        }
    }

    /// What is told of the object to a user: its kind, its length in bytes or entries, its owner and the user's rights.
    pub fn facts(&self, user: &User) -> Result<Facts, NoMemory>
        ensures { IfOk result (λ facts. facts ≡ facts_of self.now user.now) }
    {
        Ok(Facts {
            dir: self.is_dir(),
            length: self.content.told_length().min(u32::MAX as usize) as u32,
            owner: self.owner.copy()?,
            rights: self.own_rights(user),
        })
    }

    /// One of the access lists. `NotDir` where it is a file and another list than its own is asked for.
    pub fn access(&self, which: Which) -> Result<&AccessList, Refusal>
        ensures { MatchResult result (λ list. access_of which self.now.content ≡ Ok list.now)
            (λ refusal. access_of which self.now.content ≡ Err refusal) }
    {
        match &self.content {
            Content::Dir { entries: _, lists } => match lists.at(list_index(which)) {
                Some(list) => Ok(list),
                None => Err(Refusal::NotDir),
            },
            Content::File {
                list,
                kept: _,
                unsaved: _,
                length: _,
            } => match which {
                Which::Own => Ok(list),
                Which::Files | Which::Dirs => Err(Refusal::NotDir),
            },
        }
    }

    /// The blocks that a copy of the object is promised: 4, and 5 more for a directory, or for a file one for each
    /// `BLOCK_BYTES` of its present length, rounded up.
    pub fn promise(&self) -> u64
        ensures { result ≡ blocks_of self.now.content }
    {
        match &self.content {
            Content::Dir { .. } => 9,
            Content::File {
                list: _,
                kept,
                unsaved: _,
                length,
            } => 4 + present_length(kept, length).div_ceil(BLOCK_BYTES as usize) as u64,
        }
    }

    /// What a clone holds of the object: in a file the present bytes are kept.
    pub fn as_cloned(&self) -> Result<Object, NoMemory>
        ensures { IfOk result (λ copy. copy ≡ object_as_cloned self.now) }
    {
        Ok(Object {
            owner: self.owner.copy()?,
            group: self.group.copy()?,
            content: self.content.as_cloned()?,
        })
    }
}

impl Content {
    // The length of a file, or the number of a directory's entries.
    fn told_length(&self) -> usize
        ensures { result ≡ told_length self.now }
    {
        match self {
            Content::Dir { entries, lists: _ } => entries.len(),
            Content::File {
                list: _,
                kept,
                unsaved: _,
                length,
            } => present_length(kept, length),
        }
    }

    fn as_cloned(&self) -> Result<Content, NoMemory>
        ensures { IfOk result (λ copy. copy ≡ content_as_cloned self.now) }
    {
        match self {
            Content::Dir { entries, lists } => Ok(Content::Dir {
                entries: entries.copy()?,
                lists: lists.copy()?,
            }),
            Content::File {
                list,
                kept,
                unsaved,
                length,
            } => Ok(Content::File {
                list: list.copy()?,
                kept: present_bytes(kept, unsaved, length)?,
                unsaved: UnsavedBytes::new(kept.alloc()),
                length: None,
            }),
        }
    }
}

/// The place of an access list among those of a directory.
pub(crate) fn list_index(which: Which) -> usize
    ensures { result ≡ list_index which }
{
    match which {
        Which::Own => 0,
        Which::Files => 1,
        Which::Dirs => 2,
    }
}
