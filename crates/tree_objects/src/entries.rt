ghost use Rattle.std.specs.Prelude.{◌≡◌, not, filter, ◌<◌, ◌≤◌, length, IfOk, IfSome, OnOk, OnErr};
ghost use Rattle.std.specs.Option.{option_copied};
ghost use Rattle.std.specs.List.{position};
ghost use Rattle.base_types.specs.Name.{is_before, same_name};
ghost use Rattle.tree_objects.specs.Entries.{
  entry_named,
  names_of,
  entry_place,
  content_with_entry,
  content_without_entry,
};
ghost use Rattle.tree_objects.specs.Objects.{content_with_list};
ghost use Rattle.tree_objects.specs.Changes.{anode_changed};

use crate::content::{Anode, Content};
use crate::object::list_index;
use base_types::{AccessList, Items, Name, NoMemory, Plain};
use tree_calls::{DirEntry, Which};

/// The entry of a name in a directory.
pub fn entry_named<'a>(entries: &'a Items<DirEntry>, name: &Name) -> Option<&'a DirEntry>
    ensures { option_copied result ≡ entry_named entries.now name.now }
{
    entries.as_slice().iter().find(|entry| entry.name == *name)
}

/// The names in a directory, in their order.
pub fn names_of(entries: &Items<DirEntry>) -> Result<Items<Name>, NoMemory>
    ensures { IfOk result (λ names. names ≡ names_of entries.now) }
{
    let mut names = Items::new(entries.alloc());
    for entry in entries.as_slice() {
        names.push(entry.name.copy()?)?;
    }
    Ok(names)
}

fn entry_place(entries: &Items<DirEntry>, name: &Name) -> usize
    ensures place { result ≡ entry_place entries.now name.now }
    ensures within { result ≤ length entries.now }
{
    match first_above(entries, name) {
        Some(place) => place,
        None => entries.len(),
    }
}

// The first entry with a greater name.
fn first_above(entries: &Items<DirEntry>, name: &Name) -> Option<usize>
    ensures place { result ≡ position (λ entry. is_before name.now entry.name) entries.now }
    ensures within { IfSome result (λ place. place < length entries.now) }
{
    entries
        .as_slice()
        .iter()
        .position(|entry| name.is_before(&entry.name))
}

// Lets the entry of a name go.
fn drop_named(entries: &mut Items<DirEntry>, name: &Name)
    ensures { entries.new ≡ filter (λ entry. not (same_name entry.name name.now)) entries.old }
{
    entries.retain(|entry| entry.name != *name);
}

impl Content {
    fn insert_entry(&mut self, entry: DirEntry) -> Result<(), NoMemory>
        ensures ok { OnOk result (self.new ≡ content_with_entry entry self.old) }
        ensures err { OnErr result (self.new ≡ self.old) }
    {
        if let Content::Dir { entries, lists: _ } = self {
            let place = entry_place(entries, &entry.name);
            entries.insert(place, entry)?;
        }
        Ok(())
    }

    fn drop_entry(&mut self, name: &Name)
        ensures { self.new ≡ content_without_entry name.now self.old }
    {
        if let Content::Dir { entries, lists: _ } = self {
            drop_named(entries, name);
        }
    }

    fn set_list(&mut self, which: Which, access: AccessList)
        ensures { self.new ≡ content_with_list which access self.old }
    {
        match self {
            Content::Dir { entries: _, lists } => lists.put(list_index(which), access),
            Content::File {
                list,
                kept: _,
                unsaved: _,
                length: _,
            } => *list = access,
        }
    }
}

impl Anode {
    /// Puts an entry into a directory, at its place in the order of names.
    pub fn insert_entry(&mut self, entry: DirEntry) -> Result<(), NoMemory>
        ensures ok { OnOk result (self.new ≡ anode_changed (content_with_entry entry) self.old) }
        ensures err { OnErr result (self.new ≡ self.old) }
    {
        if let Some(object) = &mut self.object {
            object.content.insert_entry(entry)?;
        }
        Ok(())
    }

    /// Takes the entry of a name out of a directory.
    pub fn drop_entry(&mut self, name: &Name)
        ensures { self.new ≡ anode_changed (content_without_entry name.now) self.old }
    {
        if let Some(object) = &mut self.object {
            object.content.drop_entry(name);
        }
    }

    /// Replaces one of the access lists of a directory, or that of a file.
    pub fn set_list(&mut self, which: Which, access: AccessList)
        ensures { self.new ≡ anode_changed (content_with_list which access) self.old }
    {
        if let Some(object) = &mut self.object {
            object.content.set_list(which, access);
        }
    }
}
