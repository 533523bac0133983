//! Create and MakeDir.
ghost use Rattle.std.specs.Prelude.{◌≡◌, ◌<◌, ◌≤◌, ◌^◌, ◌+◌, length, OnOk, OnErr, IfOk};
ghost use Rattle.tree_objects.specs.Entries.{content_with_entry};
ghost use Rattle.tree_filesets.specs.Answers.{IsAnswer, IsFound};
ghost use Rattle.tree_filesets.specs.Creation.{
  is_vacant,
  first_vacancy,
  vacancy,
  new_content,
  new_object,
  create_target,
  occupied,
  with_object,
  create_answer,
};
ghost use Rattle.tree_filesets.specs.Updates.{changed, updated};

use crate::checks::split_path;
use crate::fileset::Fileset;
use crate::outcome::NotDone;
use base_types::{Items, Name, NoMemory, Plain, UNIQUE_MAX, User};
use std::alloc::Global;
use tree_calls::{DirEntry, Refusal, Reply, Which};
use tree_objects::{Anode, Content, Object, UnsavedBytes};

/// What is made.
#[derive(Clone, Copy)]
pub enum NewObject {
    /// A file without bytes.
    EmptyFile,
    /// A directory without entries.
    EmptyDirectory,
}

/// An anode that takes a new object, and the number of that use.
#[derive(Clone, Copy)]
pub struct Vacancy {
    /// The anode.
    pub anode: u32,
    /// The unique number of the new object.
    pub unique: u32,
}

/// A new object, its entry, and the anode of the directory that the entry goes to.
#[derive(Drop)]
pub struct Creation {
    /// The anode of the directory.
    pub parent: u32,
    /// The entry.
    pub entry: DirEntry,
    /// The new object.
    pub object: Object,
}

impl Fileset {
    /// Create, MakeDir: an empty object of a user.
    #[tactic(auto, unfolding(crate::specs::Creation::create_answer))]
    pub(crate) fn create(
        &mut self,
        kind: NewObject,
        user: &User,
        path: &[Name],
    ) -> Result<Reply, NotDone>
        ensures { IsAnswer result (create_answer self.old kind user.now path.now) self.old self.new }
    {
        let creation = self.create_target(kind, user, path)?;
        self.add_object(creation)?;
        Ok(Reply::Ok)
    }

    // The new object, where the user may make it.
    #[tactic(auto, unfolding(crate::specs::Creation::create_target))]
    pub(crate) fn create_target(
        &self,
        kind: NewObject,
        user: &User,
        path: &[Name],
    ) -> Result<Creation, NotDone>
        ensures { IsFound result (create_target self.now kind user.now path.now) }
    {
        if self.read_only {
            return Err(NotDone::Refused(Refusal::ReadOnly));
        }
        let (name, front) = split_path(path, Refusal::Exists)?;
        let (parent, directory) = self.insert_target(user, front, name)?;
        let vacancy = self.vacancy()?;
        let object = new_object(kind, user, directory)?;
        let entry = DirEntry {
            name: name.copy()?,
            anode: vacancy.anode,
            unique: vacancy.unique,
        };
        Ok(Creation {
            parent,
            entry,
            object,
        })
    }

    // The lowest anode that takes a new object.
    fn vacancy(&self) -> Result<Vacancy, Refusal>
        ensures { result ≡ vacancy self.now }
    {
        let end = self.anodes.len().min(self.objects as usize);
        first_vacancy(&self.anodes.as_slice()[..end])
    }

    // Puts the new object at its anode, and its entry into its directory.
    fn add_object(&mut self, creation: Creation) -> Result<(), NoMemory>
        ensures ok { OnOk result (self.new ≡ with_object self.old creation) }
        ensures err { OnErr result (self.new ≡ self.old) }
    {
        let Creation {
            parent,
            entry,
            object,
        } = creation;
        let (place, unique) = (entry.anode, entry.unique);
        self.insert_entry_at(parent, entry)?;
        self.occupy(place, unique, object);
        Ok(())
    }

    // Puts an entry into the directory at an anode.
    #[tactic(auto, using(crate::proofs::Updates::changes), unfolding(crate::specs::Updates::updated))]
    pub(crate) fn insert_entry_at(&mut self, anode: u32, entry: DirEntry) -> Result<(), NoMemory>
        ensures ok { OnOk result (self.new ≡ changed self.old anode (content_with_entry entry)) }
        ensures err { OnErr result (self.new ≡ self.old) }
    {
        if let Some(anode) = self.anode_mut(anode) {
            anode.insert_entry(entry)?;
        }
        Ok(())
    }

    // Puts an object at an anode, for another use of it.
    #[tactic(auto, using(crate::proofs::Updates::changes), unfolding(crate::specs::Updates::updated))]
    fn occupy(&mut self, anode: u32, unique: u32, object: Object)
        ensures { self.new ≡ updated self.old anode (occupied unique object) }
    {
        let used = Anode {
            unique,
            object: Some(object),
        };
        self.anodes.put(anode.saturating_sub(1) as usize, used);
    }
}

// Whether an anode takes a new object.
fn is_vacant(anode: &Anode) -> bool
    ensures { result ≡ is_vacant anode.now }
{
    anode.object.is_none() && anode.unique < UNIQUE_MAX
}

// The lowest of these anodes that takes a new object.
fn first_vacancy(anodes: &[Anode]) -> Result<Vacancy, Refusal>
    requires { length anodes.now < 2 ^ 32 }
    ensures { result ≡ first_vacancy 1 anodes.now }
{
    for (place, anode) in anodes.iter().enumerate() {
        if is_vacant(anode) {
            return Ok(Vacancy {
                anode: place as u32 + 1,
                unique: anode.unique + 1,
            });
        }
    }
    Err(Refusal::TooMany)
}

// An empty object of a user, with the lists that a directory has for new ones.
fn new_object(kind: NewObject, user: &User, directory: &Object) -> Result<Object, NotDone>
    ensures { IsFound result (new_object kind user.now directory.now) }
{
    let alloc = user.groups.alloc();
    let content = match kind {
        NewObject::EmptyFile => new_file(alloc, directory)?,
        NewObject::EmptyDirectory => new_directory(alloc, directory)?,
    };
    Ok(Object {
        owner: user.name.copy()?,
        group: user.first_group().copy()?,
        content,
    })
}

// An empty file, with the list that a directory has for new files.
fn new_file(alloc: Global, directory: &Object) -> Result<Content, NotDone>
    ensures { IsFound result (new_content NewObject.EmptyFile directory.now.content) }
{
    let files = directory.access(Which::Files)?.copy()?;
    Ok(Content::File {
        list: files,
        kept: Items::new(alloc),
        unsaved: UnsavedBytes::new(alloc),
        length: None,
    })
}

// An empty directory: its own list is that of its directory for new directories, and its other two are copies of its
// directory's.
fn new_directory(alloc: Global, directory: &Object) -> Result<Content, NotDone>
    ensures { IsFound result (new_content NewObject.EmptyDirectory directory.now.content) }
{
    let files = directory.access(Which::Files)?;
    let dirs = directory.access(Which::Dirs)?;
    let mut lists = Items::new(alloc);
    lists.push(dirs.copy()?)?;
    lists.push(files.copy()?)?;
    lists.push(dirs.copy()?)?;
    Ok(Content::Dir {
        entries: Items::new(alloc),
        lists,
    })
}
