ghost use Rattle.std.specs.Prelude.{◌≡◌, [], map, OnErr, OnOk};
ghost use Rattle.host_lengths.specs.Giving.{known_by, length_given, with_given, without_file};
ghost use Rattle.host_lengths.specs.Lengths.{file_key, give_key};

use crate::given::{Given, known_by};
use base_types::{Fid, FilesetId, NoMemory};
use indexmap::IndexMap;
use std::alloc::Global;
use std::collections::HashMap;
use std::marker::Model;

// A file: its fileset, its anode and its unique number.
type FileKey = (u32, (u32, u32));

// A give-back: its fileset and its number.
type GiveKey = (u32, u64);

/// The lengths of files that were given back last, each found by its file and by its give-back without a walk over all.
/// Contracts see them as a list, in the order in which their files came.
#[derive(Drop)]
pub struct Lengths {
    by_file: IndexMap<FileKey, Given>,
    /// The files whose lengths aren't known as applied, by their give-backs, and maybe some others.
    files: HashMap<GiveKey, FileKey>,
}

impl Model for Lengths {
    ghost use Rattle.std.specs.Prelude.{List};
    ghost use Rattle.std.specs.Map.{values_of};
    ghost use Rattle.host_lengths.specs.declared.given.Given.{Given};
    ghost use Rattle.host_lengths.specs.Lengths.{AreLengths};

    ghost Value = { List Given };

    ghost view = { λ l. values_of l.by_file.entries };

    ghost invariant = { λ l. AreLengths l.by_file.entries l.files.entries };
}

impl Lengths {
    /// No length. It takes no memory.
    pub fn new(alloc: Global) -> Lengths
        ensures { result ≡ [] }
    {
        Lengths {
            by_file: IndexMap::new(alloc),
            files: HashMap::new(alloc),
        }
    }

    /// The length of a file that was given back last. It takes no memory.
    pub fn given(&self, fid: Fid) -> Option<Given>
        ensures { result ≡ length_given self.now fid }
    {
        self.by_file.get(&file_key(fid)).copied()
    }

    /// Notes a length that was given back. The only error is that memory ran out, as which a second length of one
    /// give-back counts; then nothing changes.
    pub fn put(&mut self, given: Given) -> Result<(), NoMemory>
        ensures after { OnOk result (self.new ≡ with_given given self.old) }
        ensures err { OnErr result (self.new ≡ self.old) }
    {
        let key = file_key(given.fid);
        let give = give_key(given);
        if self.files.contains_key(&give) {
            return Err(NoMemory);
        }
        self.files.insert(give, key)?;
        self.by_file.insert(key, given)?;
        Ok(())
    }

    /// A give-back is known as applied: where it gave a length back last, that is known, too. It takes no memory.
    pub fn mark_known(&mut self, fileset: FilesetId, number: u64)
        ensures { self.new ≡ map (known_by fileset number) self.old }
    {
        let Some(key) = self.files.remove(&(fileset.0, number)) else {
            return;
        };
        let Some(given) = self.by_file.get_mut(&key) else {
            return;
        };
        *given = known_by(*given, fileset, number);
    }

    /// Forgets the length of a file. It takes no memory.
    pub fn forget(&mut self, fid: Fid)
        ensures { self.new ≡ without_file fid self.old }
    {
        let _count = self.by_file.len();
        self.by_file.shift_remove(&file_key(fid));
    }
}

fn file_key(fid: Fid) -> FileKey
    ensures { result ≡ file_key fid }
{
    (fid.fileset.0, (fid.anode, fid.unique))
}

fn give_key(given: Given) -> GiveKey
    ensures { result ≡ give_key given }
{
    (given.fid.fileset.0, given.number)
}
