ghost use Rattle.std.specs.Prelude.{◌≡◌, not, map, option_copied, OnOk, OnErr, IfOk};
ghost use Rattle.std.specs.BTreeMap.{get, keys, IsOrdered};
ghost use Rattle.token_ranges.specs.Positions.{IsApart};
ghost use Rattle.host_dirty.specs.Files.{key_of, fid_of, key_cmp, clean, is_clean};
ghost use Rattle.host_dirty.specs.Dirtiness.{file_at, spans_of, length_of, dirty_files};
ghost use Rattle.host_dirty.specs.Dirtiness.{IsSame, Puts, Adds, Cuts, SetsLength};

use crate::file::{DirtyFile, FileKey, fid_of, key_of};
use base_types::{Fid, Items, NoMemory, Plain, Span};
use std::alloc::Global;
use std::collections::BTreeMap;

/// What is dirty of files: of each a set of positions, in bytes, and at most one length.
#[derive(Drop)]
pub struct Dirty {
    alloc: Global,
    files: BTreeMap<FileKey, DirtyFile>,
}

impl Dirty {
    /// Nothing is dirty. It takes no memory.
    pub fn new(alloc: Global) -> Dirty
        ensures { (fid : Fid) → file_at result fid ≡ clean }
    {
        Dirty {
            alloc,
            files: BTreeMap::new(alloc),
        }
    }

    /// Makes the positions of a span dirty. The only error is that memory ran out; then nothing changes.
    pub fn add(&mut self, fid: Fid, span: Span) -> Result<(), NoMemory>
        ensures after { OnOk result (Adds self.old fid span self.new) }
        ensures err { OnErr result (IsSame self.old self.new) }
    {
        let key = key_of(fid);
        if let Some(file) = self.files.get_mut(&key) {
            file.add(span)?;
            return Ok(());
        }
        let mut file = DirtyFile::clean(self.alloc);
        file.add(span)?;
        self.put(fid, file)?;
        Ok(())
    }

    /// Makes the positions of a span clean. The only error is that memory ran out; then nothing changes.
    pub fn cut(&mut self, fid: Fid, span: Span) -> Result<(), NoMemory>
        ensures after { OnOk result (Cuts self.old fid span self.new) }
        ensures err { OnErr result (IsSame self.old self.new) }
    {
        let key = key_of(fid);
        let Some(file) = self.files.get_mut(&key) else {
            return Ok(());
        };
        file.cut(span)?;
        if file.is_clean() {
            self.files.remove(&key);
        }
        Ok(())
    }

    /// Makes this the dirty length of a file, in bytes, or makes its length clean. The only error is that memory ran
    /// out; then nothing changes.
    pub fn set_length(&mut self, fid: Fid, length: Option<u32>) -> Result<(), NoMemory>
        ensures after { OnOk result (SetsLength self.old fid length self.new) }
        ensures err { OnErr result (IsSame self.old self.new) }
    {
        let mut file = self.file(fid)?;
        file.length = length;
        self.put(fid, file)?;
        Ok(())
    }

    /// The dirty positions of a file, as spans that are as long as can be, in order. It takes no memory.
    pub fn spans(&self, fid: Fid) -> &[Span]
        ensures spans { result.now ≡ spans_of self.now fid }
        ensures apart { IsApart result.now }
    {
        match self.find(fid) {
            Some(file) => file.spans.spans(),
            None => &[],
        }
    }

    /// The dirty length of a file, in bytes; None where its length is clean. It takes no memory.
    pub fn length(&self, fid: Fid) -> Option<u32>
        ensures { result ≡ length_of self.now fid }
    {
        match self.find(fid) {
            Some(file) => file.length,
            None => None,
        }
    }

    /// The files of which anything is dirty, in the order of fids. The only error is that memory ran out.
    pub fn files(&self) -> Result<Items<Fid>, NoMemory>
        ensures { IfOk result (λ fids. fids ≡ dirty_files self.now) }
    {
        let keys = keys_of(self.alloc, &self.files)?;
        let mut fids = fids_of(self.alloc, keys.as_slice())?;
        fids.retain(|fid| self.is_dirty(*fid));
        Ok(fids)
    }
}

impl Dirty {
    // The files stand in order. It does nothing.
    pub(crate) fn order(&self)
        ensures { IsOrdered key_cmp self.now.files }
    {
        let _count = self.files.len();
    }

    fn find(&self, fid: Fid) -> Option<&DirtyFile>
        ensures { option_copied result ≡ get key_cmp self.now.files (key_of fid) }
    {
        self.files.get(&key_of(fid))
    }

    // A copy of what is dirty of a file.
    fn file(&self, fid: Fid) -> Result<DirtyFile, NoMemory>
        ensures { IfOk result (λ file. file ≡ file_at self.now fid) }
    {
        let Some(file) = self.find(fid) else {
            return Ok(DirtyFile::clean(self.alloc));
        };
        let copy = file.copy()?;
        Ok(copy)
    }

    // Makes this what is dirty of a file. On an error nothing changes.
    fn put(&mut self, fid: Fid, file: DirtyFile) -> Result<(), NoMemory>
        ensures after { OnOk result (Puts self.old fid file self.new) }
        ensures err { OnErr result (IsSame self.old self.new) }
    {
        let key = key_of(fid);
        if file.is_clean() {
            self.files.remove(&key);
            return Ok(());
        }
        self.files.insert(key, file)?;
        Ok(())
    }

    fn is_dirty(&self, fid: Fid) -> bool
        ensures { result ≡ not (is_clean (file_at self.now fid)) }
    {
        match self.find(fid) {
            Some(file) => !file.is_clean(),
            None => false,
        }
    }
}

// The keys of the map, in order.
fn keys_of(alloc: Global, files: &BTreeMap<FileKey, DirtyFile>) -> Result<Items<FileKey>, NoMemory>
    ensures { IfOk result (λ found. found ≡ keys files.now) }
{
    let keys: Vec<FileKey> = files.keys().copied().collect(alloc)?;
    Ok(Items::from_vec(keys))
}

fn fids_of(alloc: Global, keys: &[FileKey]) -> Result<Items<Fid>, NoMemory>
    ensures { IfOk result (λ fids. fids ≡ map fid_of keys.now) }
{
    let mut fids = Items::new(alloc);
    for key in keys {
        fids.push(fid_of(*key))?;
    }
    Ok(fids)
}
