ghost use Rattle.std.specs.Prelude.{◌≡◌, OnOk, OnErr};
ghost use Rattle.host_dirty.specs.Files.{key_of, fid_of, clean, is_clean};

use base_types::{Fid, FilesetId, NoMemory, Plain, Span};
use std::alloc::Global;
use token_ranges::SpanSet;

/// A file by its fileset, its anode and the unique number.
pub(crate) type FileKey = (u32, (u32, u32));

/// What is dirty of a file: positions, and its length where that was set.
#[derive(Drop)]
pub(crate) struct DirtyFile {
    pub(crate) spans: SpanSet,
    pub(crate) length: Option<u32>,
}

impl DirtyFile {
    ghost use Rattle.host_dirty.specs.Filing.{AddsTo, CutsFrom};

    /// Nothing is dirty. It takes no memory.
    pub(crate) fn clean(alloc: Global) -> DirtyFile
        ensures { result ≡ clean }
    {
        DirtyFile {
            spans: SpanSet::new(alloc),
            length: None,
        }
    }

    /// Whether nothing is dirty.
    pub(crate) fn is_clean(&self) -> bool
        ensures { result ≡ is_clean self.now }
    {
        self.spans.spans().len() == 0 && self.length.is_none()
    }

    /// Makes the positions of a span dirty. On an error nothing changes.
    pub(crate) fn add(&mut self, span: Span) -> Result<(), NoMemory>
        ensures ok { OnOk result (AddsTo self.old span self.new) }
        ensures err { OnErr result (self.new ≡ self.old) }
    {
        self.spans.add(span)
    }

    /// Makes the positions of a span clean. On an error nothing changes.
    pub(crate) fn cut(&mut self, span: Span) -> Result<(), NoMemory>
        ensures ok { OnOk result (CutsFrom self.old span self.new) }
        ensures err { OnErr result (self.new ≡ self.old) }
    {
        self.spans.cut(span)
    }
}

impl Plain for DirtyFile {
    fn copy(&self) -> Result<DirtyFile, NoMemory> {
        Ok(DirtyFile {
            spans: self.spans.copy()?,
            length: self.length,
        })
    }
}

pub(crate) fn key_of(fid: Fid) -> FileKey
    ensures { result ≡ key_of fid }
{
    (fid.fileset.0, (fid.anode, fid.unique))
}

pub(crate) fn fid_of(key: FileKey) -> Fid
    ensures { result ≡ fid_of key }
{
    let (fileset, (anode, unique)) = key;
    Fid {
        fileset: FilesetId(fileset),
        anode,
        unique,
    }
}
