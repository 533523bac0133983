//! What each call looks at, behind the root of its fileset.
ghost use Rattle.std.specs.Prelude.{◌≡◌, ◌≤◌, ◌<◌, ◌+◌, ◌&&◌, ◌∷◌, [], ℕ, false, length, slice_get};
ghost use Rattle.std.specs.Prelude.{IfOk, OnOk, Ok, MatchOption, option_copied};
ghost use Rattle.token_types.specs.Covers.{Covers, CoversBetween};
ghost use Rattle.tree_laws.specs.Parts.Part.{Size};
ghost use Rattle.tree_objects.specs.Objects.{list_index};
ghost use Rattle.tree_objects.specs.Spans.{span_between};
ghost use Rattle.tree_filesets.specs.Rights.{read_right, write_right};
ghost use Rattle.need_host.specs.Calls.{read_from, write_target_look, written_look, entries_for, list_for};
ghost use Rattle.need_host.specs.Looks.{checked, outcome};
ghost use Rattle.need_host.specs.Walks.{permitted_look, target_look, use_look, walk_look};
ghost use Rattle.host_walk.specs.Bytes.{bytes_read, byte_need, read_count, write_meant, write_needs, CoverBlocks};
ghost use Rattle.host_walk.specs.Bytes.{LacksBlock};
ghost use Rattle.host_walk.specs.Bytes.{TriesBlocks, TriesNeeds};
ghost use Rattle.host_walk.specs.Trying.{Tries, status_need};
ghost use Rattle.host_walk.specs.Views.{nature_told, held_by, view_of};

use crate::needs::{
    blocks_around, bytes_need, bytes_to_read, bytes_to_write, end_of, length_need, positions,
};
use crate::sight::{Sight, Stop};
use base_types::{AccessList, FILE_BYTES_MAX, Fid, Name, Rights, Span, TOKEN_BYTES};
use host_cache::Cache;
use token_types::Need;
use tree_calls::{DirEntry, Refusal, Status, Which};

impl<'a> Sight<'a> {
    /// Read: the file, and the positions that are read.
    pub fn read(&self, root: Fid, path: &[Name], from: u32, len: u32) -> Result<(Fid, Span), Stop>
        ensures tried { Tries self.now.cache.now
            (checked (permitted_look self.now.user.now root path.now read_right) (read_from from len))
            (λ found. bytes_read (view_of self.now.cache.now) from len found.0) result }
        ensures found { IfOk result (λ found.
            outcome (view_of self.now.cache.now) (walk_look self.now.user.now root path.now) ≡ Ok found.0) }
        ensures span { IfOk result (λ found. found.1
            ≡ span_between from (from + read_count from len (view_of self.now.cache.now found.0 Size))) }
        ensures covered { IfOk result (λ found.
            CoversBetween (held_by self.now.cache.now) found.0 false found.1.from found.1.to) }
    {
        let (fid, status) = self.file_for(root, path, Rights::READ)?;
        let span = bytes_to_read(from, len, status.length);
        self.blocks(fid, span)?;
        Ok((fid, span))
    }

    // Whether the tokens cover the blocks around these positions for reading.
    fn blocks(&self, fid: Fid, span: Span) -> Result<(), Stop>
        ensures { TriesBlocks (held_by self.now.cache.now) fid span.from span.to result }
    {
        if span.is_empty() {
            return Ok(());
        }
        let around = blocks_around(span.from, span.to);
        if self.cache.covers(&bytes_need(fid, false, around)) {
            return Ok(());
        }
        match first_lack(self.cache, fid, span) {
            Some(need) => Err(Stop::Lacks(need)),
            None => Ok(()),
        }
    }

    /// Write: the file; None where there is nothing to write.
    pub fn write(
        &self,
        root: Fid,
        path: &[Name],
        from: u32,
        bytes: &[u8],
    ) -> Result<Option<Fid>, Stop>
        ensures { Tries self.now.cache.now
            (checked (write_target_look self.now.user.now root path.now (from + length bytes.now))
            (written_look from bytes.now))
            (write_meant from bytes.now) result }
    {
        let to = end_of(from, bytes.len());
        let (fid, status) = self.write_target(root, path, to)?;
        if bytes.is_empty() {
            return Ok(None);
        }
        self.writable(fid, from, to, status.length)?;
        Ok(Some(fid))
    }

    // The file that is to be written up to this position, and its status.
    fn write_target(&self, root: Fid, path: &[Name], to: u32) -> Result<(Fid, &'a Status), Stop>
        ensures tried { Tries self.now.cache.now (write_target_look self.now.user.now root path.now to)
            (λ found. found.0) result }
        ensures covered { IfOk result (λ found. Covers (held_by self.now.cache.now) (status_need found.0)) }
        ensures size { IfOk result (λ found. view_of self.now.cache.now found.0 Size ≡ found.1.now.length) }
        ensures fits { OnOk result (to ≤ 65536) }
    {
        let top = self.status(root)?;
        if top.read_only {
            return Err(Stop::Refused(Refusal::ReadOnly));
        }
        let found = self.file_for(root, path, Rights::WRITE)?;
        if to > FILE_BYTES_MAX {
            return Err(Stop::Refused(Refusal::TooBig));
        }
        Ok(found)
    }

    // Whether the tokens cover a write, of a file of this length.
    fn writable(&self, fid: Fid, from: u32, to: u32, length: u32) -> Result<(), Stop>
        ensures { TriesNeeds (held_by self.now.cache.now) (write_needs fid from to length) result }
    {
        let blocks = bytes_need(fid, true, bytes_to_write(from, to, length));
        if length < to {
            return self.both(length_need(fid), blocks);
        }
        self.covered(blocks)
    }

    // Whether the tokens cover one need and then another.
    fn both(&self, first: Need, second: Need) -> Result<(), Stop>
        ensures { TriesNeeds (held_by self.now.cache.now) (first ∷ second ∷ []) result }
    {
        match self.covered(first) {
            Ok(()) => self.covered(second),
            Err(stop) => Err(stop),
        }
    }

    /// List: the directory, and its entries.
    pub fn list(&self, root: Fid, path: &[Name]) -> Result<(Fid, &'a [DirEntry]), Stop>
        ensures tried { Tries self.now.cache.now
            (checked (target_look self.now.user.now root path.now) (entries_for self.now.user.now))
            (λ found. found.1.now) result }
        ensures found { IfOk result (λ found.
            outcome (view_of self.now.cache.now) (walk_look self.now.user.now root path.now) ≡ Ok found.0) }
    {
        let (fid, status) = self.target(root, path)?;
        let entries = self.entries(fid, status, Rights::READ)?;
        Ok((fid, entries))
    }

    /// GetAcl: the object, and its list.
    pub fn access(
        &self,
        root: Fid,
        path: &[Name],
        which: Which,
    ) -> Result<(Fid, &'a AccessList), Stop>
        ensures tried { Tries self.now.cache.now
            (checked (target_look self.now.user.now root path.now) (list_for which))
            (λ found. found.1.now) result }
        ensures found { IfOk result (λ found.
            outcome (view_of self.now.cache.now) (walk_look self.now.user.now root path.now) ≡ Ok found.0) }
    {
        let (fid, status) = self.target(root, path)?;
        match list_of(status, which) {
            Some(list) => Ok((fid, list)),
            None => Err(Stop::Refused(Refusal::NotDir)),
        }
    }

    /// Lock and OpenFile: the file that is to be used, with this right, and to be changed or not.
    pub fn usable(
        &self,
        root: Fid,
        path: &[Name],
        changing: bool,
        right: Rights,
    ) -> Result<Fid, Stop>
        ensures { Tries self.now.cache.now (use_look self.now.user.now root path.now changing right)
            (λ fid. fid) result }
    {
        let (fid, status) = self.file(root, path)?;
        if is_barred(status, changing) {
            return Err(Stop::Refused(Refusal::ReadOnly));
        }
        self.permitted(status, right)?;
        Ok(fid)
    }
}

// The need of the first block around these positions that the tokens don't cover for reading.
fn first_lack(cache: &Cache, fid: Fid, span: Span) -> Option<Need>
    requires { span.from < span.to }
    ensures { MatchOption result (CoverBlocks (held_by cache.now) fid span.from span.to)
        (λ need. (at : ℕ) × LacksBlock (held_by cache.now) fid span.from span.to at × (need ≡ byte_need fid at)) }
{
    for block in span.from / TOKEN_BYTES..span.to.div_ceil(TOKEN_BYTES) {
        let from = block.saturating_mul(TOKEN_BYTES);
        let around = positions(from, from.saturating_add(TOKEN_BYTES));
        let need = bytes_need(fid, false, around);
        if !cache.covers(&need) {
            return Some(need);
        }
    }
    None
}

// Whether an object can't be used because it is to be changed, and is a clone's.
fn is_barred(status: &Status, changing: bool) -> bool
    ensures { result ≡ (changing && status.now.read_only) }
{
    changing && status.read_only
}

/// An access list of an object.
pub fn list_of(status: &Status, which: Which) -> Option<&AccessList>
    ensures { option_copied result ≡ slice_get status.now.lists (list_index which) }
{
    let place = match which {
        Which::Own => 0,
        Which::Files => 1,
        Which::Dirs => 2,
    };
    status.lists.at(place)
}
