//! What hosts give back of files.
ghost use Rattle.std.specs.Prelude.{◌≡◌, false, not, IfOk, OnOk, OnErr};
ghost use Rattle.std.specs.Option.{option_map, option_map_or};
ghost use Rattle.tree_objects.specs.Objects.{is_dir};
ghost use Rattle.store_state.specs.State.{is_of, slot_so, with_held};
ghost use Rattle.tree_filesets.specs.Laws.{is_file_at};
ghost use Rattle.tree_filesets.specs.Updates.{changed};
ghost use Rattle.tree_filesets.specs.Walk.{object_at, unique_at};
ghost use Rattle.tree_objects.specs.Changes.{anode_changed};
ghost use Rattle.store_state.specs.Giving.{put_bytes, put_pieces, lengthened, content_given, held_given, give_outcome};

use crate::done::Done;
use crate::finding::{Sought, slot_of};
use crate::numbers::Noted;
use crate::state::{Holding, StoreState};
use base_types::{Fid, HostId, Items, NoMemory};
use std::mem;
use tree_calls::{Piece, Reply};
use tree_filesets::{Fileset, object_at};
use tree_objects::{Anode, Content};

// Puts bytes over those of a file from a position on; none behind its end.
fn put_bytes(kept: &mut Items<u8>, at: u32, bytes: &[u8])
    ensures { kept.new ≡ put_bytes kept.old at bytes.now }
{
    for (i, value) in bytes.iter().enumerate() {
        kept.put(at as usize + i, *value);
    }
}

/// Puts pieces over them, one after the other.
pub fn put_pieces(kept: &mut Items<u8>, pieces: &[Piece])
    ensures { kept.new ≡ put_pieces kept.old pieces.now }
{
    for piece in pieces {
        put_bytes(kept, piece.from, piece.bytes.as_slice());
    }
}

// Makes a file longer, where the length that is given is above its own; new bytes are zero.
fn lengthen(kept: &mut Items<u8>, given: Option<u32>) -> Result<(), NoMemory>
    ensures ok { OnOk result (kept.new ≡ lengthened kept.old given) }
    ensures err { OnErr result (kept.new ≡ kept.old) }
{
    let end = given.map_or(0, |given| given as usize).max(kept.len());
    let alloc = kept.alloc();
    let mut bytes = mem::replace(kept, Items::new(alloc)).into_vec();
    let grown = bytes.resize(end, 0);
    *kept = Items::from_vec(bytes);
    grown?;
    Ok(())
}

fn give_content(content: &mut Content, pieces: &[Piece], given: Option<u32>) -> Result<(), NoMemory>
    ensures ok { OnOk result (content.new ≡ content_given pieces.now given content.old) }
    ensures err { OnErr result (content.new ≡ content.old) }
{
    if let Content::File { kept, .. } = content {
        lengthen(kept, given)?;
        put_pieces(kept, pieces);
    }
    Ok(())
}

fn give_anode(anode: &mut Anode, pieces: &[Piece], given: Option<u32>) -> Result<(), NoMemory>
    ensures ok { OnOk result (anode.new ≡ anode_changed (content_given pieces.now given) anode.old) }
    ensures err { OnErr result (anode.new ≡ anode.old) }
{
    if let Some(object) = &mut anode.object {
        give_content(&mut object.content, pieces, given)?;
    }
    Ok(())
}

#[tactic(auto, using(base_types::proofs::ChangedLists::changes), unfolding(tree_filesets::specs::Updates::updated))]
fn give_fileset(
    fileset: &mut Fileset,
    anode: u32,
    pieces: &[Piece],
    given: Option<u32>,
) -> Result<(), NoMemory>
    ensures ok { OnOk result (fileset.new ≡ changed fileset.old anode (content_given pieces.now given)) }
    ensures err { OnErr result (fileset.new ≡ fileset.old) }
{
    let place = anode.saturating_sub(1) as usize;
    if place < fileset.anodes.len() {
        give_anode(fileset.anodes.get_mut(place), pieces, given)?;
    }
    Ok(())
}

/// How often an anode has been used.
pub fn unique_at(anodes: &Items<Anode>, anode: u32) -> u32
    ensures { result ≡ unique_at anodes.now anode }
{
    match anodes.at(anode.saturating_sub(1) as usize) {
        Some(anode) => anode.unique,
        None => 0,
    }
}

fn is_file(anodes: &Items<Anode>, anode: u32) -> bool
    ensures { result ≡ option_map_or (λ object. not (is_dir object.content)) (object_at anodes.now anode) false }
{
    match object_at(anodes, anode) {
        Some(object) => !object.is_dir(),
        None => false,
    }
}

// Whether a fid names a file that is there.
fn is_file_at(fileset: &Fileset, fid: Fid) -> bool
    ensures { result ≡ is_file_at fileset.now fid }
{
    unique_at(&fileset.anodes, fid.anode) == fid.unique && is_file(&fileset.anodes, fid.anode)
}

fn give_at(
    slot: &mut Option<Holding>,
    fid: Fid,
    pieces: &[Piece],
    given: Option<u32>,
) -> Result<(), NoMemory>
    ensures ok { OnOk result (slot.new ≡ option_map (held_given fid pieces.now given) slot.old) }
    ensures err { OnErr result (slot.new ≡ slot.old) }
{
    if let Some(holding) = slot {
        if holding.stay.is_writable() && is_file_at(&holding.fileset, fid) {
            give_fileset(&mut holding.fileset, fid.anode, pieces, given)?;
        }
    }
    Ok(())
}

impl StoreState {
    // Gives to the file that a fid names.
    #[tactic(auto, using(base_types::proofs::ChangedLists::changes))]
    fn give_to(&mut self, fid: Fid, pieces: &[Piece], given: Option<u32>) -> Result<(), NoMemory>
        ensures ok { OnOk result (self.new
            ≡ with_held self.old (slot_so (is_of fid.fileset) self.old.slots) (held_given fid pieces.now given)) }
        ensures err { OnErr result (self.new ≡ self.old) }
    {
        let place = slot_of(&self.slots, &Sought::Of(fid.fileset));
        if place < self.slots.len() {
            give_at(self.slots.get_mut(place), fid, pieces, given)?;
        }
        Ok(())
    }

    /// A host gives back what it changed of a file: a length where it has one, and pieces. Bytes behind the length that
    /// the file has then are left out. `NoMemory` comes where memory runs out, and leaves all as it was.
    #[tactic(auto, unfolding(crate::specs::Giving::give_outcome))]
    pub fn give(
        &mut self,
        host: HostId,
        number: u64,
        fid: Fid,
        pieces: &[Piece],
        given: Option<u32>,
    ) -> Result<Done, NoMemory>
        ensures done { IfOk result (λ done. done ≡ (give_outcome self.old host number fid pieces.now given).done) }
        ensures state { OnOk result (self.new ≡ (give_outcome self.old host number fid pieces.now given).state) }
        ensures err { OnErr result (self.new ≡ self.old) }
    {
        if let Some(done) = self.applied_before(fid.fileset, host, number) {
            return Ok(done);
        }
        self.give_to(fid, pieces, given)?;
        self.note(fid.fileset, host, &Noted::Give(number));
        Ok(Done::now(Reply::Ok))
    }
}
