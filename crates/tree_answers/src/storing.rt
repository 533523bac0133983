ghost use Rattle.std.specs.Prelude.{◌≡◌, OnOk, OnErr};
ghost use Rattle.tree_objects.specs.Stores.{content_stored};
ghost use Rattle.tree_filesets.specs.Updates.{changed};
ghost use Rattle.tree_answers.specs.Stores.{place_with_id, stored_tree};

use crate::finding::position_with_id;
use crate::tree::Tree;
use base_types::{Fid, FilesetId, HostId, Items, NoMemory, Span};
use tree_filesets::Fileset;

impl Tree {
    /// Makes what a host wrote in these spans of a file kept, and a length in bytes where there is one. The length
    /// comes first.
    #[tactic(auto, using(base_types::proofs::ChangedLists::changes), unfolding(crate::specs::Stores::stored_tree))]
    pub fn stored(
        &mut self,
        host: HostId,
        fid: Fid,
        spans: &[Span],
        length: Option<u32>,
    ) -> Result<(), NoMemory>
        ensures ok { OnOk result (self.new ≡ stored_tree self.old host fid spans.now length) }
        ensures err { OnErr result (self.new ≡ self.old) }
    {
        let place = place_with_id(&self.filesets, fid.fileset);
        if place < self.filesets.len() {
            store_at(self.filesets.get_mut(place), fid.anode, host, spans, length)?;
        }
        Ok(())
    }
}

// The place in the list of the fileset with an id, or the end of the list.
fn place_with_id(filesets: &Items<Fileset>, id: FilesetId) -> usize
    ensures { result ≡ place_with_id filesets.now id }
{
    match position_with_id(filesets, id) {
        Some(place) => place,
        None => filesets.len(),
    }
}

#[tactic(auto, using(base_types::proofs::ChangedLists::changes), unfolding(tree_filesets::specs::Updates::updated))]
fn store_at(
    fileset: &mut Fileset,
    anode: u32,
    host: HostId,
    spans: &[Span],
    length: Option<u32>,
) -> Result<(), NoMemory>
    ensures ok { OnOk result (fileset.new ≡ changed fileset.old anode (content_stored host spans.now length)) }
    ensures err { OnErr result (fileset.new ≡ fileset.old) }
{
    let place = anode.saturating_sub(1) as usize;
    if place < fileset.anodes.len() {
        fileset.anodes.get_mut(place).store(host, spans, length)?;
    }
    Ok(())
}
