ghost use Rattle.std.specs.Prelude.{◌≡◌, ◌==◌, nat_eq, if◌then◌else◌, map, IfOk, OnOk, OnErr};
ghost use Rattle.tree_objects.specs.Changes.{anode_changed, content_forgotten};
ghost use Rattle.tree_answers.specs.Losses.{fileset_forgotten, is_at, left_held, down_tree, losses_of};

use crate::tree::Tree;
use crate::uses::Held;
use base_types::{FilesetId, HostId, Items, NoMemory, ServerId};
use tree_calls::Loss;
use tree_filesets::Fileset;
use tree_objects::Anode;

impl Tree {
    /// A server learns that a host is down: the host's unsaved changes, locks and open files on the server's filesets
    /// go. Tells what is lost: in the order of the paths, of each file the bytes that stand together, and then its
    /// length.
    #[tactic(auto, unfolding(crate::specs::Losses::down_tree))]
    pub fn down(&mut self, host: HostId, server: ServerId) -> Result<Items<Loss>, NoMemory>
        ensures losses { IfOk result (λ losses. losses ≡ losses_of self.old host server) }
        ensures tree { OnOk result (self.new ≡ down_tree self.old host server) }
        ensures err { OnErr result (self.new ≡ self.old) }
    {
        let losses = self.losses_of(host, server)?;
        drop_held(&mut self.locks, &self.filesets, host, server);
        drop_held(&mut self.opens, &self.filesets, host, server);
        forget_filesets(&mut self.filesets, host, server);
        Ok(losses)
    }
}

// Whether the fileset with an id is at a server.
fn is_at(filesets: &Items<Fileset>, server: ServerId, id: FilesetId) -> bool
    ensures { result ≡ is_at filesets.now server id }
{
    filesets
        .as_slice()
        .iter()
        .any(|fileset| fileset.id == id && fileset.server == server)
}

// Lets what a host holds of files at a server go.
fn drop_held<U: Held>(all: &mut Items<U>, filesets: &Items<Fileset>, host: HostId, server: ServerId)
    ensures { all.new ≡ left_held U.hold filesets.now host server all.old }
{
    all.retain(|one| !(one.host() == host && is_at(filesets, server, one.fid().fileset)));
}

// Lets a host's unsaved changes in the filesets of a server go.
#[tactic(auto, using(crate::proofs::Mapped::maps))]
fn forget_filesets(filesets: &mut Items<Fileset>, host: HostId, server: ServerId)
    ensures { filesets.new ≡ map
        (λ fileset. if fileset.server.0 == server.0 then fileset_forgotten host fileset else fileset) filesets.old }
{
    for place in 0..filesets.len() {
        forget_at(filesets.get_mut(place), host, server);
    }
}

fn forget_at(fileset: &mut Fileset, host: HostId, server: ServerId)
    ensures { fileset.new
        ≡ (if fileset.old.server.0 == server.0 then fileset_forgotten host fileset.old else fileset.old) }
{
    if fileset.server == server {
        forget_anodes(&mut fileset.anodes, host);
    }
}

#[tactic(auto, using(crate::proofs::Mapped::maps))]
fn forget_anodes(anodes: &mut Items<Anode>, host: HostId)
    ensures { anodes.new ≡ map (anode_changed (content_forgotten host)) anodes.old }
{
    for place in 0..anodes.len() {
        anodes.get_mut(place).forget(host);
    }
}
