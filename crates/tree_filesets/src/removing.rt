//! Remove.
ghost use Rattle.std.specs.Prelude.{◌≡◌, Ok, Err, MatchResult};
ghost use Rattle.tree_objects.specs.Changes.{anode_freed};
ghost use Rattle.tree_objects.specs.Entries.{content_without_entry};
ghost use Rattle.tree_filesets.specs.Answers.{IsAnswer};
ghost use Rattle.tree_filesets.specs.Removal.{has_entries, remove_target, remove_answer};
ghost use Rattle.tree_filesets.specs.Updates.{changed, updated};

use crate::checks::split_path;
use crate::fileset::{Fileset, object_at};
use crate::outcome::NotDone;
use base_types::{Fid, Name, User};
use tree_calls::{Refusal, Reply};
use tree_objects::Object;

/// The locks and opens that are in use, of all hosts. An object that has one is not removed.
pub trait InUse {
    ghost use Rattle.std.specs.Prelude.{Bool};
    ghost use Rattle.base_types.specs.declared.ids.Fid.{Fid};

    ghost is_in_use: { Self → Fid → Bool };

    /// Whether some lock or open is on this object.
    fn is_in_use(&self, fid: Fid) -> bool
        ensures { result ≡ is_in_use self.now fid };
}

impl Fileset {
    /// Remove: a file, or an empty directory, that is not in use.
    #[tactic(auto, unfolding(crate::specs::Removal::remove_answer))]
    pub(crate) fn remove<U: InUse>(
        &mut self,
        uses: &U,
        user: &User,
        path: &[Name],
    ) -> Result<Reply, NotDone>
        ensures { IsAnswer result (remove_answer self.old (U.is_in_use uses.now) user.now path.now) self.old self.new }
    {
        let (parent, name, anode) = self.remove_target(uses, user, path)?;
        self.drop_entry_at(parent, name);
        self.free_at(anode);
        Ok(Reply::Ok)
    }

    // The directory, the name in it, and the anode of the object that the user may remove.
    #[tactic(auto, unfolding(crate::specs::Removal::remove_target))]
    pub(crate) fn remove_target<'a, U: InUse>(
        &self,
        uses: &U,
        user: &User,
        path: &'a [Name],
    ) -> Result<(u32, &'a Name, u32), Refusal>
        ensures { MatchResult result (λ found.
            remove_target self.now (U.is_in_use uses.now) user.now path.now ≡ Ok (found.0, found.1.now, found.2))
            (λ refusal. remove_target self.now (U.is_in_use uses.now) user.now path.now ≡ Err refusal) }
    {
        if self.read_only {
            return Err(Refusal::ReadOnly);
        }
        let (name, front) = split_path(path, Refusal::InUse)?;
        let (parent, entry) = self.entry_target(user, front, name)?;
        let Some(object) = object_at(&self.anodes, entry.anode) else {
            return Err(Refusal::NoEntry);
        };
        if has_entries(object) {
            return Err(Refusal::NotEmpty);
        }
        let fid = Fid {
            fileset: self.id,
            anode: entry.anode,
            unique: entry.unique,
        };
        if uses.is_in_use(fid) {
            return Err(Refusal::InUse);
        }
        Ok((parent, name, entry.anode))
    }

    // Takes the entry of a name out of the directory at an anode.
    #[tactic(auto, using(crate::proofs::Updates::changes), unfolding(crate::specs::Updates::updated))]
    pub(crate) fn drop_entry_at(&mut self, anode: u32, name: &Name)
        ensures { self.new ≡ changed self.old anode (content_without_entry name.now) }
    {
        if let Some(anode) = self.anode_mut(anode) {
            anode.drop_entry(name);
        }
    }

    // Lets the object at an anode go.
    #[tactic(auto, using(crate::proofs::Updates::changes), unfolding(crate::specs::Updates::updated))]
    fn free_at(&mut self, anode: u32)
        ensures { self.new ≡ updated self.old anode anode_freed }
    {
        if let Some(anode) = self.anode_mut(anode) {
            anode.free();
        }
    }
}

// Whether it is a directory with entries.
fn has_entries(object: &Object) -> bool
    ensures { result ≡ has_entries object.now.content }
{
    match object.entries() {
        Ok(entries) => !entries.is_empty(),
        Err(_) => false,
    }
}
