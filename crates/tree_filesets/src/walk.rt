ghost use Rattle.std.specs.Prelude.{◌≡◌, Ok, Err, MatchResult};
ghost use Rattle.tree_filesets.specs.Answers.{FindsAt};
ghost use Rattle.tree_filesets.specs.Walk.{
  step,
  walk,
  passes,
  target,
  file_target,
  permitted_file,
  parent_target,
  insert_target,
  entry_target,
};

use crate::checks::permission;
use crate::fileset::{Fileset, object_at};
use base_types::{Items, Name, Rights, User};
use tree_calls::{DirEntry, Refusal};
use tree_objects::{Object, entry_named};

/// The anode of the root.
pub(crate) const ROOT: u32 = 1;

impl Fileset {
    // The anode that a path leads a user to.
    fn walk(&self, user: &User, path: &[Name]) -> Result<u32, Refusal>
        ensures { result ≡ walk self.now.anodes user.now 1 path.now }
    {
        let mut at = ROOT;
        for name in path {
            at = self.step(user, at, name)?;
        }
        Ok(at)
    }

    // The anode that a name leads a user to, in the directory at an anode.
    #[tactic(auto, unfolding(crate::specs::Walk::step))]
    fn step(&self, user: &User, at: u32, name: &Name) -> Result<u32, Refusal>
        ensures { result ≡ step self.now.anodes user.now at name.now }
    {
        let Some(object) = object_at(&self.anodes, at) else {
            return Err(Refusal::NoEntry);
        };
        let entries = object.entered(user)?;
        match entry_named(entries, name) {
            Some(entry) => Ok(entry.anode),
            None => Err(Refusal::NoEntry),
        }
    }

    // Whether an anode stands on the way that a path leads a user.
    pub(crate) fn passes(&self, user: &User, path: &[Name], anode: u32) -> bool
        ensures { result ≡ passes self.now.anodes user.now 1 path.now anode }
    {
        let mut at = ROOT;
        for name in path {
            if at == anode {
                return true;
            }
            match self.step(user, at, name) {
                Ok(next) => at = next,
                Err(_) => return false,
            }
        }
        at == anode
    }

    // Where a path leads a user, and the object there.
    #[tactic(auto, unfolding(crate::specs::Walk::target))]
    pub(crate) fn target(&self, user: &User, path: &[Name]) -> Result<(u32, &Object), Refusal>
        ensures { FindsAt result (target self.now user.now path.now) }
    {
        let anode = self.walk(user, path)?;
        match object_at(&self.anodes, anode) {
            Some(object) => Ok((anode, object)),
            None => Err(Refusal::NoEntry),
        }
    }

    // The file that a path leads a user to.
    #[tactic(auto, unfolding(crate::specs::Walk::file_target))]
    pub(crate) fn file_target(&self, user: &User, path: &[Name]) -> Result<(u32, &Object), Refusal>
        ensures { FindsAt result (file_target self.now user.now path.now) }
    {
        let (anode, object) = self.target(user, path)?;
        if object.is_dir() {
            return Err(Refusal::IsDir);
        }
        Ok((anode, object))
    }

    // The file that a path leads a user to, who has this right on it.
    #[tactic(auto, unfolding(crate::specs::Walk::permitted_file))]
    pub(crate) fn permitted_file(
        &self,
        user: &User,
        path: &[Name],
        right: Rights,
    ) -> Result<(u32, &Object), Refusal>
        ensures { FindsAt result (permitted_file self.now user.now path.now right) }
    {
        let (anode, object) = self.file_target(user, path)?;
        permission(object, user, right)?;
        Ok((anode, object))
    }

    // The directory that a path leads a user to, who may search it and has this right in it.
    #[tactic(auto, unfolding(crate::specs::Walk::parent_target))]
    fn parent_target(
        &self,
        user: &User,
        front: &[Name],
        right: Rights,
    ) -> Result<(u32, &Object, &Items<DirEntry>), Refusal>
        ensures { MatchResult result (λ found.
            parent_target self.now user.now front.now right ≡ Ok (found.0, found.1.now, found.2.now))
            (λ refusal. parent_target self.now user.now front.now right ≡ Err refusal) }
    {
        let (anode, object) = self.target(user, front)?;
        let entries = object.entered(user)?;
        permission(object, user, right)?;
        Ok((anode, object, entries))
    }

    // The directory that takes an entry of this name from a user.
    #[tactic(auto, unfolding(crate::specs::Walk::insert_target))]
    pub(crate) fn insert_target(
        &self,
        user: &User,
        front: &[Name],
        name: &Name,
    ) -> Result<(u32, &Object), Refusal>
        ensures { FindsAt result (insert_target self.now user.now front.now name.now) }
    {
        let (parent, object, entries) = self.parent_target(user, front, Rights::INSERT)?;
        if entry_named(entries, name).is_some() {
            return Err(Refusal::Exists);
        }
        Ok((parent, object))
    }

    // The directory that loses its entry of this name to a user, and the entry.
    #[tactic(auto, unfolding(crate::specs::Walk::entry_target))]
    pub(crate) fn entry_target(
        &self,
        user: &User,
        front: &[Name],
        name: &Name,
    ) -> Result<(u32, &DirEntry), Refusal>
        ensures { FindsAt result (entry_target self.now user.now front.now name.now) }
    {
        let (parent, _, entries) = self.parent_target(user, front, Rights::DELETE)?;
        match entry_named(entries, name) {
            Some(entry) => Ok((parent, entry)),
            None => Err(Refusal::NoEntry),
        }
    }
}
