//! The rows of the call table that change nothing.
ghost use Rattle.std.specs.Prelude.{◌≡◌, Ok, Err, MatchResult};
ghost use Rattle.tree_filesets.specs.Answers.{IsAnswer, unchanged};
ghost use Rattle.tree_filesets.specs.Telling.{read_reply, list_target, list_reply, stat_reply, access_reply};

use crate::checks::permission;
use crate::fileset::Fileset;
use crate::outcome::NotDone;
use base_types::{Items, Name, Plain, Rights, User};
use tree_calls::{DirEntry, Refusal, Reply, Which};
use tree_objects::names_of;

impl Fileset {
    /// Read: the present bytes of a file from the position `from` on, at most `len`.
    #[tactic(auto, unfolding(crate::specs::Telling::read_reply))]
    pub(crate) fn read(
        &self,
        user: &User,
        path: &[Name],
        from: u32,
        len: u32,
    ) -> Result<Reply, NotDone>
        ensures { IsAnswer result
            (unchanged self.now (read_reply self.now user.now path.now from len)) self.now self.now }
    {
        let (_, object) = self.permitted_file(user, path, Rights::READ)?;
        Ok(Reply::Bytes(object.read(from, len)?))
    }

    /// List: the names in a directory, in the order of their bytes.
    #[tactic(auto, unfolding(crate::specs::Telling::list_reply))]
    pub(crate) fn list(&self, user: &User, path: &[Name]) -> Result<Reply, NotDone>
        ensures { IsAnswer result (unchanged self.now (list_reply self.now user.now path.now)) self.now self.now }
    {
        let entries = self.list_target(user, path)?;
        Ok(Reply::Names(names_of(entries)?))
    }

    // The entries of a directory that the user may read.
    #[tactic(auto, unfolding(crate::specs::Telling::list_target))]
    fn list_target(&self, user: &User, path: &[Name]) -> Result<&Items<DirEntry>, Refusal>
        ensures { MatchResult result (λ entries. list_target self.now user.now path.now ≡ Ok entries.now)
            (λ refusal. list_target self.now user.now path.now ≡ Err refusal) }
    {
        let (_, object) = self.target(user, path)?;
        let entries = object.entries()?;
        permission(object, user, Rights::READ)?;
        Ok(entries)
    }

    /// Stat: the kind, present length, owner and the user's rights of an object.
    #[tactic(auto, unfolding(crate::specs::Telling::stat_reply))]
    pub(crate) fn stat(&self, user: &User, path: &[Name]) -> Result<Reply, NotDone>
        ensures { IsAnswer result (unchanged self.now (stat_reply self.now user.now path.now)) self.now self.now }
    {
        let (_, object) = self.target(user, path)?;
        Ok(Reply::Facts(object.facts(user)?))
    }

    /// GetAcl: an access list of an object.
    #[tactic(auto, unfolding(crate::specs::Telling::access_reply))]
    pub(crate) fn access(&self, user: &User, path: &[Name], which: Which) -> Result<Reply, NotDone>
        ensures { IsAnswer result
            (unchanged self.now (access_reply self.now user.now path.now which)) self.now self.now }
    {
        let (_, object) = self.target(user, path)?;
        let list = object.access(which)?;
        Ok(Reply::Access(list.copy()?))
    }
}
