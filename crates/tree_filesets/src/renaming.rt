//! Rename.
ghost use Rattle.tree_filesets.specs.Answers.{IsAnswer, IsFound};
ghost use Rattle.tree_filesets.specs.Renaming.{rename_target, rename_answer};

use crate::checks::split_path;
use crate::fileset::Fileset;
use crate::outcome::NotDone;
use base_types::{Name, Plain, User};
use tree_calls::{DirEntry, Refusal, Reply};

/// An entry on its way from the directory at one anode, and its name there, to the one at another.
#[derive(Drop)]
pub struct Move {
    /// The anode of the directory that it leaves.
    pub from: u32,
    /// Its name there.
    pub name: Name,
    /// The anode of the directory that it goes to.
    pub to: u32,
    /// The entry with its name in that directory.
    pub entry: DirEntry,
}

impl Fileset {
    /// Rename: a file or directory moves, with all that is below it.
    #[tactic(auto, unfolding(crate::specs::Renaming::rename_answer))]
    pub(crate) fn rename(
        &mut self,
        user: &User,
        from: &[Name],
        to: &[Name],
    ) -> Result<Reply, NotDone>
        ensures { IsAnswer result (rename_answer self.old user.now from.now to.now) self.old self.new }
    {
        let Move {
            from,
            name,
            to,
            entry,
        } = self.rename_target(user, from, to)?;
        self.insert_entry_at(to, entry)?;
        self.drop_entry_at(from, &name);
        Ok(Reply::Ok)
    }

    // The entry that the user may move.
    #[tactic(auto, unfolding(crate::specs::Renaming::rename_target))]
    pub(crate) fn rename_target(
        &self,
        user: &User,
        from: &[Name],
        to: &[Name],
    ) -> Result<Move, NotDone>
        ensures { IsFound result (rename_target self.now user.now from.now to.now) }
    {
        if self.read_only {
            return Err(NotDone::Refused(Refusal::ReadOnly));
        }
        let (name, front) = split_path(from, Refusal::Loop)?;
        let (new_name, new_front) = split_path(to, Refusal::Exists)?;
        let (parent, entry) = self.entry_target(user, front, name)?;
        let (new_parent, _) = self.insert_target(user, new_front, new_name)?;
        if self.passes(user, new_front, entry.anode) {
            return Err(NotDone::Refused(Refusal::Loop));
        }
        let entry = DirEntry {
            name: new_name.copy()?,
            anode: entry.anode,
            unique: entry.unique,
        };
        Ok(Move {
            from: parent,
            name: name.copy()?,
            to: new_parent,
            entry,
        })
    }
}
