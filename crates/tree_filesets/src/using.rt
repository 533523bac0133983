//! The files that locks and opens name.
ghost use Rattle.std.specs.Prelude.{◌≡◌};
ghost use Rattle.tree_filesets.specs.Walk.{unique_at};
ghost use Rattle.tree_filesets.specs.Uses.{use_target, lock_target, open_target, is_changing, right_to_open};

use crate::checks::permission;
use crate::fileset::Fileset;
use base_types::{Fid, Name, OpenKind, Rights, User};
use tree_calls::Refusal;

impl Fileset {
    /// The file that a user may lock, for reading or for writing, which needs that right on it. `NotDir`, `Denied` of
    /// execution and `NoEntry` come from the walk along the path, `IsDir` where it leads to a directory, `ReadOnly`
    /// where a clone's file is to be locked for writing, and then `Denied`.
    pub fn lock_target(&self, user: &User, path: &[Name], writing: bool) -> Result<Fid, Refusal>
        ensures { result ≡ lock_target self.now user.now path.now writing }
    {
        let right = if writing { Rights::WRITE } else { Rights::READ };
        self.use_target(user, path, writing, right)
    }

    /// The file that a user may open so: that needs the right to read it for `Reading` and `Shared`, to write it for
    /// `Writing` and `Exclusive`, and to execute it for `Executing`. The refusals are those of `lock_target`, with
    /// `ReadOnly` where a clone's file is to be opened for writing or exclusively.
    pub fn open_target(&self, user: &User, path: &[Name], kind: OpenKind) -> Result<Fid, Refusal>
        ensures { result ≡ open_target self.now user.now path.now kind }
    {
        self.use_target(user, path, is_changing(kind), right_to_open(kind))
    }

    // The file to be used so, which is to be changed or not.
    #[tactic(auto, unfolding(crate::specs::Uses::use_target))]
    fn use_target(
        &self,
        user: &User,
        path: &[Name],
        changing: bool,
        right: Rights,
    ) -> Result<Fid, Refusal>
        ensures { result ≡ use_target self.now user.now path.now changing right }
    {
        let (anode, object) = self.file_target(user, path)?;
        if changing && self.read_only {
            return Err(Refusal::ReadOnly);
        }
        permission(object, user, right)?;
        Ok(Fid {
            fileset: self.id,
            anode,
            unique: self.unique_at(anode),
        })
    }

    // How often an anode has been used.
    fn unique_at(&self, anode: u32) -> u32
        ensures { result ≡ unique_at self.now.anodes anode }
    {
        match self.anodes.at(anode.saturating_sub(1) as usize) {
            Some(anode) => anode.unique,
            None => 0,
        }
    }
}

// Whether a file that is opened so is to be changed.
fn is_changing(kind: OpenKind) -> bool
    ensures { result ≡ is_changing kind }
{
    matches!(kind, OpenKind::Writing | OpenKind::Exclusive)
}

// The right that an open of this kind needs.
fn right_to_open(kind: OpenKind) -> Rights
    ensures { result ≡ right_to_open kind }
{
    match kind {
        OpenKind::Reading | OpenKind::Shared => Rights::READ,
        OpenKind::Writing | OpenKind::Exclusive => Rights::WRITE,
        OpenKind::Executing => Rights::EXECUTE,
    }
}
