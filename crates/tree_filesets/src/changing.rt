//! The rows of the call table that change one object.
ghost use Rattle.std.specs.Prelude.{◌≡◌, ◌+◌, ◌≤◌, length, OnOk, OnErr};
ghost use Rattle.base_types.specs.declared.limits.TheConstants.{FILE_BYTES_MAX};
ghost use Rattle.tree_objects.specs.Changes.{content_written, content_truncated};
ghost use Rattle.tree_objects.specs.Stores.{content_synced};
ghost use Rattle.tree_objects.specs.Objects.{content_with_list};
ghost use Rattle.tree_filesets.specs.Answers.{IsAnswer};
ghost use Rattle.tree_filesets.specs.Changing.{
  write_target,
  write_answer,
  truncate_answer,
  sync_answer,
  set_access_target,
  set_access_answer,
};
ghost use Rattle.tree_filesets.specs.Updates.{changed};

use crate::checks::permission;
use crate::fileset::Fileset;
use crate::outcome::NotDone;
use base_types::{AccessList, FILE_BYTES_MAX, HostId, Items, Name, Plain, Rights, User};
use tree_calls::{Refusal, Reply, Which};

impl Fileset {
    /// Write: bytes of a file from the position `from` on, as unsaved changes of a host.
    #[tactic(auto, using(crate::proofs::Updates::changes), unfolding(crate::specs::Changing::write_answer, crate::specs::Updates::updated))]
    pub(crate) fn write(
        &mut self,
        host: HostId,
        user: &User,
        path: &[Name],
        from: u32,
        bytes: &Items<u8>,
    ) -> Result<Reply, NotDone>
        ensures { IsAnswer result (write_answer self.old host user.now path.now from bytes.now) self.old self.new }
    {
        let anode = self.write_target(user, path, from, bytes.len())?;
        if let Some(anode) = self.anode_mut(anode) {
            anode.write(host, from, bytes)?;
        }
        Ok(Reply::Ok)
    }

    /// Truncate: the unsaved changes of a file become kept, and then its length is `len` bytes.
    #[tactic(auto, using(crate::proofs::Updates::changes), unfolding(crate::specs::Changing::truncate_answer, crate::specs::Updates::updated))]
    pub(crate) fn truncate(
        &mut self,
        user: &User,
        path: &[Name],
        len: u32,
    ) -> Result<Reply, NotDone>
        ensures { IsAnswer result (truncate_answer self.old user.now path.now len) self.old self.new }
    {
        let anode = self.write_target(user, path, len, 0)?;
        if let Some(anode) = self.anode_mut(anode) {
            anode.truncate(len)?;
        }
        Ok(Reply::Ok)
    }

    /// Sync: the unsaved changes of a host to a file become kept.
    #[tactic(auto, using(crate::proofs::Updates::changes), unfolding(crate::specs::Changing::sync_answer, crate::specs::Updates::updated))]
    pub(crate) fn sync(
        &mut self,
        host: HostId,
        user: &User,
        path: &[Name],
    ) -> Result<Reply, NotDone>
        ensures { IsAnswer result (sync_answer self.old host user.now path.now) self.old self.new }
    {
        let (anode, _) = self.file_target(user, path)?;
        if let Some(anode) = self.anode_mut(anode) {
            anode.sync(host)?;
        }
        Ok(Reply::Ok)
    }

    /// SetAcl: replaces an access list of an object.
    #[tactic(auto, using(crate::proofs::Updates::changes), unfolding(crate::specs::Changing::set_access_answer, crate::specs::Updates::updated))]
    pub(crate) fn set_access(
        &mut self,
        user: &User,
        path: &[Name],
        which: Which,
        list: &AccessList,
    ) -> Result<Reply, NotDone>
        ensures { IsAnswer result (set_access_answer self.old user.now path.now which list.now) self.old self.new }
    {
        let anode = self.set_access_target(user, path, which)?;
        let list = list.copy()?;
        if let Some(anode) = self.anode_mut(anode) {
            anode.set_list(which, list);
        }
        Ok(Reply::Ok)
    }

    // The file that the user may write, where `len` bytes from `from` on end in time.
    #[tactic(auto, unfolding(crate::specs::Changing::write_target))]
    pub(crate) fn write_target(
        &self,
        user: &User,
        path: &[Name],
        from: u32,
        len: usize,
    ) -> Result<u32, Refusal>
        ensures target { result ≡ write_target self.now user.now path.now (from + len) }
        ensures end { OnOk result (from + len ≤ FILE_BYTES_MAX) }
    {
        if self.read_only {
            return Err(Refusal::ReadOnly);
        }
        let (anode, _) = self.permitted_file(user, path, Rights::WRITE)?;
        let most = FILE_BYTES_MAX.saturating_sub(from) as usize;
        if from > FILE_BYTES_MAX || len > most {
            return Err(Refusal::TooBig);
        }
        Ok(anode)
    }

    // The object of which the user may replace this list.
    #[tactic(auto, unfolding(crate::specs::Changing::set_access_target))]
    pub(crate) fn set_access_target(
        &self,
        user: &User,
        path: &[Name],
        which: Which,
    ) -> Result<u32, Refusal>
        ensures { result ≡ set_access_target self.now user.now path.now which }
    {
        if self.read_only {
            return Err(Refusal::ReadOnly);
        }
        let (anode, object) = self.target(user, path)?;
        object.access(which)?;
        permission(object, user, Rights::CONTROL)?;
        Ok(anode)
    }
}
