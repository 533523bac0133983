//! What a fileset would reply to a call, while it stays as it is.
ghost use Rattle.std.specs.Prelude.{◌≡◌, IfOk};
ghost use Rattle.base_types.specs.declared.ids.HostId.{HostId};
ghost use Rattle.tree_filesets.specs.Answers.{IsReply};
ghost use Rattle.tree_filesets.specs.Rows.{fileset_answer};

use crate::creating::NewObject;
use crate::fileset::Fileset;
use crate::outcome::NotDone;
use crate::removing::InUse;
use base_types::{NoMemory, User};
use tree_calls::{Call, Refusal, Reply};

impl Fileset {
    /// The reply that `answer` would give to a call of a user at any host. Nothing is done, and nothing of the fileset
    /// is copied but what the reply tells. `NoMemory` comes where memory runs out.
    pub fn reply_to<U: InUse>(&self, uses: &U, user: &User, call: &Call) -> Result<Reply, NoMemory>
        ensures { (host : HostId) → IfOk result
            (λ reply. reply ≡ (fileset_answer self.now (U.is_in_use uses.now) host user.now call.now).reply) }
    {
        match self.row_reply(uses, user, call) {
            Ok(reply) => Ok(reply),
            Err(NotDone::Refused(refusal)) => Ok(Reply::Refused(refusal)),
            Err(NotDone::Memory) => Err(NoMemory),
        }
    }

    // The checks of the call's row, in their order, and what it tells.
    #[tactic(auto, unfolding(crate::specs::Rows::fileset_answer, crate::specs::Creation::create_answer, crate::specs::Removal::remove_answer, crate::specs::Renaming::rename_answer, crate::specs::Changing::truncate_answer, crate::specs::Changing::set_access_answer, crate::specs::Changing::write_answer, crate::specs::Changing::sync_answer))]
    fn row_reply<U: InUse>(&self, uses: &U, user: &User, call: &Call) -> Result<Reply, NotDone>
        ensures { (host : HostId) → IsReply result
            (fileset_answer self.now (U.is_in_use uses.now) host user.now call.now).reply }
    {
        match call {
            Call::Create { place } => {
                drop(self.create_target(NewObject::EmptyFile, user, place.path.as_slice())?);
            }
            Call::MakeDir { place } => {
                drop(self.create_target(NewObject::EmptyDirectory, user, place.path.as_slice())?);
            }
            Call::Remove { place } => {
                self.remove_target(uses, user, place.path.as_slice())?;
            }
            Call::Rename { from, to } => {
                drop(self.rename_target(user, from.path.as_slice(), to.path.as_slice())?);
            }
            Call::Truncate { place, length } => {
                self.write_target(user, place.path.as_slice(), *length, 0)?;
            }
            Call::SetAcl { place, which, .. } => {
                self.set_access_target(user, place.path.as_slice(), *which)?;
            }
            Call::Write { place, from, bytes } => {
                self.write_target(user, place.path.as_slice(), *from, bytes.len())?;
            }
            Call::Sync { place } => {
                self.file_target(user, place.path.as_slice())?;
            }
            Call::Read { place, from, len } => {
                return self.read(user, place.path.as_slice(), *from, *len);
            }
            Call::List { place } => return self.list(user, place.path.as_slice()),
            Call::Stat { place } => return self.stat(user, place.path.as_slice()),
            Call::GetAcl { place, which } => {
                return self.access(user, place.path.as_slice(), *which);
            }
            Call::NewFileset { .. }
            | Call::CloneFileset { .. }
            | Call::MoveFileset { .. }
            | Call::Lock { .. }
            | Call::Unlock { .. }
            | Call::OpenFile { .. }
            | Call::CloseFile { .. } => return Err(NotDone::Refused(Refusal::NoFileset)),
        }
        Ok(Reply::Ok)
    }
}
