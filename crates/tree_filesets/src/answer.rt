ghost use Rattle.std.specs.Prelude.{◌≡◌, IfOk, OnOk, OnErr};
ghost use Rattle.tree_filesets.specs.Answers.{IsAnswer};
ghost use Rattle.tree_filesets.specs.Rows.{fileset_answer};

use crate::creating::NewObject;
use crate::fileset::Fileset;
use crate::outcome::NotDone;
use crate::removing::InUse;
use base_types::{HostId, NoMemory, User};
use tree_calls::{Call, Refusal, Reply};

impl Fileset {
    /// Answers a call whose places are in this fileset, of a user at a host, while some objects are locked or open.
    /// `Reply::Refused` tells the first check in the call's row that fails; a refused call changes nothing. A call that
    /// one fileset doesn't decide, as `NewFileset`, `Lock` or `Unlock`, is refused with `NoFileset`. `NoMemory` comes
    /// where memory runs out, and leaves the fileset as it was.
    ///
    /// The objects, rights and calls are after Kazar et al., "DEcorum File System Architectural Overview", 1990; which
    /// checks a call makes, and in which order, is this project's own.
    pub fn answer<U: InUse>(
        &mut self,
        uses: &U,
        host: HostId,
        user: &User,
        call: &Call,
    ) -> Result<Reply, NoMemory>
        ensures reply { IfOk result
            (λ reply. reply ≡ (fileset_answer self.old (U.is_in_use uses.now) host user.now call.now).reply) }
        ensures after { OnOk result
            (self.new ≡ (fileset_answer self.old (U.is_in_use uses.now) host user.now call.now).fileset) }
        ensures err { OnErr result (self.new ≡ self.old) }
    {
        match self.row(uses, host, user, call) {
            Ok(reply) => Ok(reply),
            Err(NotDone::Refused(refusal)) => Ok(Reply::Refused(refusal)),
            Err(NotDone::Memory) => Err(NoMemory),
        }
    }

    // The call's row: its checks, in their order, and its effect.
    #[tactic(auto, unfolding(crate::specs::Rows::fileset_answer))]
    fn row<U: InUse>(
        &mut self,
        uses: &U,
        host: HostId,
        user: &User,
        call: &Call,
    ) -> Result<Reply, NotDone>
        ensures { IsAnswer result
            (fileset_answer self.old (U.is_in_use uses.now) host user.now call.now) self.old self.new }
    {
        match call {
            Call::Create { place } => self.create(
                NewObject::EmptyFile,
                user,
                place.path.as_slice(),
            ),
            Call::MakeDir { place } => self.create(
                NewObject::EmptyDirectory,
                user,
                place.path.as_slice(),
            ),
            Call::Remove { place } => self.remove(uses, user, place.path.as_slice()),
            Call::Rename { from, to } => self.rename(
                user,
                from.path.as_slice(),
                to.path.as_slice(),
            ),
            Call::Truncate { place, length } => self.truncate(user, place.path.as_slice(), *length),
            Call::SetAcl { place, which, list } => self.set_access(
                user,
                place.path.as_slice(),
                *which,
                list,
            ),
            Call::Read { place, from, len } => self.read(user, place.path.as_slice(), *from, *len),
            Call::Write { place, from, bytes } => self.write(
                host,
                user,
                place.path.as_slice(),
                *from,
                bytes,
            ),
            Call::List { place } => self.list(user, place.path.as_slice()),
            Call::Stat { place } => self.stat(user, place.path.as_slice()),
            Call::GetAcl { place, which } => self.access(user, place.path.as_slice(), *which),
            Call::Sync { place } => self.sync(host, user, place.path.as_slice()),
            Call::NewFileset { .. }
            | Call::CloneFileset { .. }
            | Call::MoveFileset { .. }
            | Call::Lock { .. }
            | Call::Unlock { .. }
            | Call::OpenFile { .. }
            | Call::CloseFile { .. } => Err(NotDone::Refused(Refusal::NoFileset)),
        }
    }
}
