ghost use Rattle.std.specs.Prelude.{◌≡◌, ◌<◌, ◌==◌, true, Ok, Err, length, IfOk, OnOk, OnErr};
ghost use Rattle.std.specs.Option.{option_copied};
ghost use Rattle.tree_calls.specs.Rosters.{user_of};
ghost use Rattle.tree_answers.specs.Answers.{deciding_place, answer_for, answer_to};

use crate::locking::Range;
use crate::tree::Tree;
use crate::uses::Uses;
use base_types::{HostId, NoMemory, Rights, User};
use tree_calls::{Call, Refusal, Reply, Roster};

impl Tree {
    /// Answers a call of a host. A refused call changes nothing, and so does want of memory. A host that isn't declared
    /// acts for nobody: each of its calls is `Denied`.
    #[tactic(auto, unfolding(crate::specs::Answers::answer_to))]
    pub fn answer(&mut self, host: HostId, call: &Call) -> Result<Reply, NoMemory>
        ensures reply { IfOk result (λ reply. reply ≡ (answer_to self.old host call.now).reply) }
        ensures tree { OnOk result (self.new ≡ (answer_to self.old host call.now).tree) }
        ensures err { OnErr result (self.new ≡ self.old) }
    {
        let refusal = match self.deciding_place(call) {
            Ok(place) => return self.ask_fileset(place, host, call),
            Err(refusal) => refusal,
        };
        match self.roster.user_of(host)? {
            Some(user) => self.answer_for(refusal, host, call, &user),
            None => Ok(Reply::Refused(Refusal::Denied(Rights::NONE))),
        }
    }

    // A call that the fileset at a place decides alone. A declared host's user is lent by the roster.
    #[tactic(auto, unfolding(crate::specs::Answers::answer_to))]
    fn ask_fileset(&mut self, place: usize, host: HostId, call: &Call) -> Result<Reply, NoMemory>
        requires decided { deciding_place self.old call.now ≡ Ok place }
        requires within { place < length self.old.filesets }
        ensures reply { IfOk result (λ reply. reply ≡ (answer_to self.old host call.now).reply) }
        ensures tree { OnOk result (self.new ≡ (answer_to self.old host call.now).tree) }
        ensures err { OnErr result (self.new ≡ self.old) }
    {
        let setup = self.setup_user(host)?;
        let uses = Uses {
            locks: &self.locks,
            opens: &self.opens,
        };
        match user_at(&self.roster, host, &setup) {
            Some(user) => self.filesets.get_mut(place).answer(&uses, host, user, call),
            None => Ok(Reply::Refused(Refusal::Denied(Rights::NONE))),
        }
    }

    // A user's call that no fileset decides alone: one of the tree itself, or one that is refused.
    #[tactic(auto, unfolding(crate::specs::Answers::answer_for, crate::specs::Answers::fileset_row))]
    fn answer_for(
        &mut self,
        refusal: Refusal,
        host: HostId,
        call: &Call,
        user: &User,
    ) -> Result<Reply, NoMemory>
        requires { deciding_place self.old call.now ≡ Err refusal }
        ensures reply { IfOk result (λ reply. reply ≡ (answer_for self.old host call.now user.now).reply) }
        ensures tree { OnOk result (self.new ≡ (answer_for self.old host call.now user.now).tree) }
        ensures err { OnErr result (self.new ≡ self.old) }
    {
        match call {
            Call::NewFileset {
                server,
                name,
                objects,
                owner,
            } => self.new_fileset(*server, name, *objects, owner),
            Call::CloneFileset {
                server,
                fileset,
                new,
            } => self.clone_fileset(user, *server, fileset, new),
            Call::MoveFileset {
                server,
                fileset,
                to,
            } => self.move_fileset(user, *server, fileset, *to),
            Call::Lock {
                label,
                place,
                writing,
                from,
                len,
            } => {
                let range = Range {
                    from: *from,
                    len: *len,
                };
                self.lock(host, user, label, place, *writing, range)
            }
            Call::Unlock { label } => Ok(self.unlock(host, label)),
            Call::OpenFile { label, place, kind } => self.open(host, user, label, place, *kind),
            Call::CloseFile { label } => Ok(self.close(host, label)),
            Call::Create { .. }
            | Call::MakeDir { .. }
            | Call::Remove { .. }
            | Call::Rename { .. }
            | Call::Truncate { .. }
            | Call::SetAcl { .. }
            | Call::Read { .. }
            | Call::Write { .. }
            | Call::List { .. }
            | Call::Stat { .. }
            | Call::GetAcl { .. }
            | Call::Sync { .. } => Ok(Reply::Refused(refusal)),
        }
    }

    // The setup host's user, where this is it.
    fn setup_user(&self, host: HostId) -> Result<Option<User>, NoMemory>
        ensures { IfOk result (λ setup. (host.0 == 0) ≡ true → setup ≡ user_of self.now.roster host) }
    {
        if host != HostId::SETUP {
            return Ok(None);
        }
        self.roster.user_of(host)
    }

    // The place of the fileset that decides a call alone.
    fn deciding_place(&self, call: &Call) -> Result<usize, Refusal>
        ensures value { result ≡ deciding_place self.now call.now }
        ensures within { IfOk result (λ place. place < length self.now.filesets) }
    {
        match call {
            Call::Create { place }
            | Call::MakeDir { place }
            | Call::Remove { place }
            | Call::Truncate { place, .. }
            | Call::SetAcl { place, .. }
            | Call::Read { place, .. }
            | Call::Write { place, .. }
            | Call::List { place }
            | Call::Stat { place }
            | Call::GetAcl { place, .. }
            | Call::Sync { place } => self.fileset_place(place.server, &place.fileset),
            Call::Rename { from, to } => self.move_place(from, to),
            Call::NewFileset { .. }
            | Call::CloneFileset { .. }
            | Call::MoveFileset { .. }
            | Call::Lock { .. }
            | Call::Unlock { .. }
            | Call::OpenFile { .. }
            | Call::CloseFile { .. } => Err(Refusal::NoFileset),
        }
    }
}

// The user for whom a host acts, where it is declared; the setup host's is given.
fn user_at<'a>(roster: &'a Roster, host: HostId, setup: &'a Option<User>) -> Option<&'a User>
    requires { (host.0 == 0) ≡ true → setup.now ≡ user_of roster.now host }
    ensures { option_copied result ≡ user_of roster.now host }
{
    if host == HostId::SETUP {
        return setup.as_ref();
    }
    let line = roster.hosts.at(usize::from(host.0.saturating_sub(1)))?;
    roster.users.at(line.user as usize)
}
