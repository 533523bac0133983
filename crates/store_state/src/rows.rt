//! What a store replies to calls, on what it keeps.
ghost use Rattle.std.specs.Prelude.{◌≡◌, ◌+◌, false, Ok, Err, IfOk, OnOk, OnErr, MatchResult};
ghost use Rattle.std.specs.Option.{option_copied, option_map};
ghost use Rattle.store_state.specs.Rows.{
  same_fileset,
  nothing_used,
  fileset_here,
  held_answered,
  held_reply,
  named_row,
  move_check,
  rename_row,
  use_of,
  use_reply,
  lock_check,
  open_check,
  answer_for,
  answer_to,
  numbered_name,
  numbered_id,
  found_named,
};
ghost use Rattle.base_types.specs.declared.ids.HostId.{HostId};

use crate::finding::{Sought, held, slot_of};
use crate::state::{Holding, StoreState};
use base_types::{FILE_BYTES_MAX, Fid, FilesetId, HostId, Name, NoMemory, OpenKind, Rights, User};
use tree_calls::{Call, Place, Refusal, Reply};
use tree_filesets::{Fileset, InUse};

// Nothing is locked or open.
struct NothingUsed;

impl InUse for NothingUsed {
    ghost is_in_use = { λ _ fid. nothing_used fid };

    fn is_in_use(&self, _fid: Fid) -> bool {
        false
    }
}

fn same_fileset(from: &Place, to: &Place) -> bool
    ensures { result ≡ same_fileset from.now to.now }
{
    from.server == to.server && from.fileset == to.fileset
}

// The fileset in a slot answers a call.
fn answer_in(
    slot: &mut Option<Holding>,
    host: HostId,
    user: &User,
    call: &Call,
) -> Result<Reply, NoMemory>
    ensures reply { IfOk result (λ reply. reply ≡ held_reply host user.now call.now slot.old) }
    ensures slot { OnOk result (slot.new ≡ option_map (held_answered host user.now call.now) slot.old) }
    ensures err { OnErr result (slot.new ≡ slot.old) }
{
    match slot {
        Some(holding) => holding.fileset.answer(&NothingUsed, host, user, call),
        None => Ok(Reply::Refused(Refusal::NoFileset)),
    }
}

// What the fileset in a slot would reply to a host.
fn reply_in(slot: &Option<Holding>, user: &User, call: &Call) -> Result<Reply, NoMemory>
    ensures { (host : HostId) → IfOk result (λ reply. reply ≡ held_reply host user.now call.now slot.now) }
{
    match slot {
        Some(holding) => holding.fileset.reply_to(&NothingUsed, user, call),
        None => Ok(Reply::Refused(Refusal::NoFileset)),
    }
}

impl StoreState {
    /// The fileset of a name that is here.
    pub fn fileset_here(&self, name: &Name) -> Result<&Fileset, Refusal>
        ensures { MatchResult result (λ fileset. fileset_here self.now name.now ≡ Ok fileset.now)
            (λ refusal. fileset_here self.now name.now ≡ Err refusal) }
    {
        match held(&self.slots, &Sought::HereAs(name)) {
            Some(holding) => Ok(&holding.fileset),
            None => Err(Refusal::NoFileset),
        }
    }

    // The fileset of a name answers a call.
    #[tactic(auto, using(base_types::proofs::ChangedLists::changes), unfolding(crate::specs::Rows::named_row))]
    fn named_row(
        &mut self,
        name: &Name,
        host: HostId,
        user: &User,
        call: &Call,
    ) -> Result<Reply, NoMemory>
        ensures reply { IfOk result (λ reply. reply ≡ (named_row self.old name.now host user.now call.now).reply) }
        ensures state { OnOk result (self.new ≡ (named_row self.old name.now host user.now call.now).state) }
        ensures err { OnErr result (self.new ≡ self.old) }
    {
        let place = slot_of(&self.slots, &Sought::HereAs(name));
        if place < self.slots.len() {
            answer_in(self.slots.get_mut(place), host, user, call)
        } else {
            Ok(Reply::Refused(Refusal::NoFileset))
        }
    }

    // What it would reply to a host.
    #[tactic(auto, unfolding(crate::specs::Rows::named_row))]
    fn named_reply(&self, name: &Name, user: &User, call: &Call) -> Result<Reply, NoMemory>
        ensures { (host : HostId) → IfOk result
            (λ reply. reply ≡ (named_row self.now name.now host user.now call.now).reply) }
    {
        match self.slots.at(slot_of(&self.slots, &Sought::HereAs(name))) {
            Some(slot) => reply_in(slot, user, call),
            None => Ok(Reply::Refused(Refusal::NoFileset)),
        }
    }

    fn move_check(&self, from: &Place, to: &Place) -> Result<(), Refusal>
        ensures { result ≡ move_check self.now from.now to.now }
    {
        self.fileset_here(&from.fileset)?;
        if !same_fileset(from, to) {
            return Err(Refusal::CrossFileset);
        }
        Ok(())
    }

    #[tactic(auto, unfolding(crate::specs::Rows::lock_check))]
    fn lock_check(
        &self,
        user: &User,
        place: &Place,
        writing: bool,
        end: u64,
    ) -> Result<Fid, Refusal>
        ensures { result ≡ lock_check self.now user.now place.now writing end }
    {
        let fileset = self.fileset_here(&place.fileset)?;
        let fid = fileset.lock_target(user, place.path.as_slice(), writing)?;
        if u64::from(FILE_BYTES_MAX) < end {
            return Err(Refusal::TooBig);
        }
        Ok(fid)
    }

    #[tactic(auto, unfolding(crate::specs::Rows::open_check))]
    fn open_check(&self, user: &User, place: &Place, kind: OpenKind) -> Result<Fid, Refusal>
        ensures { result ≡ open_check self.now user.now place.now kind }
    {
        let fileset = self.fileset_here(&place.fileset)?;
        fileset.open_target(user, place.path.as_slice(), kind)
    }

    /// Answers a call of a host on what is kept, while nothing is locked or open. A refused call changes nothing. Calls
    /// that only use a file, or aren't a store's, change nothing either. `NoMemory` comes where memory runs out, and
    /// leaves all as it was.
    #[tactic(auto, unfolding(crate::specs::Rows::answer_to))]
    pub fn answer(&mut self, host: HostId, call: &Call) -> Result<Reply, NoMemory>
        ensures reply { IfOk result (λ reply. reply ≡ (answer_to self.old host call.now).reply) }
        ensures state { OnOk result (self.new ≡ (answer_to self.old host call.now).state) }
        ensures err { OnErr result (self.new ≡ self.old) }
    {
        match self.roster.user_of(host)? {
            Some(user) => self.answer_for(host, call, &user),
            None => Ok(Reply::Refused(Refusal::Denied(Rights::NONE))),
        }
    }

    #[tactic(auto, unfolding(crate::specs::Rows::answer_for, crate::specs::Rows::rename_row))]
    fn answer_for(&mut self, host: HostId, call: &Call, user: &User) -> Result<Reply, NoMemory>
        ensures reply { IfOk result (λ reply. reply ≡ (answer_for self.old host call.now user.now).reply) }
        ensures state { OnOk result (self.new ≡ (answer_for self.old host call.now user.now).state) }
        ensures err { OnErr result (self.new ≡ self.old) }
    {
        match call {
            Call::NewFileset {
                server: _,
                name,
                objects,
                owner,
            } => self.new_fileset(name, *objects, owner),
            Call::CloneFileset {
                server: _,
                fileset,
                new,
            } => self.clone_fileset(user, fileset, new),
            Call::Rename { from, to } => match self.move_check(from, to) {
                Ok(()) => self.named_row(&from.fileset, host, user, call),
                Err(refusal) => Ok(Reply::Refused(refusal)),
            },
            Call::Create { place }
            | Call::MakeDir { place }
            | Call::Remove { place }
            | Call::Truncate { place, .. }
            | Call::SetAcl { place, .. }
            | Call::Read { place, .. }
            | Call::Write { place, .. }
            | Call::List { place }
            | Call::Stat { place }
            | Call::GetAcl { place, .. }
            | Call::Sync { place } => self.named_row(&place.fileset, host, user, call),
            Call::MoveFileset { .. }
            | Call::Lock { .. }
            | Call::Unlock { .. }
            | Call::OpenFile { .. }
            | Call::CloseFile { .. } => Ok(self.use_reply(call, user)),
        }
    }

    /// The reply that such a call would get. Nothing is done, and nothing that is kept is copied but what the reply
    /// tells.
    #[tactic(auto, unfolding(crate::specs::Rows::answer_to))]
    pub fn would(&self, host: HostId, call: &Call) -> Result<Reply, NoMemory>
        ensures { IfOk result (λ reply. reply ≡ (answer_to self.now host call.now).reply) }
    {
        match self.roster.user_of(host)? {
            Some(user) => self.reply_for(call, &user),
            None => Ok(Reply::Refused(Refusal::Denied(Rights::NONE))),
        }
    }

    #[tactic(auto, unfolding(crate::specs::Rows::answer_for, crate::specs::Rows::rename_row))]
    fn reply_for(&self, call: &Call, user: &User) -> Result<Reply, NoMemory>
        ensures { (host : HostId) → IfOk result
            (λ reply. reply ≡ (answer_for self.now host call.now user.now).reply) }
    {
        match call {
            Call::NewFileset {
                server: _,
                name,
                objects,
                owner,
            } => Ok(self.new_fileset_reply(name, *objects, owner)),
            Call::CloneFileset {
                server: _,
                fileset,
                new,
            } => Ok(self.clone_reply(user, fileset, new)),
            Call::Rename { from, to } => match self.move_check(from, to) {
                Ok(()) => self.named_reply(&from.fileset, user, call),
                Err(refusal) => Ok(Reply::Refused(refusal)),
            },
            Call::Create { place }
            | Call::MakeDir { place }
            | Call::Remove { place }
            | Call::Truncate { place, .. }
            | Call::SetAcl { place, .. }
            | Call::Read { place, .. }
            | Call::Write { place, .. }
            | Call::List { place }
            | Call::Stat { place }
            | Call::GetAcl { place, .. }
            | Call::Sync { place } => self.named_reply(&place.fileset, user, call),
            Call::MoveFileset { .. }
            | Call::Lock { .. }
            | Call::Unlock { .. }
            | Call::OpenFile { .. }
            | Call::CloseFile { .. } => Ok(self.use_reply(call, user)),
        }
    }

    // The reply to a call that uses a file, or is none of the store's.
    fn use_reply(&self, call: &Call, user: &User) -> Reply
        ensures { result ≡ use_reply self.now call.now user.now }
    {
        match call {
            Call::Lock {
                label: _,
                place,
                writing,
                from,
                len,
            } => {
                let end = u64::from(*from) + u64::from(*len);
                used(self.lock_check(user, place, *writing, end))
            }
            Call::OpenFile {
                label: _,
                place,
                kind,
            } => used(self.open_check(user, place, *kind)),
            Call::Unlock { .. } => Reply::Refused(Refusal::NotLocked),
            Call::CloseFile { .. } => Reply::Refused(Refusal::NotOpened),
            _ => Reply::Refused(Refusal::NoFileset),
        }
    }

    /// Under what a call is numbered; none where its fileset isn't here.
    pub fn numbered_id(&self, call: &Call) -> Option<FilesetId>
        ensures { result ≡ numbered_id self.now (numbered_name call.now) }
    {
        match numbered_name(call) {
            Some(name) => self.find(name),
            None => Some(FilesetId(0)),
        }
    }

    /// The fileset of a name that is here.
    pub fn find(&self, name: &Name) -> Option<FilesetId>
        ensures { result ≡ found_named self.now name.now }
    {
        match held(&self.slots, &Sought::HereAs(name)) {
            Some(holding) => Some(holding.fileset.id),
            None => None,
        }
    }
}

// The name of the fileset under which a call is numbered.
fn numbered_name(call: &Call) -> Option<&Name>
    ensures { option_copied result ≡ numbered_name call.now }
{
    match call {
        Call::NewFileset { .. }
        | Call::CloneFileset { .. }
        | Call::Unlock { .. }
        | Call::CloseFile { .. } => None,
        Call::Create { place }
        | Call::MakeDir { place }
        | Call::Remove { place }
        | Call::Truncate { place, .. }
        | Call::SetAcl { place, .. }
        | Call::Read { place, .. }
        | Call::Write { place, .. }
        | Call::List { place }
        | Call::Stat { place }
        | Call::GetAcl { place, .. }
        | Call::Sync { place }
        | Call::Lock { place, .. }
        | Call::OpenFile { place, .. } => Some(&place.fileset),
        Call::Rename { from, to: _ } => Some(&from.fileset),
        Call::MoveFileset { fileset, .. } => Some(fileset),
    }
}

// The reply to a use of a file.
fn used(target: Result<Fid, Refusal>) -> Reply
    ensures { result ≡ use_of target }
{
    match target {
        Ok(_) => Reply::Ok,
        Err(refusal) => Reply::Refused(refusal),
    }
}
