//! How filesets come about.
ghost use Rattle.std.specs.Prelude.{
  ◌≡◌,
  ◌-◌,
  ◌+◌,
  ◌^◌,
  ◌<◌,
  ◌≤◌,
  ℕ,
  min,
  length,
  Some,
  Ok,
  Err,
  IfOk,
  OnOk,
  OnErr,
  MatchResult,
};
ghost use Rattle.base_types.specs.declared.limits.TheConstants.{FILESET_NUMBER_MAX};
ghost use Rattle.tree_filesets.specs.Promises.{new_promise};
ghost use Rattle.store_state.specs.Founding.{
  held_promise,
  promised,
  slot_for,
  room_for,
  next_id,
  with_new,
  new_fileset_answer,
  why_absent,
  source_named,
  clone_target,
  clone_answer,
};

use crate::finding::{Sought, free_slot, has_some, held};
use crate::numbers::no_records;
use crate::state::{Holding, Stay, StoreState};
use base_types::{FILESET_NUMBER_MAX, FilesetId, Items, Name, NoMemory, User};
use tree_calls::{Refusal, Reply};
use tree_filesets::{Fileset, OBJECT_BLOCKS};

// The blocks that a slot is promised, at most the last number of 64 bits.
fn held_promise(slot: &Option<Holding>) -> u64
    ensures { result ≡ min (held_promise slot.now) (2 ^ 64 - 1) }
{
    match slot {
        Some(holding) if !holding.stay.is_gone() => holding.fileset.promise(),
        _ => 0,
    }
}

// The blocks that a store has promised, at most the last number of 64 bits.
fn promised(slots: &Items<Option<Holding>>) -> u64
    ensures { result ≡ min (promised slots.now) (2 ^ 64 - 1) }
{
    let mut blocks = 0u64;
    for slot in slots.as_slice() {
        blocks = blocks.saturating_add(held_promise(slot));
    }
    blocks
}

impl StoreState {
    /// A slot for a fileset more that is promised so many blocks, or the last number of 64 bits for more.
    pub fn slot_for(&self, slot: usize, blocks: u64) -> Result<usize, Refusal>
        ensures value { (more : ℕ) → blocks ≡ min more (2 ^ 64 - 1) → result ≡ slot_for self.now slot more }
    {
        if self.slots.len() <= slot {
            return Err(Refusal::TooMany);
        }
        if u64::from(self.capacity) < promised(&self.slots).saturating_add(blocks) {
            return Err(Refusal::NoRoom);
        }
        Ok(slot)
    }

    // A slot for a new fileset of a name that is promised so many blocks, or the last number of 64 bits for more.
    fn room_for(&self, name: &Name, blocks: u64) -> Result<usize, Refusal>
        ensures value { (more : ℕ) → blocks ≡ min more (2 ^ 64 - 1) → result ≡ room_for self.now name.now more }
        ensures number { OnOk result (self.now.next ≤ FILESET_NUMBER_MAX) }
    {
        if has_some(&self.slots, &Sought::Named(name)) {
            return Err(Refusal::Exists);
        }
        if FILESET_NUMBER_MAX < self.next {
            return Err(Refusal::TooMany);
        }
        self.slot_for(free_slot(&self.slots), blocks)
    }

    // The id of the next fileset.
    fn next_id(&self) -> FilesetId
        requires { self.now.next ≤ FILESET_NUMBER_MAX }
        ensures { result ≡ next_id self.now }
    {
        FilesetId(u32::from(self.server.0) * 65_536 + self.next)
    }

    // Puts a new fileset into a slot.
    fn add_new(&mut self, slot: usize, stay: Stay, fileset: Fileset) -> Result<(), NoMemory>
        requires { self.old.next ≤ FILESET_NUMBER_MAX }
        ensures ok { OnOk result (self.new ≡ with_new self.old slot stay fileset) }
        ensures err { OnErr result (self.new ≡ self.old) }
    {
        let records = no_records(self.slots.alloc())?;
        self.slots.put(
            slot,
            Some(Holding {
                stay,
                fileset,
                records,
            }),
        );
        self.next += 1;
        Ok(())
    }

    /// Makes a fileset of so many objects with an empty root.
    #[tactic(auto, unfolding(crate::specs::Founding::new_fileset_answer))]
    pub(crate) fn new_fileset(
        &mut self,
        name: &Name,
        objects: u32,
        owner: &User,
    ) -> Result<Reply, NoMemory>
        ensures reply { IfOk result (λ reply. reply ≡ (new_fileset_answer self.old name.now objects owner.now).reply) }
        ensures state { OnOk result (self.new ≡ (new_fileset_answer self.old name.now objects owner.now).state) }
        ensures err { OnErr result (self.new ≡ self.old) }
    {
        let slot = match self.room_for(name, OBJECT_BLOCKS * u64::from(objects)) {
            Ok(slot) => slot,
            Err(refusal) => return Ok(Reply::Refused(refusal)),
        };
        let (alloc, id) = (self.slots.alloc(), self.next_id());
        let fileset = Fileset::new(alloc, self.server, id, name, objects, owner)?;
        self.add_new(slot, Stay::Writable, fileset)?;
        Ok(Reply::Ok)
    }

    // Why no fileset of a name is here.
    fn why_absent(&self, name: &Name) -> Refusal
        ensures { result ≡ why_absent self.now name.now }
    {
        if has_some(&self.slots, &Sought::GoneAs(name)) {
            Refusal::NotHome
        } else {
            Refusal::NoFileset
        }
    }

    // The fileset to be cloned.
    fn source_named(&self, name: &Name) -> Result<&Fileset, Refusal>
        ensures { MatchResult result (λ fileset. source_named self.now name.now ≡ Ok fileset.now)
            (λ refusal. source_named self.now name.now ≡ Err refusal) }
    {
        match held(&self.slots, &Sought::HereAs(name)) {
            Some(holding) => Ok(&holding.fileset),
            None => Err(self.why_absent(name)),
        }
    }

    // The fileset that a user may clone, and the slot for the clone.
    #[tactic(auto, unfolding(crate::specs::Founding::clone_target))]
    fn clone_target(
        &self,
        user: &User,
        source: &Name,
        new: &Name,
    ) -> Result<(&Fileset, usize), Refusal>
        ensures value { MatchResult result (λ found. clone_target self.now user.now source.now new.now
            ≡ Ok (found.0.now, found.1)) (λ refusal. clone_target self.now user.now source.now new.now ≡ Err refusal) }
        ensures number { OnOk result (self.now.next ≤ FILESET_NUMBER_MAX) }
    {
        let fileset = self.source_named(source)?;
        fileset.control_check(user)?;
        let slot = self.room_for(new, fileset.clone_promise())?;
        Ok((fileset, slot))
    }

    /// Makes a read-only copy of a fileset.
    #[tactic(auto, unfolding(crate::specs::Founding::clone_answer))]
    pub(crate) fn clone_fileset(
        &mut self,
        user: &User,
        source: &Name,
        new: &Name,
    ) -> Result<Reply, NoMemory>
        ensures reply { IfOk result (λ reply. reply ≡ (clone_answer self.old user.now source.now new.now).reply) }
        ensures state { OnOk result (self.new ≡ (clone_answer self.old user.now source.now new.now).state) }
        ensures err { OnErr result (self.new ≡ self.old) }
    {
        let (source, slot) = match self.clone_target(user, source, new) {
            Ok(found) => found,
            Err(refusal) => return Ok(Reply::Refused(refusal)),
        };
        let clone = source.cloned(self.next_id(), new)?;
        self.add_new(slot, Stay::Clone, clone)?;
        Ok(Reply::Ok)
    }

    /// The reply to a new fileset.
    #[tactic(auto, unfolding(crate::specs::Founding::new_fileset_answer))]
    pub(crate) fn new_fileset_reply(&self, name: &Name, objects: u32, owner: &User) -> Reply
        ensures { result ≡ (new_fileset_answer self.now name.now objects owner.now).reply }
    {
        match self.room_for(name, OBJECT_BLOCKS * u64::from(objects)) {
            Ok(_) => Reply::Ok,
            Err(refusal) => Reply::Refused(refusal),
        }
    }

    /// The reply to a clone.
    #[tactic(auto, unfolding(crate::specs::Founding::clone_answer))]
    pub(crate) fn clone_reply(&self, user: &User, source: &Name, new: &Name) -> Reply
        ensures { result ≡ (clone_answer self.now user.now source.now new.now).reply }
    {
        match self.clone_target(user, source, new) {
            Ok(_) => Reply::Ok,
            Err(refusal) => Reply::Refused(refusal),
        }
    }
}
