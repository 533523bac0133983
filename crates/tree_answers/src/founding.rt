//! New filesets and clones.
ghost use Rattle.std.specs.Prelude.{ℕ, nat_le, ◌≡◌, ◌+◌, ◌-◌, ◌^◌, ◌≤◌, ◌<◌, min, Ok, Err, IfOk, OnOk, OnErr};
ghost use Rattle.std.specs.Prelude.{MatchResult};
ghost use Rattle.base_types.specs.declared.limits.TheConstants.{FILESETS_MAX, FILESET_NUMBER_MAX};
ghost use Rattle.tree_filesets.specs.Promises.{new_promise};
ghost use Rattle.tree_answers.specs.Founding.{promised, away_promise, away_promised, promised_at, fileset_count};
ghost use Rattle.tree_answers.specs.Founding.{away_count, count_at, room_of, slot_for, blocks_for, room_for, next_id};
ghost use Rattle.tree_answers.specs.Founding.{with_fileset, new_fileset_target, new_fileset_answer, clone_source};
ghost use Rattle.tree_answers.specs.Founding.{clone_target, clone_answer};

use crate::finding::{find_with_id, id_place};
use crate::tree::{Away, ServerRoom, Tree};
use base_types::{
    FILESET_NUMBER_MAX, FILESETS_MAX, FilesetId, Items, Name, NoMemory, ServerId, User,
};
use tree_calls::{Refusal, Reply};
use tree_filesets::{Fileset, OBJECT_BLOCKS};

impl Tree {
    /// Makes a fileset of so many objects with an empty root.
    #[tactic(auto, unfolding(crate::specs::Founding::new_fileset_answer))]
    pub(crate) fn new_fileset(
        &mut self,
        server: ServerId,
        name: &Name,
        objects: u32,
        owner: &User,
    ) -> Result<Reply, NoMemory>
        ensures reply { IfOk result
            (λ reply. reply ≡ (new_fileset_answer self.old server name.now objects owner.now).reply) }
        ensures tree { OnOk result (self.new ≡ (new_fileset_answer self.old server name.now objects owner.now).tree) }
        ensures err { OnErr result (self.new ≡ self.old) }
    {
        let room = match self.new_fileset_target(server, name, objects) {
            Ok(room) => room,
            Err(refusal) => return Ok(Reply::Refused(refusal)),
        };
        let id = next_id(server, room);
        let alloc = self.filesets.alloc();
        let fileset = Fileset::new(alloc, server, id, name, objects, owner)?;
        self.add_fileset(server, room, fileset)?;
        Ok(Reply::Ok)
    }

    /// Makes a read-only copy of a fileset.
    #[tactic(auto, unfolding(crate::specs::Founding::clone_answer))]
    pub(crate) fn clone_fileset(
        &mut self,
        user: &User,
        server: ServerId,
        source: &Name,
        new: &Name,
    ) -> Result<Reply, NoMemory>
        ensures reply { IfOk result
            (λ reply. reply ≡ (clone_answer self.old user.now server source.now new.now).reply) }
        ensures tree { OnOk result (self.new ≡ (clone_answer self.old user.now server source.now new.now).tree) }
        ensures err { OnErr result (self.new ≡ self.old) }
    {
        let (source, room) = match self.clone_target(user, server, source, new) {
            Ok(found) => found,
            Err(refusal) => return Ok(Reply::Refused(refusal)),
        };
        let clone = source.cloned(next_id(server, room), new)?;
        self.add_fileset(server, room, clone)?;
        Ok(Reply::Ok)
    }

    #[tactic(auto, unfolding(crate::specs::Founding::new_fileset_target))]
    fn new_fileset_target(
        &self,
        server: ServerId,
        name: &Name,
        objects: u32,
    ) -> Result<ServerRoom, Refusal>
        ensures value { result ≡ new_fileset_target self.now server name.now objects }
        ensures number { IfOk result (λ room. room.next ≤ FILESET_NUMBER_MAX) }
    {
        if self.is_taken(server, name) {
            return Err(Refusal::Exists);
        }
        self.room_for(server, OBJECT_BLOCKS * u64::from(objects))
    }

    #[tactic(auto, unfolding(crate::specs::Founding::clone_target))]
    fn clone_target(
        &self,
        user: &User,
        server: ServerId,
        source: &Name,
        new: &Name,
    ) -> Result<(&Fileset, ServerRoom), Refusal>
        ensures value { MatchResult result
            (λ found. clone_target self.now user.now server source.now new.now ≡ Ok (found.0.now, found.1))
            (λ refusal. clone_target self.now user.now server source.now new.now ≡ Err refusal) }
        ensures number { IfOk result (λ found. found.1.next ≤ FILESET_NUMBER_MAX) }
    {
        let fileset = self.clone_source(user, server, source)?;
        if self.is_taken(server, new) {
            return Err(Refusal::Exists);
        }
        let room = self.room_for(server, fileset.clone_promise())?;
        Ok((fileset, room))
    }

    // The fileset that a user may clone.
    #[tactic(auto, unfolding(crate::specs::Founding::clone_source))]
    fn clone_source(
        &self,
        user: &User,
        server: ServerId,
        source: &Name,
    ) -> Result<&Fileset, Refusal>
        ensures { MatchResult result (λ fileset. clone_source self.now user.now server source.now ≡ Ok fileset.now)
            (λ refusal. clone_source self.now user.now server source.now ≡ Err refusal) }
    {
        let fileset = self.fileset_named(server, source)?;
        if fileset.server != server {
            return Err(Refusal::NotHome);
        }
        fileset.control_check(user)?;
        Ok(fileset)
    }

    // A server's room for a fileset more that is promised so many blocks, or the last number of 64 bits for more.
    #[tactic(auto, unfolding(crate::specs::Founding::room_for))]
    fn room_for(&self, server: ServerId, blocks: u64) -> Result<ServerRoom, Refusal>
        ensures value { (more : ℕ) → blocks ≡ min more (2 ^ 64 - 1) → result ≡ room_for self.now server more }
        ensures number { IfOk result (λ room. room.next ≤ FILESET_NUMBER_MAX) }
    {
        let room = self.slot_for(server, false)?;
        if FILESET_NUMBER_MAX < room.next {
            return Err(Refusal::TooMany);
        }
        self.blocks_for(server, room, blocks)
    }

    /// A server's room, where it may have a fileset more, of which it may have a record already.
    pub(crate) fn slot_for(
        &self,
        server: ServerId,
        is_recorded: bool,
    ) -> Result<ServerRoom, Refusal>
        ensures { result ≡ slot_for self.now server is_recorded }
    {
        if !is_recorded && self.is_full(server) {
            return Err(Refusal::TooMany);
        }
        match self.room_of(server) {
            Some(room) => Ok(room),
            None => Err(Refusal::TooMany),
        }
    }

    /// Whether a server with this room may promise so many blocks more, or the last number of 64 bits for more.
    pub(crate) fn blocks_for(
        &self,
        server: ServerId,
        room: ServerRoom,
        blocks: u64,
    ) -> Result<ServerRoom, Refusal>
        ensures value { (more : ℕ) → blocks ≡ min more (2 ^ 64 - 1) → result ≡ blocks_for self.now server room more }
        ensures same { IfOk result (λ found. found ≡ room) }
    {
        if u64::from(room.capacity) < self.promised_at(server).saturating_add(blocks) {
            return Err(Refusal::NoRoom);
        }
        Ok(room)
    }

    // Whether a server has as many filesets and records as it may have.
    fn is_full(&self, server: ServerId) -> bool
        ensures { result ≡ nat_le FILESETS_MAX (count_at self.now server) }
    {
        let records = away_count(&self.away, server);
        FILESETS_MAX <= fileset_count(&self.filesets, server).saturating_add(records)
    }

    // The blocks that a server has promised, at most the last number of 64 bits.
    fn promised_at(&self, server: ServerId) -> u64
        ensures { result ≡ min (promised_at self.now server) (2 ^ 64 - 1) }
    {
        let records = away_promised(&self.away, &self.filesets, server);
        promised(&self.filesets, server).saturating_add(records)
    }

    fn room_of(&self, server: ServerId) -> Option<ServerRoom>
        ensures { result ≡ room_of self.now.servers server }
    {
        if server.0 == 0 {
            return None;
        }
        self.servers.at(server.0 as usize - 1).copied()
    }

    // Adds a fileset, for which its server gave a number.
    fn add_fileset(
        &mut self,
        server: ServerId,
        room: ServerRoom,
        fileset: Fileset,
    ) -> Result<(), NoMemory>
        requires { room.next ≤ FILESET_NUMBER_MAX }
        ensures ok { OnOk result (self.new ≡ with_fileset self.old server room fileset) }
        ensures err { OnErr result (self.new ≡ self.old) }
    {
        let place = id_place(&self.filesets, fileset.id);
        self.filesets.insert(place, fileset)?;
        let next = room.next + 1;
        let server = server.0.saturating_sub(1) as usize;
        self.servers.put(server, ServerRoom { next, ..room });
        Ok(())
    }
}

// The id of a server's next fileset.
fn next_id(server: ServerId, room: ServerRoom) -> FilesetId
    requires { room.next ≤ FILESET_NUMBER_MAX }
    ensures { result ≡ next_id server room }
{
    FilesetId(u32::from(server.0) * 65_536 + room.next)
}

// How many filesets a server has.
fn fileset_count(filesets: &Items<Fileset>, server: ServerId) -> usize
    ensures { result ≡ fileset_count server filesets.now }
{
    filesets
        .as_slice()
        .iter()
        .filter(|fileset| fileset.server == server)
        .count()
}

// How many records of filesets that moved away a server has.
fn away_count(records: &Items<Away>, server: ServerId) -> usize
    ensures { result ≡ away_count server records.now }
{
    records
        .as_slice()
        .iter()
        .filter(|away| away.server == server)
        .count()
}

// The blocks that are promised to a record, at most the last number of 64 bits.
fn away_promise(away: &Away, filesets: &Items<Fileset>) -> u64
    ensures { result ≡ min (away_promise filesets.now away.now) (2 ^ 64 - 1) }
{
    if !away.room_kept {
        return 0;
    }
    match find_with_id(filesets.as_slice(), away.fileset) {
        Some(fileset) => fileset.promise(),
        None => 0,
    }
}

// The blocks that are promised to the records of a server, at most the last number of 64 bits.
fn away_promised(records: &Items<Away>, filesets: &Items<Fileset>, server: ServerId) -> u64
    ensures { result ≡ min (away_promised server filesets.now records.now) (2 ^ 64 - 1) }
{
    let mut blocks = 0u64;
    for away in records.as_slice() {
        if away.server == server {
            blocks = blocks.saturating_add(away_promise(away, filesets));
        }
    }
    blocks
}

// The blocks that the filesets of a server are promised, at most the last number of 64 bits.
fn promised(filesets: &Items<Fileset>, server: ServerId) -> u64
    ensures { result ≡ min (promised server filesets.now) (2 ^ 64 - 1) }
{
    let mut blocks = 0u64;
    for fileset in filesets.as_slice() {
        if fileset.server == server {
            blocks = blocks.saturating_add(fileset.promise());
        }
    }
    blocks
}
