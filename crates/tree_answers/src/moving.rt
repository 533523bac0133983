//! Filesets that move from one server to another.
ghost use Rattle.std.specs.Prelude.{◌≡◌, ◌<◌, ◌≤◌, ◌==◌, nat_eq, ◌&&◌, false, not, if◌then◌else◌, length};
ghost use Rattle.std.specs.Prelude.{map, slice_get, Some, Ok, Err, IfOk, IfSome, OnOk, OnErr, MatchResult};
ghost use Rattle.std.specs.List.{list_any, position};
ghost use Rattle.tree_filesets.specs.declared.fileset.TheConstants.{MOVES_MAX};
ghost use Rattle.tree_answers.specs.Away.{is_away, is_away_named, has_away, away_before, away_place, with_away};
ghost use Rattle.tree_answers.specs.Away.{without_away, room_freed};
ghost use Rattle.tree_answers.specs.Moving.{is_taken_by_other, move_source, leave_check, move_room};
ghost use Rattle.tree_answers.specs.Moving.{move_target, left_by, put_moved, move_answer, left_tree};

use crate::finding::{is_away_named, is_here};
use crate::tree::{Away, ServerRoom, Tree};
use crate::uses::is_fileset_held;
use base_types::{FilesetId, Items, Name, NoMemory, Plain, ServerId, User};
use tree_calls::{Refusal, Reply};
use tree_filesets::{Fileset, MOVES_MAX};

/// A fileset, and its place in the list.
type Found<'a> = (usize, &'a Fileset);

impl Tree {
    /// A server learns that a fileset which moved away from it has arrived: it keeps no more room for it. Nothing
    /// changes where the server has no record of the fileset. It takes no memory.
    #[tactic(auto, unfolding(crate::specs::Moving::left_tree))]
    pub fn left(&mut self, server: ServerId, fileset: FilesetId)
        ensures { self.new ≡ left_tree self.old server fileset }
    {
        free_room(&mut self.away, server, fileset);
    }

    /// Moves a fileset to another server.
    #[tactic(auto, unfolding(crate::specs::Moving::move_answer))]
    pub(crate) fn move_fileset(
        &mut self,
        user: &User,
        server: ServerId,
        name: &Name,
        to: ServerId,
    ) -> Result<Reply, NoMemory>
        ensures reply { IfOk result (λ reply. reply ≡ (move_answer self.old user.now server name.now to).reply) }
        ensures tree { OnOk result (self.new ≡ (move_answer self.old user.now server name.now to).tree) }
        ensures err { OnErr result (self.new ≡ self.old) }
    {
        let (place, fileset) = match self.move_target(user, server, name, to) {
            Ok(found) => found,
            Err(refusal) => return Ok(Reply::Refused(refusal)),
        };
        let moved = fileset.moved(to)?;
        let left = left_by(fileset, to)?;
        self.put_moved(place, moved, left)?;
        Ok(Reply::Ok)
    }

    // The fileset that a user may move, and its place in the list.
    #[tactic(auto, unfolding(crate::specs::Moving::move_source))]
    fn move_source(&self, user: &User, server: ServerId, name: &Name) -> Result<Found<'_>, Refusal>
        ensures { MatchResult result (λ found. move_source self.now user.now server name.now
            ≡ Ok (found.0, found.1.now)) (λ refusal. move_source self.now user.now server name.now ≡ Err refusal) }
    {
        let place = self.fileset_place(server, name)?;
        let Some(fileset) = self.filesets.at(place) else {
            return Err(Refusal::NoFileset);
        };
        fileset.control_check(user)?;
        Ok((place, fileset))
    }

    // Whether a fileset may leave for a server.
    #[tactic(auto, unfolding(crate::specs::Moving::leave_check))]
    fn leave_check(&self, to: ServerId, fileset: &Fileset) -> Result<(), Refusal>
        ensures value { result ≡ leave_check self.now to fileset.now }
        ensures moves { OnOk result (fileset.now.moves < MOVES_MAX) }
    {
        if fileset.server == to {
            return Err(Refusal::Exists);
        }
        if is_fileset_held(&self.locks, fileset.id) || is_fileset_held(&self.opens, fileset.id) {
            return Err(Refusal::InUse);
        }
        if MOVES_MAX <= fileset.moves {
            return Err(Refusal::TooMany);
        }
        if self.is_taken_by_other(to, fileset) {
            return Err(Refusal::Exists);
        }
        Ok(())
    }

    // The room of a server for a fileset that moves there.
    #[tactic(auto, unfolding(crate::specs::Moving::move_room))]
    fn move_room(&self, to: ServerId, fileset: &Fileset) -> Result<ServerRoom, Refusal>
        ensures { result ≡ move_room self.now to fileset.now }
    {
        let room = self.slot_for(to, has_away(&self.away, to, fileset.id))?;
        self.blocks_for(to, room, fileset.promise())
    }

    // The checks of a move, in their order: the fileset's place in the list, and the fileset.
    #[tactic(auto, unfolding(crate::specs::Moving::move_target))]
    fn move_target(
        &self,
        user: &User,
        server: ServerId,
        name: &Name,
        to: ServerId,
    ) -> Result<Found<'_>, Refusal>
        ensures value { MatchResult result (λ found. move_target self.now user.now server name.now to
            ≡ Ok (found.0, found.1.now)) (λ refusal. move_target self.now user.now server name.now to ≡ Err refusal) }
        ensures moves { IfOk result (λ found. found.1.now.moves < MOVES_MAX) }
    {
        let (place, fileset) = self.move_source(user, server, name)?;
        self.leave_check(to, fileset)?;
        self.move_room(to, fileset)?;
        Ok((place, fileset))
    }

    // Whether a server has another fileset, or a record of another one, with the name of a fileset that isn't there.
    fn is_taken_by_other(&self, server: ServerId, fileset: &Fileset) -> bool
        ensures { result ≡ is_taken_by_other self.now server fileset.now }
    {
        is_here(&self.filesets, server, &fileset.name)
            || is_other_away(&self.away, server, &fileset.name, fileset.id)
    }

    // Puts a fileset as it is after a move at its place in the list, with the record of the server that it left.
    fn put_moved(&mut self, place: usize, fileset: Fileset, left: Away) -> Result<(), NoMemory>
        ensures ok { OnOk result (self.new ≡ put_moved self.old place fileset left) }
        ensures err { OnErr result (self.new ≡ self.old) }
    {
        let (to, id) = (left.to, left.fileset);
        self.add_away(left)?;
        drop_away(&mut self.away, to, id);
        self.filesets.put(place, fileset);
        Ok(())
    }

    fn add_away(&mut self, away: Away) -> Result<(), NoMemory>
        ensures ok { OnOk result (self.new ≡ record self.old { away = with_away self.old.away away }) }
        ensures err { OnErr result (self.new ≡ self.old) }
    {
        let place = away_place(&self.away, away.server, away.fileset);
        self.away.insert(place, away)
    }
}

// Whether a server has a record with a name of another fileset than this.
fn is_other_away(records: &Items<Away>, server: ServerId, name: &Name, id: FilesetId) -> bool
    ensures { result ≡ list_any
        (λ away. is_away_named server name.now away && not (away.fileset.0 == id.0)) records.now }
{
    records.as_slice().iter().any(|away| is_away_named(away, server, name) && away.fileset != id)
}

// What the server that a fileset leaves notes of it.
fn left_by(fileset: &Fileset, to: ServerId) -> Result<Away, NoMemory>
    ensures { IfOk result (λ away. away ≡ left_by fileset.now to) }
{
    Ok(Away {
        server: fileset.server,
        fileset: fileset.id,
        name: fileset.name.copy()?,
        to,
        room_kept: true,
    })
}

// Whether this is a server's record of a fileset.
fn is_away(away: &Away, server: ServerId, id: FilesetId) -> bool
    ensures { result ≡ is_away server id away.now }
{
    away.server == server && away.fileset == id
}

// Whether a server has a record of a fileset.
fn has_away(records: &Items<Away>, server: ServerId, id: FilesetId) -> bool
    ensures { result ≡ has_away records.now server id }
{
    records
        .as_slice()
        .iter()
        .any(|away| is_away(away, server, id))
}

// The first record that comes after a server's of a fileset.
fn first_after(records: &Items<Away>, server: ServerId, id: FilesetId) -> Option<usize>
    ensures value { result ≡ position (away_before server id) records.now }
    ensures within { IfSome result (λ place. place < length records.now) }
{
    records.as_slice().iter().position(|away| server.0 < away.server.0
        || (server == away.server && id.0 < away.fileset.0))
}

// Where a server's record of a fileset goes.
fn away_place(records: &Items<Away>, server: ServerId, id: FilesetId) -> usize
    ensures value { result ≡ away_place records.now server id }
    ensures within { result ≤ length records.now }
{
    match first_after(records, server, id) {
        Some(place) => place,
        None => records.len(),
    }
}

// Lets a server's record of a fileset go.
fn drop_away(records: &mut Items<Away>, server: ServerId, id: FilesetId)
    ensures { records.new ≡ without_away records.old server id }
{
    records.retain(|away| !is_away(away, server, id));
}

// Lets a server's record of a fileset keep no more room.
#[tactic(auto, using(crate::proofs::Mapped::maps))]
fn free_room(records: &mut Items<Away>, server: ServerId, id: FilesetId)
    ensures { records.new ≡ room_freed records.old server id }
{
    for place in 0..records.len() {
        free_room_of(records.get_mut(place), server, id);
    }
}

fn free_room_of(away: &mut Away, server: ServerId, id: FilesetId)
    ensures { away.new ≡ (if is_away server id away.old then record away.old { room_kept = false } else away.old) }
{
    if is_away(away, server, id) {
        away.room_kept = false;
    }
}
