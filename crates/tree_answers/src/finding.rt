//! Where filesets are found.
ghost use Rattle.std.specs.Prelude.{◌≡◌, ◌<◌, ◌≤◌, length, nat_lt, Ok, Err, IfSome, OnOk, IfOk, MatchResult};
ghost use Rattle.std.specs.List.{find, list_any, position};
ghost use Rattle.std.specs.Option.{option_copied};
ghost use Rattle.tree_answers.specs.Away.{is_away_named, away_id};
ghost use Rattle.tree_answers.specs.Finding.{is_named, has_id, is_here, leads_to, fileset_place};
ghost use Rattle.tree_answers.specs.Finding.{fileset_named, is_taken};
ghost use Rattle.tree_answers.specs.Finding.{move_place, id_place};

use crate::tree::{Away, Tree};
use base_types::{FilesetId, Items, Name, ServerId};
use tree_calls::{Place, Refusal};
use tree_filesets::Fileset;

// Whether this is the fileset of a server with a name.
fn is_named(fileset: &Fileset, server: ServerId, name: &Name) -> bool
    ensures { result ≡ is_named server name.now fileset.now }
{
    fileset.server == server && fileset.name == *name
}

fn position_named(filesets: &[Fileset], server: ServerId, name: &Name) -> Option<usize>
    ensures value { result ≡ position (is_named server name.now) filesets.now }
    ensures within { IfSome result (λ place. place < length filesets.now) }
{
    filesets
        .iter()
        .position(|fileset| is_named(fileset, server, name))
}

/// Whether a server has a fileset with a name.
pub(crate) fn is_here(filesets: &Items<Fileset>, server: ServerId, name: &Name) -> bool
    ensures { result ≡ is_here filesets.now server name.now }
{
    filesets
        .as_slice()
        .iter()
        .any(|fileset| is_named(fileset, server, name))
}

/// Whether this is a server's record of a name.
pub(crate) fn is_away_named(away: &Away, server: ServerId, name: &Name) -> bool
    ensures { result ≡ is_away_named server name.now away.now }
{
    away.server == server && away.name == *name
}

// Whether a server has a record with a name.
fn is_away_here(records: &Items<Away>, server: ServerId, name: &Name) -> bool
    ensures { result ≡ list_any (is_away_named server name.now) records.now }
{
    records
        .as_slice()
        .iter()
        .any(|away| is_away_named(away, server, name))
}

fn find_away<'a>(records: &'a [Away], server: ServerId, name: &Name) -> Option<&'a Away>
    ensures { option_copied result ≡ find (is_away_named server name.now) records.now }
{
    records
        .iter()
        .find(|away| is_away_named(away, server, name))
}

// The fileset of which a server has a record with a name.
fn away_id(records: &Items<Away>, server: ServerId, name: &Name) -> Option<FilesetId>
    ensures { result ≡ away_id records.now server name.now }
{
    match find_away(records.as_slice(), server, name) {
        Some(away) => Some(away.fileset),
        None => None,
    }
}

impl Tree {
    // The place in the list of the fileset that a server and a name lead to.
    fn position_led(&self, server: ServerId, name: &Name) -> Option<usize>
        ensures value { result ≡ position (leads_to self.now server name.now) self.now.filesets }
        ensures within { IfSome result (λ place. place < length self.now.filesets) }
    {
        match position_named(self.filesets.as_slice(), server, name) {
            Some(place) => Some(place),
            None => match away_id(&self.away, server, name) {
                Some(id) => position_with_id(&self.filesets, id),
                None => None,
            },
        }
    }

    /// The place in the list of the fileset of a server with a name.
    #[tactic(auto, unfolding(crate::specs::Finding::fileset_place))]
    pub(crate) fn fileset_place(&self, server: ServerId, name: &Name) -> Result<usize, Refusal>
        ensures value { result ≡ fileset_place self.now server name.now }
        ensures within { IfOk result (λ place. place < length self.now.filesets) }
    {
        match self.position_led(server, name) {
            Some(place) => Ok(place),
            None => Err(Refusal::NoFileset),
        }
    }

    /// The fileset of a server with a name: where the server has none but a record of one that moved away, it is that
    /// one, wherever it is now. `NoFileset` where it has neither.
    #[tactic(auto, unfolding(crate::specs::Finding::fileset_named))]
    pub fn fileset_named(&self, server: ServerId, name: &Name) -> Result<&Fileset, Refusal>
        ensures { MatchResult result (λ fileset. fileset_named self.now server name.now ≡ Ok fileset.now)
            (λ refusal. fileset_named self.now server name.now ≡ Err refusal) }
    {
        match self.position_led(server, name) {
            Some(place) => Ok(self.filesets.get(place)),
            None => Err(Refusal::NoFileset),
        }
    }

    /// Whether a server has a fileset, or a record of one, with a name.
    pub(crate) fn is_taken(&self, server: ServerId, name: &Name) -> bool
        ensures { result ≡ is_taken self.now server name.now }
    {
        is_here(&self.filesets, server, name) || is_away_here(&self.away, server, name)
    }

    /// The place in the list of the fileset in which an object moves from one place to another.
    pub(crate) fn move_place(&self, from: &Place, to: &Place) -> Result<usize, Refusal>
        ensures value { result ≡ move_place self.now from.now to.now }
        ensures within { IfOk result (λ place. place < length self.now.filesets) }
    {
        let place = self.fileset_place(from.server, &from.fileset)?;
        if from.server != to.server || from.fileset != to.fileset {
            return Err(Refusal::CrossFileset);
        }
        Ok(place)
    }
}

/// The fileset with an id.
pub(crate) fn find_with_id(filesets: &[Fileset], id: FilesetId) -> Option<&Fileset>
    ensures { option_copied result ≡ find (has_id id) filesets.now }
{
    filesets.iter().find(|fileset| fileset.id == id)
}

/// The place in the list of the fileset with an id.
pub(crate) fn position_with_id(filesets: &Items<Fileset>, id: FilesetId) -> Option<usize>
    ensures value { result ≡ position (has_id id) filesets.now }
    ensures within { IfSome result (λ place. place < length filesets.now) }
{
    filesets
        .as_slice()
        .iter()
        .position(|fileset| fileset.id == id)
}

// The place of the first fileset with a greater id.
fn position_above(filesets: &Items<Fileset>, id: FilesetId) -> Option<usize>
    ensures value { result ≡ position (λ fileset. nat_lt id.0 fileset.id.0) filesets.now }
    ensures within { IfSome result (λ place. place < length filesets.now) }
{
    filesets
        .as_slice()
        .iter()
        .position(|fileset| id.0 < fileset.id.0)
}

/// Where a fileset goes in the list.
pub(crate) fn id_place(filesets: &Items<Fileset>, id: FilesetId) -> usize
    ensures value { result ≡ id_place filesets.now id }
    ensures within { result ≤ length filesets.now }
{
    match position_above(filesets, id) {
        Some(place) => place,
        None => filesets.len(),
    }
}
