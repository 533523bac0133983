// The records of filesets that moved away.
ghost use Rattle.std.specs.Prelude.{◌≡◌, true, not, length};
ghost use Rattle.std.specs.List.{find, list_all, list_any};
ghost use Rattle.std.specs.Option.{option_copied};
ghost use Rattle.tree_answers.specs.Finding.{has_id, is_named};
ghost use Rattle.tree_answers.specs.Away.{away_before, is_away_named};
ghost use Rattle.tree_answers.specs.WellFormed.{is_declared, records_rise, record_names_differ};
ghost use Rattle.tree_answers.specs.WellFormed.{is_elsewhere, AreRecords};

use crate::filesets::has_named;
use crate::rooms::is_declared;
use base_types::{FilesetId, Name, ServerId};
use tree_answers::{Away, Tree};
use tree_filesets::Fileset;

/// Whether no server keeps room for a fileset that left it.
pub(crate) fn rooms_free(tree: &Tree) -> bool
    ensures { result ≡ list_all (λ away. not away.room_kept) tree.now.away }
{
    tree.away.as_slice().iter().all(|away| !away.room_kept)
}

fn away_before(server: ServerId, id: FilesetId, away: &Away) -> bool
    ensures { result ≡ away_before server id away.now }
{
    server.0 < away.server.0 || (server == away.server && id.0 < away.fileset.0)
}

// Whether a record comes before others.
fn is_before(away: &Away, records: &[Away]) -> bool
    ensures { result ≡ list_all (away_before away.now.server away.now.fileset) records.now }
{
    records
        .iter()
        .all(|other| away_before(away.server, away.fileset, other))
}

fn records_rise(records: &[Away]) -> bool
    ensures { result ≡ records_rise records.now }
{
    let mut rest = records;
    while let Some((first, behind)) = rest.split_first() {
        if !is_before(first, behind) {
            return false;
        }
        rest = behind;
    }
    true
}

// Whether a server has one of these records, under a name.
fn has_record(records: &[Away], server: ServerId, name: &Name) -> bool
    ensures { result ≡ list_any (is_away_named server name.now) records.now }
{
    records
        .iter()
        .any(|away| away.server == server && away.name == *name)
}

fn record_names_differ(records: &[Away]) -> bool
    ensures { result ≡ record_names_differ records.now }
{
    let mut rest = records;
    while let Some((first, behind)) = rest.split_first() {
        if has_record(behind, first.server, &first.name) {
            return false;
        }
        rest = behind;
    }
    true
}

// The fileset of an id.
fn find_with_id(filesets: &[Fileset], id: FilesetId) -> Option<&Fileset>
    ensures { option_copied result ≡ find (has_id id) filesets.now }
{
    filesets.iter().find(|fileset| fileset.id == id)
}

// Whether a record's fileset is there under the record's name, at another server.
fn is_elsewhere(filesets: &[Fileset], away: &Away) -> bool
    ensures { result ≡ is_elsewhere filesets.now away.now }
{
    match find_with_id(filesets, away.fileset) {
        Some(fileset) => fileset.server != away.server && fileset.name == away.name,
        None => false,
    }
}

// Whether each record is at a server that is there.
fn are_at_servers(tree: &Tree) -> bool
    ensures { result ≡ list_all (λ away. is_declared (length tree.now.servers) away.server) tree.now.away }
{
    tree.away
        .as_slice()
        .iter()
        .all(|away| is_declared(tree, away.server))
}

// Whether no server has a record under the name of a fileset that it has.
fn are_free(tree: &Tree) -> bool
    ensures { result ≡ list_all
        (λ away. not (list_any (is_named away.server away.name) tree.now.filesets)) tree.now.away }
{
    tree.away.as_slice().iter().all(|away| !has_named(
        tree.filesets.as_slice(),
        away.server,
        &away.name,
    ))
}

// Whether the fileset of each record is at another server.
fn are_elsewhere(tree: &Tree) -> bool
    ensures { result ≡ list_all (is_elsewhere tree.now.filesets) tree.now.away }
{
    tree.away
        .as_slice()
        .iter()
        .all(|away| is_elsewhere(tree.filesets.as_slice(), away))
}

/// Whether the records are well formed.
pub(crate) fn are_records(tree: &Tree) -> bool
    ensures { result ≡ true → AreRecords tree.now }
{
    let records = tree.away.as_slice();
    records_rise(records)
        && record_names_differ(records)
        && are_free(tree)
        && are_at_servers(tree)
        && are_elsewhere(tree)
}
