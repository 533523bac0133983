// The filesets of a tree.
ghost use Rattle.std.specs.Prelude.{◌≡◌, true, nat_lt, IfOk};
ghost use Rattle.std.specs.List.{list_all, list_any};
ghost use Rattle.std.specs.Option.{option_map_or};
ghost use Rattle.tree_filesets.specs.WellFormed.{is_settled, is_at_rest};
ghost use Rattle.tree_answers.specs.Finding.{is_named};
ghost use Rattle.tree_answers.specs.WellFormed.{ids_rise, names_differ, AreWellFormed};

use base_types::{FilesetId, Name, NoMemory, ServerId};
use store_records::is_well_formed;
use tree_answers::Tree;
use tree_filesets::Fileset;
use tree_objects::{Anode, Content};

fn is_settled(content: &Content) -> bool
    ensures { result ≡ is_settled content.now }
{
    match content {
        Content::Dir { .. } => true,
        Content::File {
            unsaved,
            length,
            ..
        } => unsaved.is_empty() && length.is_none(),
    }
}

fn rests_at(anode: &Anode) -> bool
    ensures { result ≡ option_map_or (λ object. is_settled object.content) anode.now.object true }
{
    match &anode.object {
        Some(object) => is_settled(&object.content),
        None => true,
    }
}

fn is_at_rest(fileset: &Fileset) -> bool
    ensures { result ≡ is_at_rest fileset.now }
{
    fileset.anodes.as_slice().iter().all(rests_at)
}

/// Whether nothing is unsaved.
pub(crate) fn rests(tree: &Tree) -> bool
    ensures { result ≡ list_all is_at_rest tree.now.filesets }
{
    tree.filesets.as_slice().iter().all(is_at_rest)
}

// Whether an id is below those of filesets.
fn is_below(id: FilesetId, filesets: &[Fileset]) -> bool
    ensures { result ≡ list_all (λ other. nat_lt id.0 other.id.0) filesets.now }
{
    filesets.iter().all(|other| id.0 < other.id.0)
}

/// Whether the ids of filesets rise.
pub(crate) fn ids_rise(filesets: &[Fileset]) -> bool
    ensures { result ≡ ids_rise filesets.now }
{
    let mut rest = filesets;
    while let Some((first, behind)) = rest.split_first() {
        if !is_below(first.id, behind) {
            return false;
        }
        rest = behind;
    }
    true
}

/// Whether a server has one of these filesets, under a name.
pub(crate) fn has_named(filesets: &[Fileset], server: ServerId, name: &Name) -> bool
    ensures { result ≡ list_any (is_named server name.now) filesets.now }
{
    filesets.iter().any(|fileset| fileset.server == server && fileset.name == *name)
}

/// Whether no server has two filesets with one name.
pub(crate) fn names_differ(filesets: &[Fileset]) -> bool
    ensures { result ≡ names_differ filesets.now }
{
    let mut rest = filesets;
    while let Some((first, behind)) = rest.split_first() {
        if has_named(behind, first.server, &first.name) {
            return false;
        }
        rest = behind;
    }
    true
}

/// Whether each fileset is well formed; nothing in them is unsaved.
pub(crate) fn are_well_formed(filesets: &[Fileset]) -> Result<bool, NoMemory>
    requires { list_all is_at_rest filesets.now ≡ true }
    ensures { IfOk result (λ formed. formed ≡ true → AreWellFormed filesets.now) }
{
    let mut rest = filesets;
    while let Some((first, behind)) = rest.split_first() {
        if !is_well_formed(first)? {
            return Ok(false);
        }
        rest = behind;
    }
    Ok(true)
}
