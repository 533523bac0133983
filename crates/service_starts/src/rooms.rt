// What the servers of a tree have, and have promised.
ghost use Rattle.std.specs.Prelude.{◌≡◌, ◌≤◌, ◌^◌, ◌-◌, true, length, min};
ghost use Rattle.std.specs.List.{list_all};
ghost use Rattle.base_types.specs.declared.limits.TheConstants.{FILESETS_MAX, SERVERS_MAX};
ghost use Rattle.tree_answers.specs.Founding.{count_at, promised};
ghost use Rattle.tree_answers.specs.WellFormed.{is_declared, is_given};
ghost use Rattle.service_starts.specs.Rooms.{IsWithin, AreWithin};

use base_types::{FILESETS_MAX, FilesetId, Items, ServerId};
use tree_answers::{ServerRoom, Tree};
use tree_filesets::Fileset;

/// Whether a server is there.
pub(crate) fn is_declared(tree: &Tree, server: ServerId) -> bool
    ensures { result ≡ is_declared (length tree.now.servers) server }
{
    1 <= server.0 && usize::from(server.0) <= tree.servers.len()
}

// Whether a server has given the number of an id that is one of its own.
fn is_given(tree: &Tree, id: FilesetId) -> bool
    ensures { result ≡ is_given tree.now.servers id }
{
    let server = (id.0 / 65536) as usize;
    if server == 0 {
        return true;
    }
    match tree.servers.at(server - 1) {
        Some(room) => id.0 % 65536 < room.next,
        None => true,
    }
}

/// Whether each fileset is at a server that is there.
pub(crate) fn are_declared(tree: &Tree) -> bool
    ensures { result ≡ list_all (λ fileset. is_declared (length tree.now.servers) fileset.server) tree.now.filesets }
{
    tree.filesets
        .as_slice()
        .iter()
        .all(|fileset| is_declared(tree, fileset.server))
}

/// Whether no server gives the number of a fileset again.
pub(crate) fn are_given(tree: &Tree) -> bool
    ensures { result ≡ list_all (λ fileset. is_given tree.now.servers fileset.id) tree.now.filesets }
{
    tree.filesets
        .as_slice()
        .iter()
        .all(|fileset| is_given(tree, fileset.id))
}

// How many filesets and records a server has.
fn count_at(tree: &Tree, server: ServerId) -> usize
    ensures { result ≡ min (count_at tree.now server) (2 ^ 64 - 1) }
{
    let filesets = tree.filesets.as_slice().iter();
    let records = tree.away.as_slice().iter();
    filesets
        .filter(|fileset| fileset.server == server)
        .count()
        .saturating_add(records.filter(|away| away.server == server).count())
}

// The blocks that a server has promised to its filesets.
fn promised(filesets: &Items<Fileset>, server: ServerId) -> u64
    ensures { result ≡ min (promised server filesets.now) (2 ^ 64 - 1) }
{
    let mut blocks = 0u64;
    for fileset in filesets.as_slice() {
        if fileset.server == server {
            blocks = blocks.saturating_add(fileset.promise());
        }
    }
    blocks
}

// Whether a server with this room has no more than it may.
fn is_within(tree: &Tree, server: ServerId, room: &ServerRoom) -> bool
    ensures { result ≡ true → IsWithin tree.now server room.now }
{
    count_at(tree, server) <= FILESETS_MAX
        && promised(&tree.filesets, server) <= u64::from(room.capacity)
        && 1 <= room.next
        && room.next <= 65536
}

/// Whether no server has too many filesets and records, or has promised more blocks than it offers, and the number of
/// each server's next fileset is in range. No server keeps room for a fileset that left it.
pub(crate) fn are_within(tree: &Tree) -> bool
    requires { length tree.now.servers ≤ SERVERS_MAX }
    ensures { result ≡ true → AreWithin tree.now }
{
    for k in 0..tree.servers.len() {
        if !is_within(tree, ServerId(k as u8 + 1), tree.servers.get(k)) {
            return false;
        }
    }
    true
}
