// Whether a run can start from a tree.
ghost use Rattle.std.specs.Prelude.{◌≡◌, ◌≤◌, true, [], length, IfOk};
ghost use Rattle.base_types.specs.declared.limits.TheConstants.{SERVERS_MAX};
ghost use Rattle.tree_calls.specs.Limits.{keeps_limits};
ghost use Rattle.service_starts.specs.Start.{filesets_agree, Agrees, IsStartable};

use crate::filesets::{are_well_formed, ids_rise, names_differ, rests};
use crate::records::{are_records, rooms_free};
use crate::rooms::{are_declared, are_given, are_within};
use base_types::NoMemory;
use tree_answers::Tree;

// Whether the filesets of a tree agree with one another and with the servers' rooms.
fn filesets_agree(tree: &Tree) -> bool
    ensures { result ≡ filesets_agree tree.now }
{
    let filesets = tree.filesets.as_slice();
    ids_rise(filesets) && names_differ(filesets) && are_declared(tree) && are_given(tree)
}

// Whether the filesets, the records and the servers' rooms agree.
fn agrees(tree: &Tree) -> bool
    requires { length tree.now.servers ≤ SERVERS_MAX }
    ensures { result ≡ true → Agrees tree.now }
{
    if !filesets_agree(tree) {
        return false;
    }
    if !are_records(tree) {
        return false;
    }
    if !rooms_free(tree) {
        return false;
    }
    are_within(tree)
}

/// Whether a script can be run from a tree in which nothing is in use: it is well formed, nothing is unsaved, and no
/// server keeps room for a fileset that left it. The only error is want of memory.
pub fn may_start(tree: &Tree) -> Result<bool, NoMemory>
    requires limits { keeps_limits tree.now.roster ≡ true }
    requires servers { length tree.now.servers ≡ length tree.now.roster.capacity }
    requires locks { tree.now.locks ≡ [] }
    requires opens { tree.now.opens ≡ [] }
    ensures { IfOk result (λ may. may ≡ true → IsStartable tree.now) }
{
    if !rests(tree) {
        return Ok(false);
    }
    if !agrees(tree) {
        return Ok(false);
    }
    are_well_formed(tree.filesets.as_slice())
}
