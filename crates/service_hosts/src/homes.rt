//! What hosts and servers can run: filesets don't move between servers yet.
ghost use Rattle.std.specs.Prelude.{◌≡◌};
ghost use Rattle.std.specs.List.{list_all, list_any};
ghost use Rattle.service_hosts.specs.Homes.{UnmovedMayHost, is_home, is_move, may_host};
ghost use Rattle.run_rules.specs.Messages.{home};
ghost use Rattle.script_lines.specs.declared.script.Deed.TheVariants.{Call as MakesCall};
ghost use Rattle.script_lines.specs.declared.script.Line.{Line as LineOf};

use base_types::FilesetId;
use script_lines::{Deed, Line, Script};
use tree_answers::Tree;
use tree_calls::Call;
use tree_filesets::Fileset;

// Whether a line moves a fileset.
fn is_move(line: &Line) -> bool
    ensures { result ≡ is_move line.now.deed }
{
    match &line.deed {
        Deed::Call(call) => moves(call),
        _ => false,
    }
}

// Whether a call moves a fileset.
fn moves(call: &Call) -> bool
    ensures { result ≡ is_move (MakesCall call.now) }
{
    matches!(call, Call::MoveFileset { .. })
}

// The number of the server at which a fileset was made.
#[tactic(auto, unfolding(run_rules::specs::Messages::home))]
fn home(id: FilesetId) -> u32
    ensures { result ≡ (home id).0 }
{
    id.0 / 65_536
}

// Whether a fileset is where it was made, and has never moved.
fn is_home(fileset: &Fileset) -> bool
    ensures { result ≡ is_home fileset.now }
{
    u32::from(fileset.server.0) == home(fileset.id) && fileset.moves == 0
}

// Whether a line of these moves a fileset.
fn any_moves(lines: &[Line]) -> bool
    ensures { result ≡ list_any (λ (line : LineOf). is_move line.deed) lines.now }
{
    lines.iter().any(|line| is_move(line))
}

// Whether each of these filesets is where it was made, and has never moved.
fn are_home(filesets: &[Fileset]) -> bool
    ensures { result ≡ list_all is_home filesets.now }
{
    filesets.iter().all(|fileset| is_home(fileset))
}

/// Whether hosts and servers can run a script from a tree: no line of it moves a fileset, and none of the tree has
/// moved.
pub fn may_host(script: &Script, start: &Tree) -> bool
    ensures { result ≡ may_host script.now start.now }
{
    let moves = any_moves(script.lines.as_slice());
    let homes = are_home(start.filesets.as_slice());
    !moves && (homes && start.away.as_slice().is_empty())
}

/// Hosts and servers can run each script that moves no fileset from a tree without filesets, as that of blank disks is.
pub fn unmoved_law()
    ensures { UnmovedMayHost }
{}
