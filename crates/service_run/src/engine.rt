//! The engine: the script runs on the file tree.
ghost use Rattle.std.specs.Prelude.{◌≡◌, None, IfOk};
ghost use Rattle.script_lines.specs.Sound.{IsSound};
ghost use Rattle.script_reader.specs.Walk.{stuck_at};
ghost use Rattle.service_plain.specs.Played.{IsStart};
ghost use Rattle.service_run.specs.Engine.{HasPlayed};

use base_types::NoMemory;
use script_lines::Script;
use service_plain::{Played, serve};
use std::alloc::Global;
use tree_answers::Tree;

/// Runs a script from a tree on.
pub(crate) fn play_script(alloc: Global, script: &Script, start: Tree) -> Result<Played, NoMemory>
    requires sound { IsSound script.now }
    requires goes { stuck_at script.now.lines ≡ None }
    requires start { IsStart script.now.roster start }
    ensures { IfOk result (HasPlayed script.now start) }
{
    serve(alloc, script, start)
}
