ghost use Rattle.std.specs.Prelude.{◌≡◌, None, IsPermutation, IfOk};
ghost use Rattle.script_lines.specs.Sound.{IsSound};
ghost use Rattle.script_reader.specs.Walk.{stuck_at};
ghost use Rattle.script_reader.specs.Orders.{IsOrder};
ghost use Rattle.service_plain.specs.Played.{IsStart, IsPlayed};
ghost use Rattle.service_plain.specs.Seats.{lines_at, all_places};
ghost use Rattle.service_plain.specs.Underway.{played_so};

use crate::order::order_of;
use crate::past::Past;
use crate::play::Play;
use crate::played::Played;
use base_types::{Items, NoMemory, Plain};
use script_lines::Script;
use std::alloc::Global;
use tree_answers::Tree;

// What happens from a tree on where the lines at these places go in their order.
#[tactic(auto, using(crate::proofs::Whole::whole))]
fn past_of(script: &Script, start: Tree, order: &Items<usize>) -> Result<Past, NoMemory>
    requires sound { IsSound script.now }
    requires start { IsStart script.now.roster start }
    requires places { IsPermutation (all_places script.now.lines) order.now }
    requires order { IsOrder script.now.lines (lines_at script.now.lines order.now) }
    ensures { IfOk result (λ past. IsPlayed script.now (played_so start past order.now)) }
{
    let mut play = Play::new(script, start)?;
    match play.go_all(script, order) {
        Ok(()) => Ok(play.into_past()),
        Err(NoMemory) => {
            drop(play);
            Err(NoMemory)
        }
    }
}

// What happens from a tree on, and the order in which the lines went.
fn went_from(alloc: Global, script: &Script, start: &Tree) -> Result<(Past, Items<usize>), NoMemory>
    requires sound { IsSound script.now }
    requires goes { stuck_at script.now.lines ≡ None }
    requires start { IsStart script.now.roster start.now }
    ensures { IfOk result (λ went. IsPlayed script.now (played_so start.now went.0 went.1)) }
{
    let order = order_of(alloc, &script.lines)?;
    let past = past_of(script, start.copy()?, &order)?;
    Ok((past, order))
}

/// Runs a script from a file tree on: the calls that make the filesets come first; then, as long as a line can go, the
/// first node that can makes its next line, hosts before servers. What a host writes it stores at once. A host that
/// stops is down at every server. After its last line a host that hasn't stopped ends the locks and opens that it has
/// in use, in the order in which it took them. Restarts of servers, plans and the net change nothing here. The script
/// has to be sound, and no line of it stuck: each that is read is so. The tree has to be well formed, with the script's
/// roster, nothing unsaved and nothing in use.
pub fn serve(alloc: Global, script: &Script, start: Tree) -> Result<Played, NoMemory>
    requires sound { IsSound script.now }
    requires goes { stuck_at script.now.lines ≡ None }
    requires start { IsStart script.now.roster start }
    ensures played { IfOk result (IsPlayed script.now) }
    ensures start { IfOk result (λ played. played.start ≡ start) }
{
    match went_from(alloc, script, &start) {
        Ok((past, order)) => Ok(Played {
            start,
            history: past.history,
            last: past.tree,
            order,
        }),
        Err(NoMemory) => {
            drop(start);
            Err(NoMemory)
        }
    }
}
