// The tree that a run starts from, and what is to be settled before.
ghost use Rattle.std.specs.Prelude.{◌≡◌, ◌≤◌, true, None, length, map, IfOk, IfErr, OnOk};
ghost use Rattle.tree_calls.specs.Limits.{keeps_limits};
ghost use Rattle.service_starts.specs.UnderWay.{free};
ghost use Rattle.service_starts.specs.Fitting.{misfit, settlings_of};
ghost use Rattle.service_plain.specs.Played.{IsStart};
ghost use Rattle.service_moves.specs.declared.stopped.RunStopped.TheVariants.{Memory};
ghost use Rattle.service_stores.specs.Starting.{start_from};
ghost use Rattle.service_stores.specs.Steps.{IsUnfit};

use base_types::{FILESETS_MAX, Items, SERVERS_MAX};
use service_moves::RunStopped;
use service_starts::{Settling, Told, fit, may_start, start_tree};
use std::alloc::Global;
use tree_answers::{Away, Tree};
use tree_calls::Roster;

/// The most filesets that servers can hold, and so have to settle.
pub(crate) const SETTLINGS_MAX: usize = SERVERS_MAX as usize * FILESETS_MAX;

/// What each server has to settle, if the disks fit one another. `Unfit` comes exactly where one doesn't, and `Memory`
/// where memory runs out, or where more is to be settled than servers can hold.
pub(crate) fn all_settlings(alloc: Global, all: &[Told]) -> Result<Items<Settling>, RunStopped>
    requires { length all.now ≤ SERVERS_MAX }
    ensures fits { OnOk result (misfit all.now ≡ None) }
    ensures settlings { IfOk result (λ settlings. settlings ≡ settlings_of all.now) }
    ensures few { IfOk result (λ settlings. length settlings ≤ SETTLINGS_MAX) }
    ensures unfit { IfErr result (IsUnfit all.now) }
{
    let settlings = fit(alloc, all)?;
    if settlings.len() > SETTLINGS_MAX {
        return Err(RunStopped::Memory);
    }
    Ok(settlings)
}

fn free_room(away: &mut Away)
    ensures { away.new ≡ free away.old }
{
    away.room_kept = false;
}

// No server keeps room for a fileset that left it any more.
#[tactic(auto, using(tree_answers::proofs::Mapped::maps))]
fn free_rooms(records: &mut Items<Away>)
    ensures { records.new ≡ map free records.old }
{
    for place in 0..records.len() {
        free_room(records.get_mut(place));
    }
}

/// The tree that a run starts from. `Memory` comes where memory runs out, or where no run can start from the tree, as
/// may be where a disk doesn't tell its bytes.
pub(crate) fn tree_from(alloc: Global, roster: &Roster, all: &[Told]) -> Result<Tree, RunStopped>
    requires limits { keeps_limits roster.now ≡ true }
    requires count { length all.now ≡ length roster.now.capacity }
    ensures tree { IfOk result (λ tree. tree ≡ start_from roster.now all.now) }
    ensures start { IfOk result (IsStart roster.now) }
    ensures stopped { IfErr result (λ stopped. stopped ≡ Memory) }
{
    let mut tree = start_tree(alloc, roster, all)?;
    free_rooms(&mut tree.away);
    if !may_start(&tree)? {
        return Err(RunStopped::Memory);
    }
    Ok(tree)
}
