// How a run starts.
ghost use Rattle.std.specs.Prelude.{◌≡◌, ◌*◌, ◌^◌, ℕ, true, List, None, length, IfOk, IfErr, OnOk};
ghost use Rattle.tree_calls.specs.Limits.{keeps_limits};
ghost use Rattle.service_starts.specs.Fitting.{misfit};
ghost use Rattle.store_laws.specs.MoveKeeping.{KeepAll};
ghost use Rattle.service_plain.specs.Played.{IsStart};
ghost use Rattle.store_records.specs.Stored.{IsStorable};
ghost use Rattle.message_types.specs.Soundness.{Each};
ghost use Rattle.service_moves.specs.Batches.{batch_wear};
ghost use Rattle.service_moves.specs.Doing.{Step, DoSteps};
ghost use Rattle.service_moves.specs.Plans.{states_at};
ghost use Rattle.service_moves.specs.Stores.{states_of, AreStores, AreSame};
ghost use Rattle.service_moves.specs.Stopping.{IsStopped};
ghost use Rattle.service_stores.specs.Plans.{AreBeginning};
ghost use Rattle.service_stores.specs.Starting.{HaveBegunAnew, told_by, start_from};

use crate::begin::begin;
use crate::told::all_told;
use crate::tree::{all_settlings, tree_from};
use service_moves::RunStopped;
use service_starts::Told;
use std::alloc::Global;
use store_memory::Store;
use tree_answers::Tree;
use tree_calls::Roster;

// The tree that a run on these stores starts from, where they tell this, once they have begun the run.
fn start_told<S: Store>(
    alloc: Global,
    stores: &mut [S],
    roster: &Roster,
    all: &[Told],
) -> Result<Tree, RunStopped>
    requires limits { keeps_limits roster.now ≡ true }
    requires count { length stores.old ≡ length roster.now.capacity }
    requires told { length all.now ≡ length roster.now.capacity }
    requires stores { AreStores S.view roster.now (2 * batch_wear) 1 stores.old }
    ensures fit { OnOk result (misfit all.now ≡ None) }
    ensures tree { IfOk result (λ tree. tree ≡ start_from roster.now all.now) }
    ensures start { IfOk result (IsStart roster.now) }
    ensures kept { S.tells → (disks : ℕ) → all.now ≡ told_by S.view disks stores.old
        → Each IsStorable (states_of S.view stores.old)
        → IfOk result (λ tree. KeepAll (λ host. 1) tree (states_of S.view stores.new)) }
    ensures does { S.tells → (disks : ℕ) → all.now ≡ told_by S.view disks stores.old
        → Each IsStorable (states_of S.view stores.old)
        → (steps : List Step) × AreBeginning (states_at S.view stores.old) steps
        × DoSteps S.view result steps stores.old stores.new }
    ensures begun { S.tells → (disks : ℕ) → all.now ≡ told_by S.view disks stores.old
        → Each IsStorable (states_of S.view stores.old)
        → OnOk result (HaveBegunAnew (states_of S.view stores.old) (states_of S.view stores.new)) }
    ensures stores { OnOk result (AreStores S.view roster.now (2 ^ 40) 1 stores.new) }
    ensures same { AreSame S.view stores.old stores.new }
    ensures stopped { IfErr result (IsStopped S.tells S.view all.now stores.old stores.new) }
{
    let settlings = all_settlings(alloc, all)?;
    let tree = tree_from(alloc, roster, all)?;
    begin(stores, roster, settlings.as_slice())?;
    Ok(tree)
}

/// The tree that a run on these stores starts from; the first is that of server 1, and so many in front are on disks.
/// Where these fit one another, each store settles its unfinished moves, those that go on are finished, and each store
/// begins the run. The tree is what they keep then.
///
/// `Unfit` comes exactly where a disk doesn't fit, and then they keep what they kept. `Failed` comes where the disk of
/// a server failed twice, and `Memory` where memory runs out; how far the stores came then isn't told. Of a disk that
/// doesn't tell its bytes nothing is known of what it gave, so the tree is looked at before any store acts, and
/// `Memory` comes where no run can start from it.
pub fn start_on<S: Store>(
    alloc: Global,
    stores: &mut [S],
    disks: usize,
    roster: &Roster,
) -> Result<Tree, RunStopped>
    requires limits { keeps_limits roster.now ≡ true }
    requires count { length stores.old ≡ length roster.now.capacity }
    requires stores { AreStores S.view roster.now 0 1 stores.old }
    requires storable { S.tells → Each IsStorable (states_of S.view stores.old) }
    ensures fit { S.tells → OnOk result (misfit (told_by S.view disks stores.old) ≡ None) }
    ensures tree { S.tells
        → IfOk result (λ tree. tree ≡ start_from roster.now (told_by S.view disks stores.old)) }
    ensures start { IfOk result (IsStart roster.now) }
    ensures kept { S.tells → IfOk result (λ tree. KeepAll (λ host. 1) tree (states_of S.view stores.new)) }
    ensures does { S.tells
        → (steps : List Step) × AreBeginning (states_at S.view stores.old) steps
        × DoSteps S.view result steps stores.old stores.new }
    ensures begun { S.tells
        → OnOk result (HaveBegunAnew (states_of S.view stores.old) (states_of S.view stores.new)) }
    ensures stores { OnOk result (AreStores S.view roster.now (2 ^ 40) 1 stores.new) }
    ensures same { AreSame S.view stores.old stores.new }
    ensures stopped { IfErr result
        (IsStopped S.tells S.view (told_by S.view disks stores.old) stores.old stores.new) }
{
    let all = all_told(alloc, stores, disks)?;
    start_told(alloc, stores, roster, all.as_slice())
}
