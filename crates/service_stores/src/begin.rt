// How stores begin a run.
ghost use Rattle.std.specs.Prelude.{◌≡◌, ◌≤◌, ◌*◌, ◌^◌, true, List, [], length, map, IfErr, OnOk};
ghost use Rattle.base_types.specs.declared.limits.TheConstants.{SERVERS_MAX};
ghost use Rattle.tree_calls.specs.Limits.{keeps_limits};
ghost use Rattle.tree_answers.specs.declared.tree.Tree.{Tree};
ghost use Rattle.service_starts.specs.FinishLaws.{settled_stores};
ghost use Rattle.service_starts.specs.UnderWay.{KeepUnderWay, freed};
ghost use Rattle.store_laws.specs.MoveKeeping.{KeepAll};
ghost use Rattle.store_records.specs.Stored.{IsStorable};
ghost use Rattle.message_types.specs.Soundness.{Each};
ghost use Rattle.store_acts.specs.Acts.{booted};
ghost use Rattle.service_moves.specs.Batches.{batch_wear};
ghost use Rattle.service_moves.specs.Doing.{Step, DoSteps};
ghost use Rattle.service_moves.specs.Plans.{states_at};
ghost use Rattle.service_moves.specs.Stores.{states_of, AreStores, AreSame};
ghost use Rattle.service_moves.specs.Stopping.{IsStopped};
ghost use Rattle.service_stores.specs.Plans.{AreBeginning};
ghost use Rattle.service_stores.specs.Starting.{HaveBegunAnew};
ghost use Rattle.service_stores.specs.Steps.{AreReady, IsOneOf};
ghost use Rattle.service_stores.specs.declared.tree.TheConstants.{SETTLINGS_MAX};

use crate::tree::SETTLINGS_MAX;
use base_types::ServerId;
use service_moves::{RunStopped, apply_once, boot, finish_moves, stopped_at};
use service_starts::Settling;
use store_memory::Store;
use tree_calls::Roster;

// The stores settle their unfinished moves.
fn settle_all<S: Store>(stores: &mut [S], settlings: &[Settling]) -> Result<(), RunStopped>
    requires few { length settlings.now ≤ SETTLINGS_MAX }
    requires there { Each (λ settling. IsOneOf (length stores.old) settling.server) settlings.now }
    requires ready { AreReady S.view (2 * batch_wear) stores.old }
    ensures settled { S.tells → Each IsStorable (states_of S.view stores.old)
        → OnOk result (states_of S.view stores.new ≡ settled_stores 1 settlings.now (states_of S.view stores.old)) }
    ensures does { S.tells → Each IsStorable (states_of S.view stores.old)
        → (steps : List Step) × AreBeginning (states_at S.view stores.old) steps
        × DoSteps S.view result steps stores.old stores.new }
    ensures same { AreSame S.view stores.old stores.new }
    ensures ready { OnOk result (AreReady S.view (2 ^ 16) stores.new) }
    ensures stopped { IfErr result (IsStopped S.tells S.view [] stores.old stores.new) }
{
    for settling in settlings {
        let server = settling.server;
        if let Err(fault) = apply_once(&mut stores[server.0 as usize - 1], settling.act()) {
            return Err(stopped_at(server, fault));
        }
    }
    Ok(())
}

// Each store begins the run.
fn boot_all<S: Store>(stores: &mut [S]) -> Result<(), RunStopped>
    requires few { length stores.old ≤ SERVERS_MAX }
    requires ready { AreReady S.view (2 ^ 32) stores.old }
    ensures booted { S.tells → OnOk result (states_of S.view stores.new ≡ map booted (states_of S.view stores.old)) }
    ensures does { S.tells
        → (steps : List Step) × AreBeginning (states_at S.view stores.old) steps
        × DoSteps S.view result steps stores.old stores.new }
    ensures same { AreSame S.view stores.old stores.new }
    ensures ready { OnOk result (AreReady S.view (2 ^ 40) stores.new) }
    ensures stopped { IfErr result (IsStopped S.tells S.view [] stores.old stores.new) }
{
    for (k, store) in stores.iter_mut().enumerate() {
        if let Err(fault) = boot(store) {
            return Err(stopped_at(ServerId(k as u8 + 1), fault));
        }
    }
    Ok(())
}

/// The stores settle their unfinished moves, those that go on are finished, and each store begins the run. `Failed`
/// comes where the disk of a server failed twice, and `Memory` where memory runs out.
pub(crate) fn begin<S: Store>(
    stores: &mut [S],
    roster: &Roster,
    settlings: &[Settling],
) -> Result<(), RunStopped>
    requires limits { keeps_limits roster.now ≡ true }
    requires count { length stores.old ≡ length roster.now.capacity }
    requires stores { AreStores S.view roster.now (2 * batch_wear) 1 stores.old }
    requires few { length settlings.now ≤ SETTLINGS_MAX }
    requires there { Each (λ settling. IsOneOf (length stores.old) settling.server) settlings.now }
    ensures kept { S.tells → Each IsStorable (states_of S.view stores.old) → (tree : Tree)
        → KeepUnderWay tree (settled_stores 1 settlings.now (states_of S.view stores.old))
        → OnOk result (KeepAll (λ host. 1) (freed tree) (states_of S.view stores.new)) }
    ensures does { S.tells → Each IsStorable (states_of S.view stores.old) → (tree : Tree)
        → KeepUnderWay tree (settled_stores 1 settlings.now (states_of S.view stores.old))
        → (steps : List Step) × AreBeginning (states_at S.view stores.old) steps
        × DoSteps S.view result steps stores.old stores.new }
    ensures begun { S.tells → Each IsStorable (states_of S.view stores.old) → (tree : Tree)
        → KeepUnderWay tree (settled_stores 1 settlings.now (states_of S.view stores.old))
        → OnOk result (HaveBegunAnew (states_of S.view stores.old) (states_of S.view stores.new)) }
    ensures stores { OnOk result (AreStores S.view roster.now (2 ^ 40) 1 stores.new) }
    ensures same { AreSame S.view stores.old stores.new }
    ensures stopped { IfErr result (IsStopped S.tells S.view [] stores.old stores.new) }
{
    settle_all(stores, settlings)?;
    finish_moves(stores, roster)?;
    boot_all(stores)
}
