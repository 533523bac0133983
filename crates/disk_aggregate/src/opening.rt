// The steps of a mount: the disk is judged, its log is brought to format 2, and the record is read back.
ghost use Rattle.std.specs.Prelude.{◌≡◌, ◌≤◌, true, None, length, OnOk, IfOk, IfErr};
ghost use Rattle.base_types.specs.Crash.{IsQuiet, IsSettled};
ghost use Rattle.base_outside.specs.Runs.{LeavesOnly};
ghost use Rattle.store_acts.specs.Sound.{KeepsLimits};
ghost use Rattle.disk_anode.specs.Faults.{IsNodeFault};
ghost use Rattle.disk_image.specs.Refused.{refused_at};
ghost use Rattle.disk_log.specs.Contents.{contents_of, last_stage, stage_in};
ghost use Rattle.disk_log.specs.Log.{disk_of, state_of, IsIdle};
ghost use Rattle.disk_log.specs.State.{free_in};
ghost use Rattle.disk_pages.specs.Server.{is_server_page};
ghost use Rattle.disk_aggregate.specs.Opening.{Opens, IsLeftReformed};
ghost use Rattle.disk_aggregate.specs.Refused.{IsRefused};

use crate::refused::MountRefused;
use base_types::{Disk, ServerId};
use disk_anode::NodeFault;
use disk_check::refusal;
use disk_log::Log;
use disk_records::{reform, state_in};
use std::alloc::Global;
use store_state::StoreState;
use tree_calls::Roster;

/// Judges a disk as it is found.
pub(crate) fn judge<D: Disk>(
    alloc: Global,
    disk: &mut D,
    server: ServerId,
    roster: &Roster,
) -> Result<(), MountRefused>
    ensures taken { D.tells
        → OnOk result (refused_at server.0 (length roster.now.capacity) (D.view disk.old).image ≡ None) }
    ensures quiet { IsQuiet (D.view disk.old) (D.view disk.new) }
    ensures counted { (D.view disk.old).faults ≤ (D.view disk.new).faults }
    ensures only { IfErr result (λ refused. IsRefused D.tells server.0 (length roster.now.capacity) refused
        (D.view disk.old) (D.view disk.new)) }
{
    let refused = refusal(alloc, disk, server, roster.capacity.len())?;
    match refused {
        None => Ok(()),
        Some(place) => Err(MountRefused::NotAggregate(place)),
    }
}

/// The record that a log just opened holds, from now on in format 2. It lacks memory also where a number is beyond
/// `most`, as in no log that was judged.
pub(crate) fn read_back<D: Disk>(
    alloc: Global,
    log: &mut Log<D>,
    server: ServerId,
    roster: &Roster,
    most: u64,
) -> Result<StoreState, NodeFault>
    requires idle { IsIdle D.tells D.view log.old }
    requires last { last_stage (contents_of D.view log.old) ≡ 0 }
    requires settled { IsSettled (D.view (disk_of log.old)) }
    requires room { 3 ≤ free_in (state_of log.old) }
    ensures opens { IfOk result (λ state. Opens D.tells D.view server roster.now most state log.old log.new) }
    ensures limits { IfOk result (λ state. KeepsLimits state) }
    ensures crash { D.tells → is_server_page (stage_in (contents_of D.view log.old) 0 0) ≡ true → LeavesOnly
        (IsLeftReformed D.view log.old) (D.view (disk_of log.old)) (D.view (disk_of log.new)) }
    ensures counted { (D.view (disk_of log.old)).faults ≤ (D.view (disk_of log.new)).faults }
    ensures only { IfErr result
        (λ fault. IsNodeFault fault (D.view (disk_of log.old)) (D.view (disk_of log.new))) }
{
    reform(log)?;
    if most < log.generation() {
        return Err(NodeFault::Memory);
    }
    let state = state_in(alloc, log, server, roster)?;
    if most < state.epoch || most < state.ship {
        return Err(NodeFault::Memory);
    }
    Ok(state)
}
