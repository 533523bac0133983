ghost use Rattle.std.specs.Prelude.{
  ◌≡◌,
  ◌≢◌,
  ◌≤◌,
  ◌<◌,
  ◌+◌,
  ◌^◌,
  true,
  false,
  None,
  length,
  IfOk,
  IfErr,
  OnOk,
  OnErr,
};
ghost use Rattle.base_types.specs.Crash.{IsSettled};
ghost use Rattle.base_types.specs.Image.{byte_at};
ghost use Rattle.base_types.specs.declared.limits.TheConstants.{SERVERS_MAX, CAPACITY_MIN, CAPACITY_MAX};
ghost use Rattle.base_outside.specs.Runs.{LeavesOnly};
ghost use Rattle.message_types.specs.Soundness.{IsServer};
ghost use Rattle.store_state.specs.Capacity.{capacity_of};
ghost use Rattle.store_state.specs.State.{new_state};
ghost use Rattle.store_state.specs.declared.state.StoreState.{StoreState as State};
ghost use Rattle.disk_anode.specs.Faults.{IsNodeFault};
ghost use Rattle.disk_image.specs.Refused.{refused_at};
ghost use Rattle.disk_log.specs.Contents.{contents_of, last_stage, stage_in};
ghost use Rattle.disk_log.specs.Log.{disk_of, state_of, IsIdle};
ghost use Rattle.disk_log.specs.State.{free_in};
ghost use Rattle.disk_pages.specs.Server.{is_server_page};

use crate::opening::{judge, read_back};
use crate::refused::{MountRefused, opening_fault};
use base_types::{Disk, NoMemory, ServerId};
use disk_anode::NodeFault;
use disk_log::Log;
use std::alloc::Global;
use store_memory::MapStore;
use tree_calls::Roster;

// Blocks that are not offered to promises.
const SPARE: u32 = 1_024;

// Beyond this a number is worn.
const WORN: u64 = 9_223_372_036_854_775_808;

// By how many generations an opening of the log leaves it at most.
const OPENING_WEAR: u64 = 2;

/// A server's store on a disk: its filesets, the numbers of its hosts' requests and its facts, behind a write-ahead
/// log, and a copy of them in memory, of which comes all that is told.
///
/// A batch of acts is durable after `Ok`: each act is one transaction of the log, and one force behind the last makes
/// them durable together. A crash in it leaves what the first acts made, up to one of them, and so does an error, after
/// which memory may be ahead of the disk. So nothing may be asked till `reopen` has mounted the disk again and read
/// back what is there.
///
/// After S. Chutani et al., "The Episode File System", 1992: an aggregate is a disk that many filesets share, and its
/// log makes what belongs together durable as a whole or not at all.
#[derive(Drop)]
pub struct Aggregate<D: Disk> {
    pub(crate) log: Log<D>,
    // What the log keeps, in memory.
    pub(crate) store: MapStore,
    // By how much a number rose since the mount, at most.
    pub(crate) wear: u64,
    // Whether the log holds what is in memory. Not after a fault, till the log was opened again.
    pub(crate) is_open: bool,
}

impl<D: Disk> Aggregate<D> {
    ghost use Rattle.disk_aggregate.specs.Opening.{Opens, IsLeftReformed, HasStore, HoldsStore};
    ghost use Rattle.disk_aggregate.specs.Records.{HasRecord, HasSameRecord, IsLeftOfFormat};
    ghost use Rattle.disk_aggregate.specs.Refused.{IsRefused, IsOpenFault};
    ghost use Rattle.disk_aggregate.specs.Stands.{Stands, state_in as kept_in, disk_in};
    ghost use Rattle.disk_aggregate.specs.StoreView.{IsOpened};

    /// Formats a disk as the aggregate of a server of a roster, with the capacity that the roster gives it. What is on
    /// the disk is lost. The errors are `Failed` and `Memory`; either hands the disk back. A crash at any moment of the
    /// call over a disk whose first byte isn't 1, as on a blank one, leaves what a crash before could leave, a disk
    /// without a log, refused at place 0, or the new store.
    pub fn format(
        alloc: Global,
        disk: D,
        server: ServerId,
        roster: &Roster,
    ) -> Result<Aggregate<D>, (D, MountRefused)>
        requires declared { IsServer roster.now server }
        requires servers { length roster.now.capacity ≤ SERVERS_MAX }
        requires least { CAPACITY_MIN ≤ capacity_of roster.now server }
        requires most { capacity_of roster.now server ≤ CAPACITY_MAX }
        ensures new { IfOk result (λ aggregate.
            kept_in aggregate ≡ new_state server (capacity_of roster.now server) roster.now) }
        ensures stands { IfOk result (λ aggregate. Stands D.tells D.view aggregate) }
        ensures opened { IfOk result (λ aggregate. IsOpened D.tells D.view aggregate) }
        ensures record { D.tells
            → IfOk result (λ aggregate. HasRecord (kept_in aggregate) (D.view (disk_in aggregate)).image) }
        ensures crash { D.tells → byte_at (D.view disk).image 0 ≢ 1 → IfOk result (λ aggregate. LeavesOnly
            (IsLeftOfFormat (kept_in aggregate)) (D.view disk) (D.view (disk_in aggregate))) }
        ensures crash_err { D.tells → byte_at (D.view disk).image 0 ≢ 1 → IfErr result (λ e. LeavesOnly
            (IsLeftOfFormat (new_state server (capacity_of roster.now server) roster.now))
            (D.view disk) (D.view e.0)) }
        ensures counted { IfOk result (λ aggregate. (D.view disk).faults ≤ (D.view (disk_in aggregate)).faults) }
        ensures counted_err { IfErr result (λ e. (D.view disk).faults ≤ (D.view e.0).faults) }
        ensures only { IfErr result (λ e. IsOpenFault e.1 (D.view disk) (D.view e.0)) }
    {
        let store = match MapStore::new(alloc, server, roster) {
            Ok(store) => store,
            Err(NoMemory) => return Err((disk, MountRefused::Memory)),
        };
        let blocks = store.state().capacity + SPARE;
        match Log::format(alloc, disk, server.0, blocks) {
            Ok(log) => Ok(Aggregate {
                log,
                store,
                wear: 0,
                is_open: true,
            }),
            Err((disk, fault)) => Err((disk, MountRefused::from(fault))),
        }
    }

    /// Mounts the aggregate of a server on a disk. The disk is judged as it is found: it answers `NotAggregate` exactly
    /// where the bytes have no image for the server, name a server that the roster doesn't declare, or are worn, with
    /// the place; not a byte is written then. `Failed` comes only where the disk's count of faults rose. Each error
    /// hands the disk back, with the same record. Else the aggregate keeps the record of the disk's image, and a disk
    /// of format 1 is one of format 2 from now on. A crash at any moment of the call leaves what a crash before could
    /// leave, or the same record again.
    pub fn mount(
        alloc: Global,
        disk: D,
        server: ServerId,
        roster: &Roster,
    ) -> Result<Aggregate<D>, (D, MountRefused)>
        requires servers { length roster.now.capacity ≤ SERVERS_MAX }
        ensures own { IfOk result (λ aggregate.
            ((kept_in aggregate).server ≡ server) × ((kept_in aggregate).roster ≡ roster.now)) }
        ensures taken { D.tells
            → OnOk result (refused_at server.0 (length roster.now.capacity) (D.view disk).image ≡ None) }
        ensures stands { IfOk result (λ aggregate. Stands D.tells D.view aggregate) }
        ensures opened { IfOk result (λ aggregate. IsOpened D.tells D.view aggregate) }
        ensures kept { D.tells → IfOk result
            (λ aggregate. HasRecord (kept_in aggregate) (D.view disk).image) }
        ensures record { D.tells → IfOk result (λ aggregate. HasSameRecord roster.now server
            (D.view disk).image (D.view (disk_in aggregate)).image) }
        ensures record_err { D.tells → IfErr result
            (λ e. HasSameRecord roster.now server (D.view disk).image (D.view e.0).image) }
        ensures crash { D.tells → IfOk result (λ aggregate. LeavesOnly
            (HasSameRecord roster.now server (D.view disk).image) (D.view disk) (D.view (disk_in aggregate))) }
        ensures crash_err { D.tells → IfErr result (λ e. LeavesOnly
            (HasSameRecord roster.now server (D.view disk).image) (D.view disk) (D.view e.0)) }
        ensures counted { IfOk result (λ aggregate. (D.view disk).faults ≤ (D.view (disk_in aggregate)).faults) }
        ensures counted_err { IfErr result (λ e. (D.view disk).faults ≤ (D.view e.0).faults) }
        ensures only { IfErr result
            (λ e. IsRefused D.tells server.0 (length roster.now.capacity) e.1 (D.view disk) (D.view e.0)) }
    {
        let mut disk = disk;
        if let Err(refused) = judge(alloc, &mut disk, server, roster) {
            return Err((disk, refused));
        }
        match Log::mount(alloc, disk) {
            Ok(log) => Aggregate::open(alloc, log, server, roster),
            Err((disk, fault)) => Err((disk, MountRefused::from(fault))),
        }
    }

    // The aggregate behind a log just mounted.
    fn open(
        alloc: Global,
        log: Log<D>,
        server: ServerId,
        roster: &Roster,
    ) -> Result<Aggregate<D>, (D, MountRefused)>
        requires idle { IsIdle D.tells D.view log }
        requires last { last_stage (contents_of D.view log) ≡ 0 }
        requires settled { IsSettled (D.view (disk_of log)) }
        requires room { 3 ≤ free_in (state_of log) }
        ensures opens { IfOk result (λ aggregate.
            Opens D.tells D.view server roster.now 9223372036854775808 (kept_in aggregate) log aggregate.log) }
        ensures wear { IfOk result (λ aggregate. aggregate.wear ≡ 0) }
        ensures open { IfOk result (λ aggregate. aggregate.is_open ≡ true) }
        ensures crash { D.tells → is_server_page (stage_in (contents_of D.view log) 0 0) ≡ true
            → IfOk result (λ aggregate. LeavesOnly
            (IsLeftReformed D.view log) (D.view (disk_of log)) (D.view (disk_in aggregate))) }
        ensures crash_err { D.tells → is_server_page (stage_in (contents_of D.view log) 0 0) ≡ true
            → IfErr result (λ e. LeavesOnly (IsLeftReformed D.view log) (D.view (disk_of log)) (D.view e.0)) }
        ensures counted { IfOk result
            (λ aggregate. (D.view (disk_of log)).faults ≤ (D.view (disk_in aggregate)).faults) }
        ensures counted_err { IfErr result (λ e. (D.view (disk_of log)).faults ≤ (D.view e.0).faults) }
        ensures only { IfErr result (λ e. IsOpenFault e.1 (D.view (disk_of log)) (D.view e.0)) }
    {
        let mut log = log;
        match read_back(alloc, &mut log, server, roster, WORN) {
            Ok(state) => Ok(Aggregate {
                log,
                store: MapStore::from_state(state),
                wear: 0,
                is_open: true,
            }),
            Err(fault) => Err((log.into_disk(), MountRefused::from(fault))),
        }
    }

    // Reads back what the log holds, which was just mounted again.
    fn read_again(&mut self) -> Result<(), NodeFault>
        requires idle { IsIdle D.tells D.view self.old.log }
        requires last { last_stage (contents_of D.view self.old.log) ≡ 0 }
        requires settled { IsSettled (D.view (disk_in self.old)) }
        requires room { 3 ≤ free_in (state_of self.old.log) }
        requires unworn { self.old.wear < 2 ^ 49 }
        ensures opens { OnOk result (Opens D.tells D.view (kept_in self.old).server (kept_in self.old).roster
            (9223372036854775808 + self.old.wear) (kept_in self.new) self.old.log self.new.log) }
        ensures open { OnOk result (self.new.is_open ≡ true) }
        ensures shut { OnErr result (self.new.is_open ≡ self.old.is_open) }
        ensures memory { OnErr result (kept_in self.new ≡ kept_in self.old) }
        ensures wear { self.new.wear ≡ self.old.wear }
        ensures crash { D.tells → is_server_page (stage_in (contents_of D.view self.old.log) 0 0) ≡ true
            → LeavesOnly (IsLeftReformed D.view self.old.log) (D.view (disk_in self.old)) (D.view (disk_in self.new)) }
        ensures counted { (D.view (disk_in self.old)).faults ≤ (D.view (disk_in self.new)).faults }
        ensures only { IfErr result
            (λ fault. IsNodeFault fault (D.view (disk_in self.old)) (D.view (disk_in self.new))) }
    {
        let known = self.store.state();
        let alloc = known.slots.alloc();
        let most = WORN + self.wear;
        let state = read_back(alloc, &mut self.log, known.server, &known.roster, most)?;
        self.store = MapStore::from_state(state);
        self.is_open = true;
        Ok(())
    }

    /// Mounts the log of its own disk again, as after a fault, and reads back what it holds. The errors are `Failed`
    /// and `Memory`; after either it isn't open, and is to be opened again. How worn the disk is isn't judged. A crash
    /// at any moment of the call leaves what a crash before could leave, or the same record again.
    pub(crate) fn open_again(&mut self) -> Result<(), NodeFault>
        requires unworn { self.old.wear < 2 ^ 48 }
        ensures stands { (D.tells → (state : State) × HoldsStore D.view state self.old)
            → OnOk result (Stands D.tells D.view self.new) }
        ensures state { D.tells → (state : State) → HoldsStore D.view state self.old
            → OnOk result (kept_in self.new ≡ state) }
        ensures left { D.tells → (state : State) → HoldsStore D.view state self.old
            → HasStore self.new.wear state (D.view (disk_in self.new)).image }
        ensures memory { OnErr result (kept_in self.new ≡ kept_in self.old) }
        ensures server { (kept_in self.new).server ≡ (kept_in self.old).server }
        ensures roster { (kept_in self.new).roster ≡ (kept_in self.old).roster }
        ensures open { OnOk result (self.new.is_open ≡ true) }
        ensures shut { OnErr result (self.new.is_open ≡ false) }
        ensures wear { self.new.wear ≡ self.old.wear + 2 }
        ensures crash { D.tells → (state : State) → HoldsStore D.view state self.old
            → LeavesOnly (HasRecord state) (D.view (disk_in self.old)) (D.view (disk_in self.new)) }
        ensures counted { (D.view (disk_in self.old)).faults ≤ (D.view (disk_in self.new)).faults }
        ensures only { IfErr result
            (λ fault. IsNodeFault fault (D.view (disk_in self.old)) (D.view (disk_in self.new))) }
    {
        self.is_open = false;
        self.wear += OPENING_WEAR;
        if let Err(fault) = self.log.reopen() {
            return Err(opening_fault(fault));
        }
        self.read_again()
    }

    /// The disk. What is kept in memory is gone.
    pub fn into_disk(self) -> D
        ensures { result ≡ disk_in self }
    {
        let Aggregate {
            log,
            store: _store,
            wear: _wear,
            is_open: _is_open,
        } = self;
        log.into_disk()
    }
}
