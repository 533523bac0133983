// What makes acts durable.
ghost use Rattle.std.specs.Prelude.{◌≡◌, ◌<◌, OnOk};
ghost use Rattle.disk_log.specs.Log.{state_of, IsIdle};
ghost use Rattle.disk_log.specs.State.{free_in};
ghost use Rattle.disk_acts.specs.Batch.{Settles};

use base_types::Disk;
use disk_anode::NodeFault;
use disk_log::Log;

// Makes durable what ended.
pub(crate) fn settle<D: Disk>(log: &mut Log<D>) -> Result<(), NodeFault>
    requires idle { IsIdle D.tells D.view log.old }
    ensures settles { Settles D.tells D.view result log.old log.new }
    ensures half { OnOk result ((state_of log.new).half ≡ (state_of log.old).half) }
    ensures free { OnOk result (free_in (state_of log.new) ≡ free_in (state_of log.old)) }
{
    match log.force() {
        Ok(()) => Ok(()),
        Err(fault) => Err(NodeFault::from(fault)),
    }
}

// So it does, and writes all pages in their places. All entries are free then.
pub(crate) fn empty<D: Disk>(log: &mut Log<D>) -> Result<(), NodeFault>
    requires idle { IsIdle D.tells D.view log.old }
    requires unworn { (state_of log.old).half.generation < 18446744073709551615 }
    ensures settles { Settles D.tells D.view result log.old log.new }
    ensures free { OnOk result (free_in (state_of log.new) ≡ 2048) }
{
    match log.checkpoint() {
        Ok(()) => Ok(()),
        Err(fault) => Err(NodeFault::from(fault)),
    }
}
