// The transaction of an act.
ghost use Rattle.std.specs.Prelude.{◌≡◌, ◌≤◌};
ghost use Rattle.disk_log.specs.Log.{state_of, slot_of, IsSoundLog, IsIdle};
ghost use Rattle.disk_log.specs.State.{free_in, IsOpen};
ghost use Rattle.disk_acts.specs.Steps.{Begins, Finishes};

use base_types::Disk;
use disk_anode::NodeFault;
use disk_log::{Log, Tx};

// Pages that an act puts at most: 2 of the server, 32 of headers and of numbers, those of a slot's 64 anodes, and those
// of counts, 260 at most.
const ACT_PAGES: u32 = 358;

/// Entries of the log that an act needs, of which at most as many are used as it puts pages, and one.
pub const ACT_ENTRIES: u32 = 717;

// Begins the transaction.
pub fn begin<D: Disk>(log: &mut Log<D>) -> Result<Tx, NodeFault>
    requires idle { IsIdle D.tells D.view log.old }
    requires entries { 717 ≤ free_in (state_of log.old) }
    ensures { Begins D.tells D.view result log.old log.new }
{
    match log.begin(ACT_PAGES) {
        Ok(tx) => Ok(tx),
        Err(_) => Err(NodeFault::Memory),
    }
}

// Ends the transaction where all was put, and else undoes it.
pub fn finish<D: Disk>(
    log: &mut Log<D>,
    tx: Tx,
    put: Result<(), NodeFault>,
) -> Result<(), NodeFault>
    requires sound { IsSoundLog D.tells D.view log.old }
    requires opened { IsOpen (state_of log.old) (slot_of tx) }
    ensures same { result ≡ put }
    ensures finishes { Finishes D.tells D.view (slot_of tx) put log.old log.new }
{
    match put {
        Ok(()) => {
            log.end(tx);
            Ok(())
        }
        Err(fault) => {
            log.undo(tx);
            Err(fault)
        }
    }
}
