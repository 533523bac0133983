// A log of format 1, brought to format 2.
ghost use Rattle.std.specs.Prelude.{◌≡◌, ◌≤◌, true, OnOk, IfErr};
ghost use Rattle.base_types.specs.Crash.{IsSettled};
ghost use Rattle.disk_log.specs.Blame.{IsDiskOrMemory};
ghost use Rattle.disk_log.specs.Contents.{contents_of, last_stage, stage_in};
ghost use Rattle.disk_log.specs.Log.{disk_of, state_of, slot_of, IsIdle, IsSoundLog};
ghost use Rattle.disk_log.specs.State.{free_in};
ghost use Rattle.disk_anode.specs.Room.{is_page, MayPutAll};
ghost use Rattle.disk_pages.specs.Server.{is_server_page};
ghost use Rattle.disk_records.specs.Reforming.{PutsFormat, Reforms, LeavesReformed};

use base_types::Disk;
use disk_log::{Log, LogFault, Tx};
use disk_pages::{ServerFacts, facts_of, put_facts};

// The format of a server's page that is written.
const FORMAT: u8 = 2;

// Puts these facts, and ends the transaction. After an error it is undone.
fn put_format<D: Disk>(log: &mut Log<D>, tx: Tx, facts: &ServerFacts) -> Result<(), LogFault>
    requires sound { IsSoundLog D.tells D.view log.old }
    requires may { MayPutAll (is_page 0) (state_of log.old) (slot_of tx) }
    requires format { facts.now.format ≡ 2 }
    ensures { PutsFormat D.tells D.view (slot_of tx) facts.now result log.old log.new }
{
    let mut tx = tx;
    match put_facts(log, &mut tx, facts) {
        Ok(()) => {
            log.end(tx);
            Ok(())
        }
        Err(fault) => {
            log.undo(tx);
            Err(fault)
        }
    }
}

/// Brings a log of format 1 to format 2, in one transaction that is forced: the server's page says format 2 from then
/// on, and all else as before. A log of format 2 stays as it is. A crash at any moment of the call leaves the log as it
/// was, or in format 2. The errors are `Failed`, after which the log is to be mounted again, and `Memory`.
pub fn reform<D: Disk>(log: &mut Log<D>) -> Result<(), LogFault>
    requires idle { IsIdle D.tells D.view log.old }
    requires last { last_stage (contents_of D.view log.old) ≡ 0 }
    requires settled { IsSettled (D.view (disk_of log.old)) }
    requires room { 3 ≤ free_in (state_of log.old) }
    ensures reforms { OnOk result (Reforms D.tells D.view log.old log.new) }
    ensures crash { D.tells → is_server_page (stage_in (contents_of D.view log.old) 0 0) ≡ true
        → LeavesReformed D.view log.old log.new }
    ensures counted { (D.view (disk_of log.old)).faults ≤ (D.view (disk_of log.new)).faults }
    ensures only { IfErr result
        (λ fault. IsDiskOrMemory fault (D.view (disk_of log.old)) (D.view (disk_of log.new))) }
{
    let facts = facts_of(log)?;
    if facts.format == FORMAT {
        return Ok(());
    }
    let reformed = ServerFacts {
        format: FORMAT,
        ..facts
    };
    let tx = log.begin(1)?;
    put_format(log, tx, &reformed)?;
    log.force()
}
