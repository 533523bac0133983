// Commits a class: what its members put comes into the log as one transaction.
ghost use Rattle.std.specs.Prelude.{◌≡◌, ◌≤◌, ◌<◌, ◌+◌, ◌*◌, ℕ, Some, None, length, OnOk, OnErr, IfErr, Contains};
ghost use Rattle.std.proofs.Common.{get_or};
ghost use Rattle.base_types.specs.Crash.{IsQuiet};
ghost use Rattle.disk_log.specs.Blame.{IsDiskOrMemory};
ghost use Rattle.disk_log.specs.Contents.{contents_of, page_in};
ghost use Rattle.disk_log.specs.Log.{disk_of, state_of, slot_of, IsIdle, IsSoundLog};
ghost use Rattle.disk_log.specs.State.{free_in};
ghost use Rattle.disk_classes.specs.Commit.{PutsIn, IsOnlyTx, KeepsStages, CommitsClass};
ghost use Rattle.disk_classes.specs.Notes.{pages_in_class, AreValues, AreWithin, IsPutIn};
ghost use Rattle.disk_classes.specs.declared.members.Value.{Value as Valued};

use crate::member::Noted;
use crate::members::{Value, count_pages};
use base_types::Disk;
use disk_log::{Log, LogFault, Tx};

// Puts the pages of a member.
fn put_pages<D: Disk>(
    log: &mut Log<D>,
    tx: &mut Tx,
    pages: &[u32],
    values: &[Option<Value>],
) -> Result<(), LogFault>
    requires sound { IsSoundLog D.tells D.view log.old }
    requires only { IsOnlyTx (slot_of tx.old) (length pages.now) (state_of log.old) }
    requires values { (p : ℕ) → Contains pages.now p
        → (p < (state_of log.old).half.pages) × ((value : Valued) × (get_or values.now p None ≡ Some value)) }
    ensures sound { IsSoundLog D.tells D.view log.new }
    ensures keeps { KeepsStages D.tells D.view 0 log.old log.new }
    ensures tx { tx.new ≡ tx.old }
    ensures puts { PutsIn (slot_of tx.old) (length pages.now) (state_of log.old) (state_of log.new) }
    ensures put { D.tells → OnOk result ((p : ℕ) (value : Valued) → Contains pages.now p
        → get_or values.now p None ≡ Some value → page_in (contents_of D.view log.new) p ≡ value.bytes) }
    ensures kept { D.tells → OnOk result ((p : ℕ) → (Contains pages.now p → ⊥)
        → page_in (contents_of D.view log.new) p ≡ page_in (contents_of D.view log.old) p) }
    ensures quiet { IsQuiet (D.view (disk_of log.old)) (D.view (disk_of log.new)) }
    ensures only { IfErr result (λ fault. IsDiskOrMemory fault (D.view (disk_of log.old)) (D.view (disk_of log.new))) }
{
    for page in pages {
        let Some(value) = &values[*page as usize] else {
            unreachable!()
        };
        log.put(tx, *page, &value.bytes)?;
    }
    Ok(())
}

// Puts the pages of a class.
fn put_class<D: Disk>(
    log: &mut Log<D>,
    tx: &mut Tx,
    noted: &[Noted],
    values: &[Option<Value>],
    class: usize,
) -> Result<(), LogFault>
    requires sound { IsSoundLog D.tells D.view log.old }
    requires only { IsOnlyTx (slot_of tx.old) (pages_in_class class noted.now) (state_of log.old) }
    requires values { AreValues noted.now values.now }
    requires within { AreWithin (state_of log.old).half.pages values.now }
    ensures sound { IsSoundLog D.tells D.view log.new }
    ensures keeps { KeepsStages D.tells D.view 0 log.old log.new }
    ensures tx { tx.new ≡ tx.old }
    ensures puts { PutsIn (slot_of tx.old) (pages_in_class class noted.now) (state_of log.old) (state_of log.new) }
    ensures put { D.tells → OnOk result ((p : ℕ) (value : Valued) → IsPutIn class noted.now p
        → get_or values.now p None ≡ Some value → page_in (contents_of D.view log.new) p ≡ value.bytes) }
    ensures kept { D.tells → OnOk result ((p : ℕ) → (IsPutIn class noted.now p → ⊥)
        → page_in (contents_of D.view log.new) p ≡ page_in (contents_of D.view log.old) p) }
    ensures quiet { IsQuiet (D.view (disk_of log.old)) (D.view (disk_of log.new)) }
    ensures only { IfErr result (λ fault. IsDiskOrMemory fault (D.view (disk_of log.old)) (D.view (disk_of log.new))) }
{
    for one in noted {
        if one.class == class {
            put_pages(log, tx, one.pages.as_slice(), values)?;
        }
    }
    Ok(())
}

// Commits a class. After an error the log is as it was.
pub(crate) fn commit<D: Disk>(
    log: &mut Log<D>,
    noted: &[Noted],
    values: &[Option<Value>],
    class: usize,
) -> Result<(), LogFault>
    requires idle { IsIdle D.tells D.view log.old }
    requires values { AreValues noted.now values.now }
    requires within { AreWithin (state_of log.old).half.pages values.now }
    requires room { 2 * pages_in_class class noted.now + 1 ≤ free_in (state_of log.old) }
    ensures ok { OnOk result (CommitsClass D.tells D.view class noted.now values.now log.old log.new) }
    ensures err { OnErr result (state_of log.new ≡ state_of log.old) }
    ensures idle { IsIdle D.tells D.view log.new }
    ensures counted { (D.view (disk_of log.old)).faults ≤ (D.view (disk_of log.new)).faults }
    ensures quiet { IsQuiet (D.view (disk_of log.old)) (D.view (disk_of log.new)) }
    ensures only { IfErr result (λ fault. IsDiskOrMemory fault (D.view (disk_of log.old)) (D.view (disk_of log.new))) }
{
    let mut tx = log.begin(count_pages(noted, class))?;
    match put_class(log, &mut tx, noted, values, class) {
        Ok(()) => {
            log.end(tx);
            Ok(())
        }
        Err(fault) => {
            log.undo(tx);
            Err(fault)
        }
    }
}
