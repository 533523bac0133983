ghost use Rattle.std.specs.Prelude.{
  ◌≡◌,
  ◌⊎◌,
  ◌+◌,
  ◌≤◌,
  ◌<◌,
  ◌^◌,
  ◌∷◌,
  ◌++◌,
  ⊤,
  [],
  ℕ,
  List,
  None,
  Some,
  length,
  IfOk,
  OnOk,
  OnErr,
};
ghost use Rattle.base_types.specs.Crash.{IsSettled, IsQuiet, ChangesBy};
ghost use Rattle.base_types.specs.Faults.{RoseBy};
ghost use Rattle.base_types.specs.Image.{AreBytes, bytes_from, Torn, Holds};
ghost use Rattle.base_types.specs.View.{IsCounted};
ghost use Rattle.base_types.specs.declared.limits.TheConstants.{DISK_END};
ghost use Rattle.base_outside.specs.Calls.{new_calls, IsCall};
ghost use Rattle.disk_device.specs.Replay.{overwritten, state_after, at_first};
ghost use Rattle.disk_device.specs.Tearing.{MayTear, MayLeaveStill};
ghost use Rattle.disk_device.specs.declared.act.Act.TheVariants.{Wrote, Tore, Synced};

use crate::act::Act;
use crate::bytes::{copy_out, overwrite};
use base_outside::Calls;
use base_types::{DISK_END, Disk, Failed, Items, NoMemory};
use std::alloc::{AllocError, Global};

/// A disk in memory. It keeps its first bytes and the list of what was done to it, by which it tells what a crash at
/// each moment may leave: between two syncs each written range may hold any bytes, also where the write failed; after
/// a sync that succeeds exactly what a read gives. The calls that are listed fail, those behind a limit, and those
/// that find no memory. A read gives what it gave before a write that failed.
#[derive(Drop)]
pub struct MemDisk {
    alloc: Global,
    start: Items<u8>,
    acts: Vec<Act>,
    bytes: Vec<u8>,
    calls: Calls,
    failed: bool,
    ghost replayed: { bytes.items ≡ (state_after (at_first start) acts.items).reads },
    ghost bytes_are: { AreBytes bytes.items },
}

impl MemDisk {
    ghost use Rattle.disk_device.specs.Memory.{disk_bytes, disk_calls};
    ghost use Rattle.disk_device.specs.Laws.{disk_view};

    /// A blank disk, of no bytes. The calls with the listed numbers fail; the first has number 1.
    pub fn new(alloc: Global, failing: &[u64]) -> Result<MemDisk, NoMemory>
        ensures bytes { IfOk result (λ disk. disk_bytes disk ≡ []) }
        ensures settled { IfOk result (λ disk. IsSettled (disk_view disk)) }
        ensures calls { IfOk result (λ disk. disk_calls disk ≡ new_calls failing.now None) }
    {
        MemDisk::of(alloc, &[], failing)
    }

    /// A disk of these bytes, none of which a crash undoes. The calls with the listed numbers fail.
    pub fn of(alloc: Global, bytes: &[u8], failing: &[u64]) -> Result<MemDisk, NoMemory>
        ensures bytes { IfOk result (λ disk. disk_bytes disk ≡ bytes.now) }
        ensures settled { IfOk result (λ disk. IsSettled (disk_view disk)) }
        ensures calls { IfOk result (λ disk. disk_calls disk ≡ new_calls failing.now None) }
    {
        let failing = Items::from_slice(alloc, failing)?;
        MemDisk::with(alloc, bytes, Calls::new(failing, None))
    }

    /// A disk of these bytes that passes so many calls and fails each later one.
    pub fn fuse(alloc: Global, bytes: &[u8], passes: u64) -> Result<MemDisk, NoMemory>
        ensures bytes { IfOk result (λ disk. disk_bytes disk ≡ bytes.now) }
        ensures settled { IfOk result (λ disk. IsSettled (disk_view disk)) }
        ensures calls { IfOk result (λ disk. disk_calls disk ≡ new_calls [] (Some passes)) }
    {
        MemDisk::with(alloc, bytes, Calls::new(Items::new(alloc), Some(passes)))
    }

    fn with(alloc: Global, bytes: &[u8], calls: Calls) -> Result<MemDisk, NoMemory>
        ensures bytes { IfOk result (λ disk. disk_bytes disk ≡ bytes.now) }
        ensures settled { IfOk result (λ disk. IsSettled (disk_view disk)) }
        ensures calls { IfOk result (λ disk. disk_calls disk ≡ calls) }
    {
        let start = Items::from_slice(alloc, bytes)?;
        let bytes = Vec::from_slice(alloc, bytes)?;
        Ok(MemDisk {
            alloc,
            start,
            acts: Vec::new(alloc),
            bytes,
            calls,
            failed: false,
        })
    }

    /// How many calls it had.
    pub fn calls(&self) -> u64
        ensures { result ≡ (disk_calls self.now).made }
    {
        self.calls.made
    }

    /// What a read gives.
    pub fn bytes(&self) -> &[u8]
        ensures { result.now ≡ disk_bytes self.now }
    {
        &self.bytes
    }

    /// How many growths found no memory.
    pub fn refused(&self) -> u64
        ensures { result ≡ (disk_calls self.now).refused }
    {
        self.calls.refused
    }
}

// Writes a piece, and notes it. An error leaves the bytes and the notes as they were.
fn wrote(
    alloc: Global,
    acts: &mut Vec<Act>,
    bytes: &mut Vec<u8>,
    at: u64,
    piece: &[u8],
) -> Result<(), NoMemory>
    requires { at + length piece.now < 2 ^ 63 }
    ensures bytes { OnOk result (bytes.new.items ≡ overwritten at piece.now bytes.old.items) }
    ensures noted { OnOk result (acts.new.items ≡ acts.old.items ++ Wrote at piece.now ∷ []) }
    ensures bytes_err { OnErr result (bytes.new.items ≡ bytes.old.items) }
    ensures acts_err { OnErr result (acts.new.items ≡ acts.old.items) }
{
    let kept = Items::from_slice(alloc, piece)?;
    acts.reserve(1)?;
    overwrite(bytes, at as usize, piece)?;
    acts.push_reserved(Act::Wrote { at, piece: kept });
    Ok(())
}

// Notes a write that failed. An error leaves the notes as they were.
fn tore(acts: &mut Vec<Act>, at: u64, len: usize) -> Result<(), AllocError>
    ensures noted { OnOk result (acts.new.items ≡ acts.old.items ++ Tore at len ∷ []) }
    ensures reads { (start : List ℕ) →
        (state_after (at_first start) acts.new.items).reads ≡ (state_after (at_first start) acts.old.items).reads }
    ensures acts_err { OnErr result (acts.new.items ≡ acts.old.items) }
{
    acts.push(Act::Tore { at, len })?;
    Ok(())
}

// Notes a sync. An error leaves the notes as they were.
fn synced(acts: &mut Vec<Act>) -> Result<(), AllocError>
    ensures noted { OnOk result (acts.new.items ≡ acts.old.items ++ Synced ∷ []) }
    ensures acts_err { OnErr result (acts.new.items ≡ acts.old.items) }
{
    acts.push(Act::Synced)?;
    Ok(())
}

impl Disk for MemDisk {
    ghost use Rattle.disk_device.specs.Memory.{disk_bytes, disk_calls};
    ghost use Rattle.disk_device.specs.Laws.{disk_has_bytes, disk_reads_one, disk_view};

    ghost tells = { ⊤ };

    ghost view = { disk_view };

    ghost reads_one = { λ disk _. disk_reads_one disk };

    ghost has_bytes = { λ disk _. disk_has_bytes disk };

    fn length(&mut self) -> Result<u64, Failed>
        ensures answer { ⊤ → IfOk result (λ n. n ≡ length (disk_bytes self.old)) }
        ensures quiet { IsQuiet (disk_view self.old) (disk_view self.new) }
        ensures faults { IsCounted result (disk_view self.old) (disk_view self.new) }
        ensures call { IsCall result (disk_calls self.old) (disk_calls self.new) }
        ensures still { MayLeaveStill (disk_view self.old) (disk_view self.new) }
    {
        self.failed = self.calls.next_fails();
        if self.failed {
            return Err(Failed);
        }
        Ok(self.bytes.len() as u64)
    }

    fn read(&mut self, at: u64, out: &mut [u8]) -> Result<(), Failed>
        requires { at + length out.old ≤ DISK_END }
        ensures bytes { ⊤ → OnOk result (out.new ≡ bytes_from (disk_bytes self.old) at (length out.old)) }
        ensures quiet { IsQuiet (disk_view self.old) (disk_view self.new) }
        ensures faults { IsCounted result (disk_view self.old) (disk_view self.new) }
        ensures call { IsCall result (disk_calls self.old) (disk_calls self.new) }
        ensures still { MayLeaveStill (disk_view self.old) (disk_view self.new) }
    {
        self.failed = self.calls.next_fails();
        if self.failed {
            return Err(Failed);
        }
        copy_out(&self.bytes, at as usize, out);
        Ok(())
    }

    fn write_at(&mut self, at: u64, piece: &[u8]) -> Result<(), Failed>
        requires { at + length piece.now ≤ DISK_END }
        ensures written { ⊤ → OnOk result (Holds at piece.now (disk_bytes self.new)) }
        ensures torn { ⊤ → Torn at (length piece.now) (disk_bytes self.old) (disk_bytes self.new) }
        ensures crash { ChangesBy (Torn at (length piece.now)) (disk_view self.old) (disk_view self.new) }
        ensures faults { IsCounted result (disk_view self.old) (disk_view self.new) }
        ensures call { IsCall result (disk_calls self.old) (disk_calls self.new) }
        ensures tears { MayTear at (length piece.now) (disk_view self.old) (disk_view self.new)
            ⊎ RoseBy 1 (disk_calls self.old).refused (disk_calls self.new).refused }
    {
        self.failed = self.calls.next_fails();
        if self.failed {
            match tore(&mut self.acts, at, piece.len()) {
                Ok(()) => Err(Failed),
                Err(_) => {
                    self.calls.refuse_growth();
                    Err(Failed)
                }
            }
        } else {
            match wrote(self.alloc, &mut self.acts, &mut self.bytes, at, piece) {
                Ok(()) => Ok(()),
                Err(_) => {
                    self.calls.refuse_growth();
                    self.failed = true;
                    Err(Failed)
                }
            }
        }
    }

    fn sync(&mut self) -> Result<(), Failed>
        ensures durable { OnOk result (IsSettled (disk_view self.new)) }
        ensures quiet { IsQuiet (disk_view self.old) (disk_view self.new) }
        ensures faults { IsCounted result (disk_view self.old) (disk_view self.new) }
        ensures call { IsCall result (disk_calls self.old) (disk_calls self.new) }
        ensures still { OnErr result (MayLeaveStill (disk_view self.old) (disk_view self.new)) }
    {
        self.failed = self.calls.next_fails();
        if self.failed {
            return Err(Failed);
        }
        match synced(&mut self.acts) {
            Ok(()) => Ok(()),
            Err(_) => {
                self.calls.refuse_growth();
                self.failed = true;
                Err(Failed)
            }
        }
    }
}
