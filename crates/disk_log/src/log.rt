// The log of a disk, with what its transactions put.
ghost use Rattle.std.specs.Prelude.{◌≡◌, ◌≢◌, ◌+◌, ◌*◌, ◌<◌, ◌≤◌, ℕ, List, ◌==◌, if◌then◌else◌, length, get_or, OnOk};
ghost use Rattle.std.specs.Prelude.{OnErr, IfOk, IfErr};
ghost use Rattle.base_types.specs.Image.{byte_at, Torn, Holds};
ghost use Rattle.base_outside.specs.Runs.{LeavesOnly};
ghost use Rattle.disk_layout.specs.Places.{block_start, pages_end, pages_of, SameBlocks};
ghost use Rattle.base_types.specs.Crash.{IsSettled, IsQuiet, ChangesBy};
ghost use Rattle.disk_log.specs.declared.fault.LogFault.TheVariants.{Failed as DiskFailed, Memory as NoMemory};

use crate::append::append;
use crate::checkpoint::{checkpoint, next_half};
use crate::fault::LogFault;
use crate::fetch::fetch;
use crate::format::formatted;
use crate::kept::{Kept, Tx, keep};
use crate::mount::mounted;
use crate::over::{or_all, overlay, redo};
use crate::put::Put;
use crate::recover::recovered;
use crate::switch::piece;
use base_types::Disk;
use disk_layout::{PAGE, Superblock};
use std::alloc::Global;

/// The log of a disk. Metadata pages have 512 bytes and are counted from 0; blocks have 1,024. After `Failed` of
/// `force` or `checkpoint` it is to be taken apart and mounted again; after every other error it goes on.
#[derive(Drop)]
pub struct Log<D: Disk> {
    disk: D,
    kept: Kept,
}

impl<D: Disk> Log<D> {
    ghost use Rattle.disk_log.specs.Log.{disk_of, state_of, slot_of, IsSoundLog};
    ghost use Rattle.disk_log.specs.Blame.{IsBlamed, IsDiskOrMemory};
    ghost use Rattle.disk_log.specs.Begin.{IsBegun};
    ghost use Rattle.disk_log.specs.Contents.{contents_of, over, page_in, last_stage, stage_in, settled_in, block_in};
    ghost use Rattle.disk_log.specs.Contents.{Reads, Keeps, AppendsStage, KeepsLast, IsLeft};
    ghost use Rattle.disk_log.specs.Format.{IsFormatted, IsLeftOfFormat, IsMarkedFirst, first_half, superblock_of};
    ghost use Rattle.disk_log.specs.Mount.{IsMounted, IsMountFault, IsSameLog, IsQuietOr};
    ghost use Rattle.disk_log.specs.State.{IsOpen, HasNoOpen, MayPut, HasRoom, free_in, put_of, with_put, closed};
    ghost use Rattle.disk_log.specs.State.{ended, forced_all, fresh_state, emptied};

    /// Formats a disk as a log of so many blocks, 1 to 66,560. Its first page is that of a server without filesets,
    /// and the other pages are zero. The errors are `Failed`, where the count of faults rose, and `Memory`, which
    /// leaves the bytes of the disk as they were; either hands the disk back. Where the disk's first byte isn't 1, as
    /// on a blank disk, a crash at any moment of the call leaves what a crash before could leave, a disk without a
    /// log, refused at place 0, or the formatted one; after an error the disk is as it was, or holds no log or the
    /// formatted one. The mark of a format is durable before anything else is written: what a crash leaves differs from
    /// the disk in its first page alone, or is blank by the mark, or is the formatted one. On any other disk nothing is
    /// promised of a crash.
    pub fn format(alloc: Global, disk: D, server: u8, blocks: u32) -> Result<Log<D>, (D, LogFault)>
        requires some_blocks { 1 ≤ blocks }
        requires few_blocks { blocks ≤ 66560 }
        ensures sound { IfOk result (λ log. IsSoundLog D.tells D.view log) }
        ensures formatted { D.tells
            → IfOk result (λ log. IsFormatted (superblock_of server blocks) (D.view (disk_of log)).image) }
        ensures state { IfOk result (λ log.
            state_of log ≡ fresh_state (superblock_of server blocks) (first_half (superblock_of server blocks))) }
        ensures settled { IfOk result (λ log. IsSettled (D.view (disk_of log))) }
        ensures crash { D.tells → byte_at (D.view disk).image 0 ≢ 1 → IfOk result
            (λ log. LeavesOnly (IsLeftOfFormat (superblock_of server blocks)) (D.view disk) (D.view (disk_of log))) }
        ensures crash_err { D.tells → byte_at (D.view disk).image 0 ≢ 1
            → IfErr result (λ e. LeavesOnly (IsLeftOfFormat (superblock_of server blocks)) (D.view disk) (D.view e.0)) }
        ensures left_err { D.tells → byte_at (D.view disk).image 0 ≢ 1
            → IfErr result (λ e. IsQuietOr (IsLeftOfFormat (superblock_of server blocks)) (D.view disk) (D.view e.0)) }
        ensures marked { D.tells → byte_at (D.view disk).image 0 ≢ 1 → IfOk result (λ log. LeavesOnly
            (IsMarkedFirst (superblock_of server blocks) (D.view disk).image) (D.view disk) (D.view (disk_of log))) }
        ensures marked_err { D.tells → byte_at (D.view disk).image 0 ≢ 1 → IfErr result (λ e. LeavesOnly
            (IsMarkedFirst (superblock_of server blocks) (D.view disk).image) (D.view disk) (D.view e.0)) }
        ensures within { D.tells → IfOk result (λ log. (at : ℕ) → pages_end (pages_of blocks) ≤ at
            → byte_at (D.view (disk_of log)).image at ≡ byte_at (D.view disk).image at) }
        ensures counted { IfOk result (λ log. (D.view disk).faults ≤ (D.view (disk_of log)).faults) }
        ensures counted_err { IfErr result (λ e. (D.view disk).faults ≤ (D.view e.0).faults) }
        ensures only { IfErr result (λ e. IsDiskOrMemory e.1 (D.view disk) (D.view e.0)) }
    {
        let mut disk = disk;
        match formatted(alloc, &mut disk, Superblock { server, blocks }) {
            Ok(kept) => Ok(Log { disk, kept }),
            Err(fault) => Err((disk, fault)),
        }
    }

    /// Mounts the log on a disk: recovers it by redo and undo, writes each page that an entry of the used half names
    /// in its place, and goes on in the other half, which then has no entries. It answers `NotALog` exactly where the
    /// bytes of the disk are no log, with the place, or, at 512, where the generation of the used half is the last
    /// value of 64 bits; `Failed` only where the count of faults rose; and `Memory`. Each hands the disk back, the
    /// first and the last with the bytes as they were; after `Failed` the disk is as it was, or holds the same log. A
    /// crash at any moment of the call leaves what a crash before could leave, or the same log again, whose used half
    /// is of the same generation or the next.
    pub fn mount(alloc: Global, disk: D) -> Result<Log<D>, (D, LogFault)>
        ensures sound { IfOk result (λ log. IsSoundLog D.tells D.view log) }
        ensures mounted { D.tells
            → IfOk result (λ log. IsMounted (D.view disk).image (D.view (disk_of log)).image (state_of log)) }
        ensures fresh { IfOk result (λ log. state_of log ≡ fresh_state (state_of log).superblock (state_of log).half) }
        ensures settled { IfOk result (λ log. IsSettled (D.view (disk_of log))) }
        ensures crash { D.tells
            → IfOk result (λ log. LeavesOnly (IsSameLog (D.view disk).image) (D.view disk) (D.view (disk_of log))) }
        ensures crash_err { D.tells
            → IfErr result (λ e. LeavesOnly (IsSameLog (D.view disk).image) (D.view disk) (D.view e.0)) }
        ensures left_err { D.tells
            → IfErr result (λ e. IsQuietOr (IsSameLog (D.view disk).image) (D.view disk) (D.view e.0)) }
        ensures counted { IfOk result (λ log. (D.view disk).faults ≤ (D.view (disk_of log)).faults) }
        ensures counted_err { IfErr result (λ e. (D.view disk).faults ≤ (D.view e.0).faults) }
        ensures only { IfErr result (λ e. IsMountFault D.tells e.1 (D.view disk) (D.view e.0)) }
    {
        let mut disk = disk;
        match mounted(alloc, &mut disk) {
            Ok(kept) => Ok(Log { disk, kept }),
            Err(fault) => Err((disk, fault)),
        }
    }

    /// Mounts the log on its own disk again, as after a force that failed. What was put or ended and not forced is
    /// gone. The errors are those of `mount`, after which it is to be mounted once more; `NotALog` comes only where
    /// the disk holds another log than this one left, or none. A crash at any moment of the call leaves what a crash
    /// in `mount` leaves.
    pub fn reopen(&mut self) -> Result<(), LogFault>
        ensures sound { OnOk result (IsSoundLog D.tells D.view self.new) }
        ensures mounted { D.tells → OnOk result (IsMounted (D.view (disk_of self.old)).image
            (D.view (disk_of self.new)).image (state_of self.new)) }
        ensures fresh { OnOk result
            (state_of self.new ≡ fresh_state (state_of self.new).superblock (state_of self.new).half) }
        ensures settled { OnOk result (IsSettled (D.view (disk_of self.new))) }
        ensures err { OnErr result (state_of self.new ≡ state_of self.old) }
        ensures crash { D.tells → LeavesOnly (IsSameLog (D.view (disk_of self.old)).image)
            (D.view (disk_of self.old)) (D.view (disk_of self.new)) }
        ensures left { D.tells → OnErr result (IsQuietOr (IsSameLog (D.view (disk_of self.old)).image)
            (D.view (disk_of self.old)) (D.view (disk_of self.new))) }
        ensures counted { (D.view (disk_of self.old)).faults ≤ (D.view (disk_of self.new)).faults }
        ensures only { IfErr result
            (λ fault. IsMountFault D.tells fault (D.view (disk_of self.old)) (D.view (disk_of self.new))) }
    {
        let kept = mounted(self.kept.pages.alloc(), &mut self.disk)?;
        self.kept = kept;
        Ok(())
    }

    /// The disk. What the log keeps in memory is gone.
    pub fn into_disk(self) -> D
        ensures { result ≡ disk_of self }
    {
        let Log { disk, kept: _kept } = self;
        disk
    }

    /// The server that the superblock names.
    pub fn server(&self) -> u8
        ensures { result ≡ (state_of self.now).superblock.server }
    {
        self.kept.superblock.server
    }

    /// The generation of the used half.
    pub fn generation(&self) -> u64
        ensures { result ≡ (state_of self.now).half.generation }
    {
        self.kept.half.generation
    }

    /// How many blocks the aggregate has.
    pub fn blocks(&self) -> u32
        ensures { result ≡ (state_of self.now).superblock.blocks }
    {
        self.kept.superblock.blocks
    }

    /// Fills `out`, of 512 bytes, with a metadata page under all puts. A page is read from the disk once at most. The
    /// only error is `Failed`, after which `out` may hold anything.
    pub fn page(&mut self, page: u32, out: &mut [u8]) -> Result<(), LogFault>
        requires sound { IsSoundLog D.tells D.view self.old }
        requires page { page < (state_of self.old).half.pages }
        requires size { length out.old ≡ 512 }
        ensures reads { Reads D.tells D.view result self.old self.new }
        ensures bytes { D.tells → OnOk result (out.new ≡ page_in (contents_of D.view self.old) page) }
        ensures only { IfErr result (λ fault. fault ≡ DiskFailed) }
    {
        let mut bytes = [0; PAGE];
        fetch(
            &mut self.disk,
            &mut self.kept.pages,
            &self.kept.entries[..self.kept.forced],
            page,
            &mut bytes,
        )?;
        redo(&self.kept.entries[self.kept.forced..], page, &mut bytes);
        overlay(&self.kept.puts, page, &mut bytes);
        out.copy_from_slice(&bytes);
        Ok(())
    }

    /// Fills `out`, of 512 bytes, with the bitwise or of what a crash may leave of a metadata page: the page as the
    /// last force that answered `Ok` left it, and what each transaction that ended since left of it. The only error
    /// is `Failed`, after which `out` may hold anything.
    pub fn settled(&mut self, page: u32, out: &mut [u8]) -> Result<(), LogFault>
        requires sound { IsSoundLog D.tells D.view self.old }
        requires page { page < (state_of self.old).half.pages }
        requires size { length out.old ≡ 512 }
        ensures reads { Reads D.tells D.view result self.old self.new }
        ensures bytes { D.tells
            → OnOk result ((k : ℕ) → k < 512 → get_or out.new k 0 ≡ settled_in (contents_of D.view self.old) page k) }
        ensures covers { D.tells → OnOk result
            ((s k : ℕ) → k < 512 → get_or (stage_in (contents_of D.view self.old) s page) k 0 ≤ get_or out.new k 0) }
        ensures only { IfErr result (λ fault. fault ≡ DiskFailed) }
    {
        let mut bytes = [0; PAGE];
        fetch(
            &mut self.disk,
            &mut self.kept.pages,
            &self.kept.entries[..self.kept.forced],
            page,
            &mut bytes,
        )?;
        or_all(&self.kept.entries[self.kept.forced..], page, &mut bytes);
        out.copy_from_slice(&bytes);
        Ok(())
    }

    /// Entries of the log that are free: a transaction of `n` pages needs `2 * n + 1`.
    pub fn free(&self) -> u32
        requires { HasRoom (state_of self.now) }
        ensures { result ≡ free_in (state_of self.now) }
    {
        self.kept.free()
    }

    /// Begins a transaction that puts so many pages at most. It reserves `2 * pages + 1` entries, and answers `Full`,
    /// with both numbers, exactly where fewer are free. The other error is `Memory`; after either the log is as
    /// before.
    pub fn begin(&mut self, pages: u32) -> Result<Tx, LogFault>
        requires sound { IsSoundLog D.tells D.view self.old }
        ensures keeps { Keeps D.tells D.view 0 self.old self.new }
        ensures begun { IsBegun (2 * pages + 1) result (state_of self.old) (state_of self.new) }
        ensures disk { disk_of self.new ≡ disk_of self.old }
    {
        self.kept.begin(pages)
    }

    /// Puts `new`, of 512 bytes, in place of a metadata page. It stays in memory until the transaction has ended and
    /// a force makes it durable. The errors are `Failed` and `Memory`; after either the log is as before, but for
    /// pages that it has read.
    pub fn put(&mut self, tx: &mut Tx, page: u32, new: &[u8]) -> Result<(), LogFault>
        requires sound { IsSoundLog D.tells D.view self.old }
        requires may { MayPut (state_of self.old) (slot_of tx.old) page }
        requires page { page < (state_of self.old).half.pages }
        requires size { length new.now ≡ 512 }
        ensures keeps { Keeps D.tells D.view 0 self.old self.new }
        ensures tx { tx.new ≡ tx.old }
        ensures put { OnOk result ((old : List ℕ)
            × (state_of self.new ≡ with_put (state_of self.old) (put_of (slot_of tx.old) page old new.now))) }
        ensures err { OnErr result (state_of self.new ≡ state_of self.old) }
        ensures pages { OnOk result ((image : List ℕ) (p : ℕ) →
            page_in (over image self.new) p ≡ (if page == p then new.now else page_in (over image self.old) p)) }
        ensures quiet { IsQuiet (D.view (disk_of self.old)) (D.view (disk_of self.new)) }
        ensures only { IfErr result
            (λ fault. IsDiskOrMemory fault (D.view (disk_of self.old)) (D.view (disk_of self.new))) }
    {
        let mut old = [0; PAGE];
        fetch(
            &mut self.disk,
            &mut self.kept.pages,
            &self.kept.entries[..self.kept.forced],
            page,
            &mut old,
        )?;
        redo(&self.kept.entries[self.kept.forced..], page, &mut old);
        let mut bytes = [0; PAGE];
        bytes.copy_from_slice(new);
        self.kept.put(Put {
            slot: tx.slot,
            page,
            old,
            new: bytes,
        })
    }

    /// Ends a transaction. It is durable after the next force that answers `Ok`. It keeps an entry for each page that
    /// it put, and one for its end; what it reserved beyond is free.
    pub fn end(&mut self, tx: Tx)
        requires sound { IsSoundLog D.tells D.view self.old }
        requires opened { IsOpen (state_of self.old) (slot_of tx) }
        ensures keeps { Keeps D.tells D.view 1 self.old self.new }
        ensures state { state_of self.new ≡ ended (state_of self.old) (slot_of tx) }
        ensures disk { disk_of self.new ≡ disk_of self.old }
        ensures pages { (image : List ℕ) (p : ℕ) → page_in (over image self.new) p ≡ page_in (over image self.old) p }
        ensures appends { D.tells
            → AppendsStage (slot_of tx) (contents_of D.view self.old) (contents_of D.view self.new) }
    {
        self.kept.end(tx);
    }

    /// Undoes a transaction. The pages that it put are as before it, and a crash leaves nothing of it.
    pub fn undo(&mut self, tx: Tx)
        requires sound { IsSoundLog D.tells D.view self.old }
        requires opened { IsOpen (state_of self.old) (slot_of tx) }
        ensures keeps { Keeps D.tells D.view 0 self.old self.new }
        ensures state { state_of self.new ≡ closed (state_of self.old) (slot_of tx) }
        ensures disk { disk_of self.new ≡ disk_of self.old }
    {
        self.kept.undo(tx);
    }

    /// Makes durable what the ended transactions put and, also where none ended, the blocks that were written. A
    /// crash at any moment of the call leaves the pages after the first of those that ended since the last force, in
    /// the order of their ends, or after none. No page is written in its place. The only error is `Failed`, after
    /// which the log is to be mounted again.
    pub fn force(&mut self) -> Result<(), LogFault>
        requires sound { IsSoundLog D.tells D.view self.old }
        ensures sound { OnOk result (IsSoundLog D.tells D.view self.new) }
        ensures state { OnOk result (state_of self.new ≡ forced_all (state_of self.old)) }
        ensures stages { D.tells → OnOk result (KeepsLast (contents_of D.view self.old) (contents_of D.view self.new)) }
        ensures pages { D.tells → (p : ℕ)
            → page_in (contents_of D.view self.new) p ≡ page_in (contents_of D.view self.old) p }
        ensures blocks { D.tells → SameBlocks
            (state_of self.old).half.pages (D.view (disk_of self.old)).image (D.view (disk_of self.new)).image }
        ensures durable { OnOk result (IsSettled (D.view (disk_of self.new))) }
        ensures crash { D.tells → LeavesOnly (IsLeft (contents_of D.view self.old) (D.view (disk_of self.old)))
            (D.view (disk_of self.old)) (D.view (disk_of self.new)) }
        ensures blamed { IsBlamed result (D.view (disk_of self.old)) (D.view (disk_of self.new)) }
        ensures only { IfErr result (λ fault. fault ≡ DiskFailed) }
    {
        append(
            &mut self.disk,
            &self.kept.half,
            &self.kept.entries,
            self.kept.forced,
        )?;
        keep(&mut self.kept.pages, &self.kept.entries[self.kept.forced..]);
        self.kept.forced = self.kept.entries.len();
        Ok(())
    }

    /// Makes durable what a force does, writes each page that an entry names in its place, and goes on in the other
    /// half, which then has no entries. No transaction may be open, and the generation has to be below the last value
    /// of 64 bits. A crash at any moment of the call leaves what a crash in a force may leave. The errors are
    /// `Memory`, which leaves the log and its disk as before, and `Failed`, after which the log is to be mounted
    /// again.
    pub fn checkpoint(&mut self) -> Result<(), LogFault>
        requires sound { IsSoundLog D.tells D.view self.old }
        requires none_open { HasNoOpen (state_of self.old) }
        requires unworn { (state_of self.old).half.generation < 18446744073709551615 }
        ensures sound { OnOk result (IsSoundLog D.tells D.view self.new) }
        ensures state { OnOk result (state_of self.new ≡ emptied (state_of self.old)) }
        ensures memory { IfErr result (λ fault. fault ≡ NoMemory → self.new ≡ self.old) }
        ensures stages { D.tells → OnOk result (KeepsLast (contents_of D.view self.old) (contents_of D.view self.new)) }
        ensures pages { D.tells → OnOk result ((p : ℕ) → p < (state_of self.old).half.pages →
            page_in (contents_of D.view self.new) p ≡ page_in (contents_of D.view self.old) p) }
        ensures blocks { D.tells → SameBlocks
            (state_of self.old).half.pages (D.view (disk_of self.old)).image (D.view (disk_of self.new)).image }
        ensures durable { OnOk result (IsSettled (D.view (disk_of self.new))) }
        ensures crash { D.tells → LeavesOnly (IsLeft (contents_of D.view self.old) (D.view (disk_of self.old)))
            (D.view (disk_of self.old)) (D.view (disk_of self.new)) }
        ensures counted { (D.view (disk_of self.old)).faults ≤ (D.view (disk_of self.new)).faults }
        ensures only { IfErr result
            (λ fault. IsDiskOrMemory fault (D.view (disk_of self.old)) (D.view (disk_of self.new))) }
    {
        let alloc = self.kept.pages.alloc();
        let table = recovered(alloc, &self.kept.entries, self.kept.half.pages)?;
        let mut bytes = piece(alloc)?;
        self.force()?;
        let next = next_half(&self.kept.half);
        checkpoint(
            &mut self.disk,
            &self.kept.superblock,
            &self.kept.half,
            next.start,
            table.as_slice(),
            &mut bytes,
        )?;
        self.kept.restart(next);
        Ok(())
    }

    /// Fills `out`, of 1,024 bytes, with a block. The only error is `Failed`, after which `out` may hold anything.
    pub fn read_block(&mut self, block: u32, out: &mut [u8]) -> Result<(), LogFault>
        requires sound { IsSoundLog D.tells D.view self.old }
        requires block { block < (state_of self.old).superblock.blocks }
        requires size { length out.old ≡ 1024 }
        ensures reads { Reads D.tells D.view result self.old self.new }
        ensures bytes { D.tells → OnOk result (out.new ≡ block_in (contents_of D.view self.old) block) }
        ensures only { IfErr result (λ fault. fault ≡ DiskFailed) }
    {
        self.disk.read(self.kept.block_place(block), out)?;
        Ok(())
    }

    /// Writes `piece`, of 1,024 bytes, to a block. It is durable after the next force, before the pages that name it.
    /// Until then a crash may leave anything in it. The only error is `Failed`, after which the block may hold
    /// anything.
    pub fn write_block(&mut self, block: u32, piece: &[u8]) -> Result<(), LogFault>
        requires sound { IsSoundLog D.tells D.view self.old }
        requires block { block < (state_of self.old).superblock.blocks }
        requires size { length piece.now ≡ 1024 }
        ensures keeps { Keeps D.tells D.view 0 self.old self.new }
        ensures state { state_of self.new ≡ state_of self.old }
        ensures pages { D.tells → (p : ℕ) → p < (state_of self.old).half.pages →
            page_in (contents_of D.view self.new) p ≡ page_in (contents_of D.view self.old) p }
        ensures written { D.tells → OnOk result
            (Holds (block_start (state_of self.old).half.pages block) piece.now (D.view (disk_of self.new)).image) }
        ensures torn { D.tells → Torn (block_start (state_of self.old).half.pages block) 1024
            (D.view (disk_of self.old)).image (D.view (disk_of self.new)).image }
        ensures crash { ChangesBy (Torn (block_start (state_of self.old).half.pages block) 1024)
            (D.view (disk_of self.old)) (D.view (disk_of self.new)) }
        ensures blamed { IsBlamed result (D.view (disk_of self.old)) (D.view (disk_of self.new)) }
        ensures only { IfErr result (λ fault. fault ≡ DiskFailed) }
    {
        self.disk.write_at(self.kept.block_place(block), piece)?;
        Ok(())
    }
}
