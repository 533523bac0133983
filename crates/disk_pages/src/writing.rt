// Pages that are put.
ghost use Rattle.std.specs.Prelude.{◌≡◌, ◌≤◌, ◌<◌, true, length};
ghost use Rattle.disk_log.specs.Log.{state_of, slot_of, IsSoundLog};
ghost use Rattle.disk_log.specs.Contents.{contents_of, page_in};
ghost use Rattle.disk_anode.specs.Room.{is_page, MayPutAll};
ghost use Rattle.disk_pages.specs.Words.{are_zero};
ghost use Rattle.disk_pages.specs.Puts.{PutsOne, SaysFacts, SaysHeader, SaysNumbers, SaysRecord};

use crate::encode_header::header_page;
use crate::encode_numbers::numbers_page;
use crate::encode_server::server_page;
use crate::header::SlotHeader;
use crate::server::ServerFacts;
use base_types::Disk;
use disk_layout::PAGE;
use disk_log::{Log, LogFault, Tx};
use tree_calls::Record;

// Puts a page.
fn put_page<D: Disk>(
    log: &mut Log<D>,
    tx: &mut Tx,
    page: u32,
    bytes: &[u8; PAGE],
) -> Result<(), LogFault>
    requires sound { IsSoundLog D.tells D.view log.old }
    requires may { MayPutAll (is_page page) (state_of log.old) (slot_of tx.old) }
    requires page { page < 1058 }
    ensures tx { tx.new ≡ tx.old }
    ensures put { PutsOne D.tells D.view (slot_of tx.old) page (λ new. new ≡ bytes.now) result log.old log.new }
{
    log.put(tx, page, bytes)
}

/// Puts the page of the server with these facts, in format 2. The errors are `Failed`, after which the log is to be
/// mounted again, and `Memory`; after either nothing is put.
pub fn put_facts<D: Disk>(
    log: &mut Log<D>,
    tx: &mut Tx,
    facts: &ServerFacts,
) -> Result<(), LogFault>
    requires sound { IsSoundLog D.tells D.view log.old }
    requires may { MayPutAll (is_page 0) (state_of log.old) (slot_of tx.old) }
    requires format { facts.now.format ≡ 2 }
    ensures tx { tx.new ≡ tx.old }
    ensures put { PutsOne D.tells D.view (slot_of tx.old) 0 (SaysFacts facts.now) result log.old log.new }
{
    let bytes = server_page(facts);
    put_page(log, tx, 0, &bytes)
}

/// Puts the header of a slot, in format 2. `page` is the slot's first one. The errors are those of `put_facts`.
pub fn put_header<D: Disk>(
    log: &mut Log<D>,
    tx: &mut Tx,
    page: u32,
    header: &SlotHeader,
) -> Result<(), LogFault>
    requires sound { IsSoundLog D.tells D.view log.old }
    requires may { MayPutAll (is_page page) (state_of log.old) (slot_of tx.old) }
    requires page { page < 1058 }
    ensures tx { tx.new ≡ tx.old }
    ensures put { PutsOne D.tells D.view (slot_of tx.old) page (SaysHeader header.now) result log.old log.new }
{
    let bytes = header_page(header);
    put_page(log, tx, page, &bytes)
}

/// Puts what is kept of hosts 0, 1 and so on, 17 at most; of the others nothing is kept. `page` has call numbers. The
/// errors are those of `put_facts`.
pub fn put_numbers<D: Disk>(
    log: &mut Log<D>,
    tx: &mut Tx,
    page: u32,
    kept: &[Record],
) -> Result<(), LogFault>
    requires sound { IsSoundLog D.tells D.view log.old }
    requires may { MayPutAll (is_page page) (state_of log.old) (slot_of tx.old) }
    requires page { page < 1058 }
    requires hosts { length kept.now ≤ 17 }
    ensures tx { tx.new ≡ tx.old }
    ensures put { PutsOne D.tells D.view (slot_of tx.old) page (SaysNumbers kept.now) result log.old log.new }
{
    let bytes = numbers_page(kept);
    put_page(log, tx, page, &bytes)
}

/// Puts what is kept of a host, 0 to 16, and leaves the other hosts'. `page` has call numbers. The errors are those of
/// `put_facts`.
pub fn put_record<D: Disk>(
    log: &mut Log<D>,
    tx: &mut Tx,
    page: u32,
    host: u8,
    kept: Record,
) -> Result<(), LogFault>
    requires sound { IsSoundLog D.tells D.view log.old }
    requires may { MayPutAll (is_page page) (state_of log.old) (slot_of tx.old) }
    requires page { page < 1058 }
    requires host { host < 17 }
    ensures tx { tx.new ≡ tx.old }
    ensures put { PutsOne D.tells D.view (slot_of tx.old) page
        (SaysRecord (page_in (contents_of D.view log.old) page) host kept) result log.old log.new }
{
    let mut bytes = [0; PAGE];
    log.page(page, &mut bytes)?;
    crate::encode_numbers::encode_record(&mut bytes, host, kept);
    put_page(log, tx, page, &bytes)
}

/// Puts zeros, as the header and the call numbers of a free slot are. The errors are those of `put_facts`.
pub fn clear<D: Disk>(log: &mut Log<D>, tx: &mut Tx, page: u32) -> Result<(), LogFault>
    requires sound { IsSoundLog D.tells D.view log.old }
    requires may { MayPutAll (is_page page) (state_of log.old) (slot_of tx.old) }
    requires page { page < 1058 }
    ensures tx { tx.new ≡ tx.old }
    ensures put { PutsOne D.tells D.view (slot_of tx.old) page (λ new. are_zero 0 512 new ≡ true)
        result log.old log.new }
{
    put_page(log, tx, page, &[0; PAGE])
}
