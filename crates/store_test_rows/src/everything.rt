//! All that a store tells.
ghost use Rattle.std.specs.Prelude.{OnOk};
ghost use Rattle.store_test_rows.specs.Standing.{IsUsable, Stays};

use crate::asking::{host_word, push_fid, tell_entries, tell_kept, tell_slots, tell_status};
use anyhow::Result;
use base_types::{FILE_BYTES_MAX, Fid, FilesetId, HostId, Span};
use store_memory::{Slot, Store};
use tree_test_words::Text;

// Hosts that are asked about: the setup host, two that are declared, and one that isn't.
const HOSTS: u8 = 4;

/// Writes all that a store tells: its epoch, what is known of hosts, its slots, the numbers of requests on each
/// fileset, and what each object is, its bytes by their sum.
#[tactic(auto, using(crate::proofs::Staying::asked_stays, crate::proofs::Staying::stays_on))]
pub fn tell_all<S: Store>(store: &mut S, text: &mut Text) -> Result<()>
    requires usable { IsUsable (S.view store.old) }
    ensures stays { OnOk result (Stays (S.view store.old) (S.view store.new)) }
{
    tell_hosts(store, text);
    tell_numbers(store, FilesetId(0), text);
    tell_kept(store, text)?;
    text.word(" ");
    tell_slots(store, text)?;
    let slots = store.slots()?;
    let told = tell_filesets(store, slots.as_slice(), text);
    drop(slots);
    told
}

fn tell_hosts<S: Store>(store: &S, text: &mut Text)
    requires ready { (S.view store.now).ready }
{
    text.number("", store.epoch());
    for host in 0..HOSTS {
        text.word(" ");
        text.word(host_word(store.host(HostId(host))));
    }
}

fn tell_numbers<S: Store>(store: &S, fileset: FilesetId, text: &mut Text)
    requires ready { (S.view store.now).ready }
{
    for host in 0..HOSTS {
        text.number(" ", store.last_give(HostId(host), fileset));
        text.number(" ", store.last_change(HostId(host), fileset));
    }
    text.word("; ");
}

#[tactic(auto, using(crate::proofs::Staying::asked_stays, crate::proofs::Staying::stays_on))]
fn tell_filesets<S: Store>(store: &mut S, slots: &[Slot], text: &mut Text) -> Result<()>
    requires usable { IsUsable (S.view store.old) }
    ensures stays { OnOk result (Stays (S.view store.old) (S.view store.new)) }
{
    for slot in slots {
        tell_fileset(store, slot.fileset, text)?;
    }
    Ok(())
}

#[tactic(auto, using(crate::proofs::Staying::asked_stays, crate::proofs::Staying::stays_on))]
fn tell_fileset<S: Store>(store: &mut S, fileset: FilesetId, text: &mut Text) -> Result<()>
    requires usable { IsUsable (S.view store.old) }
    ensures stays { OnOk result (Stays (S.view store.old) (S.view store.new)) }
{
    text.word("; ");
    tell_numbers(store, fileset, text);
    let files = store.files(fileset)?;
    let told = tell_objects(store, files.as_slice(), text);
    drop(files);
    told
}

#[tactic(auto, using(crate::proofs::Staying::asked_stays, crate::proofs::Staying::stays_on))]
fn tell_objects<S: Store>(store: &mut S, fids: &[Fid], text: &mut Text) -> Result<()>
    requires usable { IsUsable (S.view store.old) }
    ensures stays { OnOk result (Stays (S.view store.old) (S.view store.new)) }
{
    for fid in fids {
        tell_object(store, *fid, text)?;
    }
    Ok(())
}

#[tactic(auto, using(crate::proofs::Staying::asked_stays, crate::proofs::Staying::stays_on))]
fn tell_object<S: Store>(store: &mut S, fid: Fid, text: &mut Text) -> Result<()>
    requires usable { IsUsable (S.view store.old) }
    ensures stays { OnOk result (Stays (S.view store.old) (S.view store.new)) }
{
    push_fid(text, fid);
    text.word(" ");
    tell_status(store, fid, text)?;
    tell_sum(store, fid, text)?;
    text.word(" ");
    tell_entries(store, fid, text)?;
    text.word("; ");
    Ok(())
}

#[tactic(auto, using(crate::proofs::Staying::asked_stays, crate::proofs::Staying::stays_on))]
fn tell_sum<S: Store>(store: &mut S, fid: Fid, text: &mut Text) -> Result<()>
    requires usable { IsUsable (S.view store.old) }
    ensures stays { OnOk result (Stays (S.view store.old) (S.view store.new)) }
{
    let span = Span {
        from: 0,
        to: FILE_BYTES_MAX,
    };
    let bytes = store.bytes(fid, span)?;
    text.number(" ", sum(bytes.as_slice()));
    drop(bytes);
    Ok(())
}

// The bytes as digits of a number to a large base, modulo 2^64.
fn sum(bytes: &[u8]) -> u64 {
    bytes.iter().fold(0u64, |sum, byte| {
        sum.wrapping_mul(1_099_511_628_211)
            .wrapping_add(u64::from(*byte))
            .wrapping_add(1)
    })
}
