//! What a store tells, as text.
ghost use Rattle.std.specs.Prelude.{OnOk};
ghost use Rattle.store_test_rows.specs.Standing.{IsUsable, Stays};

use anyhow::{Result, bail};
use base_types::{Fid, FilesetId, Span};
use store_memory::{HostState, Kept, Looked, Slot, Stay, Store};
use tree_calls::{DirEntry, Status};
use tree_test_words::{Text, Words, push_list, push_refusal};

/// Writes what is told to a question.
#[tactic(auto, using(crate::proofs::Staying::asked_stays, crate::proofs::Staying::stays_on))]
pub fn tell<S: Store>(store: &mut S, word: &str, words: &mut Words, text: &mut Text) -> Result<()>
    requires usable { IsUsable (S.view store.old) }
    ensures stays { OnOk result (Stays (S.view store.old) (S.view store.new)) }
{
    match word {
        "epoch" => {
            text.number("", store.epoch());
            Ok(())
        }
        "host" => {
            let host = words.host()?;
            text.word(host_word(store.host(host)));
            Ok(())
        }
        "kept" => tell_kept(store, text),
        "slots" => tell_slots(store, text),
        _ => tell_by_fileset(store, word, words, text),
    }
}

#[tactic(auto, using(crate::proofs::Staying::asked_stays, crate::proofs::Staying::stays_on))]
fn tell_by_fileset<S: Store>(
    store: &mut S,
    word: &str,
    words: &mut Words,
    text: &mut Text,
) -> Result<()>
    requires usable { IsUsable (S.view store.old) }
    ensures stays { OnOk result (Stays (S.view store.old) (S.view store.new)) }
{
    match word {
        "last-give" => {
            let (host, fileset) = (words.host()?, words.fileset()?);
            text.number("", store.last_give(host, fileset));
            Ok(())
        }
        "last-change" => {
            let (host, fileset) = (words.host()?, words.fileset()?);
            text.number("", store.last_change(host, fileset));
            Ok(())
        }
        "files" => tell_files(store, words.fileset()?, text),
        "find" => tell_find(store, words, text),
        "walk" => tell_walk(store, words, text),
        _ => tell_by_fid(store, word, words.fid()?, words, text),
    }
}

#[tactic(auto, using(crate::proofs::Staying::asked_stays, crate::proofs::Staying::stays_on))]
fn tell_by_fid<S: Store>(
    store: &mut S,
    word: &str,
    fid: Fid,
    words: &mut Words,
    text: &mut Text,
) -> Result<()>
    requires usable { IsUsable (S.view store.old) }
    ensures stays { OnOk result (Stays (S.view store.old) (S.view store.new)) }
{
    match word {
        "status" => tell_status(store, fid, text),
        "bytes" => tell_bytes(store, fid, words, text),
        "entries" => tell_entries(store, fid, text),
        _ => bail!("no question: {word}"),
    }
}

// The capacity, the next number, and the filesets with their names.
#[tactic(auto, using(crate::proofs::Staying::asked_stays, crate::proofs::Staying::stays_on))]
pub fn tell_kept<S: Store>(store: &mut S, text: &mut Text) -> Result<()>
    requires usable { IsUsable (S.view store.old) }
    ensures stays { OnOk result (Stays (S.view store.old) (S.view store.new)) }
{
    let kept = store.kept()?;
    push_kept(text, &kept);
    drop(kept);
    Ok(())
}

fn push_kept(text: &mut Text, kept: &Kept) {
    text.number("", u64::from(kept.capacity));
    text.number(" ", u64::from(kept.next));
    for fileset in kept.filesets.as_slice() {
        text.plain(" ", fileset.name.as_bytes());
    }
}

#[tactic(auto, using(crate::proofs::Staying::asked_stays, crate::proofs::Staying::stays_on))]
fn tell_find<S: Store>(store: &mut S, words: &mut Words, text: &mut Text) -> Result<()>
    requires usable { IsUsable (S.view store.old) }
    ensures stays { OnOk result (Stays (S.view store.old) (S.view store.new)) }
{
    let name = words.name()?;
    let found = store.find(&name);
    drop(name);
    match found? {
        Some(id) => push_fileset(text, id),
        None => text.word("none"),
    }
    Ok(())
}

#[tactic(auto, using(crate::proofs::Staying::asked_stays, crate::proofs::Staying::stays_on))]
fn tell_files<S: Store>(store: &mut S, fileset: FilesetId, text: &mut Text) -> Result<()>
    requires usable { IsUsable (S.view store.old) }
    ensures stays { OnOk result (Stays (S.view store.old) (S.view store.new)) }
{
    let files = store.files(fileset)?;
    push_files(text, files.as_slice());
    Ok(())
}

fn push_files(text: &mut Text, files: &[Fid]) {
    let mut apart = "";
    for fid in files {
        text.word(apart);
        push_fid(text, *fid);
        apart = " ";
    }
}

#[tactic(auto, using(crate::proofs::Staying::asked_stays, crate::proofs::Staying::stays_on))]
fn tell_walk<S: Store>(store: &mut S, words: &mut Words, text: &mut Text) -> Result<()>
    requires usable { IsUsable (S.view store.old) }
    ensures stays { OnOk result (Stays (S.view store.old) (S.view store.new)) }
{
    let user = words.user()?;
    let place = words.place()?;
    let looked = store.walk(&user, &place);
    drop(place);
    drop(user);
    match looked? {
        Looked::Found(fid) => push_fid(text, fid),
        Looked::Refused(refusal) => push_refusal(text, refusal),
    }
    Ok(())
}

#[tactic(auto, using(crate::proofs::Staying::asked_stays, crate::proofs::Staying::stays_on))]
pub fn tell_status<S: Store>(store: &mut S, fid: Fid, text: &mut Text) -> Result<()>
    requires usable { IsUsable (S.view store.old) }
    ensures stays { OnOk result (Stays (S.view store.old) (S.view store.new)) }
{
    match store.status(fid)? {
        Some(status) => push_status(text, &status),
        None => text.word("none"),
    }
    Ok(())
}

fn push_status(text: &mut Text, status: &Status) {
    text.word(if status.dir { "dir" } else { "file" });
    text.word(if status.read_only { " ro" } else { " rw" });
    text.number(" ", u64::from(status.length));
    text.plain(" ", status.owner.as_bytes());
    text.plain(" ", status.group.as_bytes());
    for list in status.lists.as_slice() {
        text.word(" |");
        push_list(text, list);
    }
}

#[tactic(auto, using(crate::proofs::Staying::asked_stays, crate::proofs::Staying::stays_on))]
fn tell_bytes<S: Store>(store: &mut S, fid: Fid, words: &mut Words, text: &mut Text) -> Result<()>
    requires usable { IsUsable (S.view store.old) }
    ensures stays { OnOk result (Stays (S.view store.old) (S.view store.new)) }
{
    let (from, to) = (words.number()?, words.number()?);
    if to < from || 65_536 < to {
        bail!("no span");
    }
    let bytes = store.bytes(fid, Span { from, to })?;
    text.plain("\"", bytes.as_slice());
    text.word("\"");
    Ok(())
}

#[tactic(auto, using(crate::proofs::Staying::asked_stays, crate::proofs::Staying::stays_on))]
pub fn tell_entries<S: Store>(store: &mut S, fid: Fid, text: &mut Text) -> Result<()>
    requires usable { IsUsable (S.view store.old) }
    ensures stays { OnOk result (Stays (S.view store.old) (S.view store.new)) }
{
    let entries = store.entries(fid)?;
    push_entries(text, entries.as_slice());
    Ok(())
}

fn push_entries(text: &mut Text, entries: &[DirEntry]) {
    let mut apart = "";
    for entry in entries {
        text.plain(apart, entry.name.as_bytes());
        text.number(" ", u64::from(entry.anode));
        text.number(" ", u64::from(entry.unique));
        apart = " ";
    }
}

// The slots that are used, with ` ; ` between them.
#[tactic(auto, using(crate::proofs::Staying::asked_stays, crate::proofs::Staying::stays_on))]
pub fn tell_slots<S: Store>(store: &mut S, text: &mut Text) -> Result<()>
    requires usable { IsUsable (S.view store.old) }
    ensures stays { OnOk result (Stays (S.view store.old) (S.view store.new)) }
{
    let slots = store.slots()?;
    push_slots(text, slots.as_slice());
    Ok(())
}

fn push_slots(text: &mut Text, slots: &[Slot]) {
    let mut apart = "";
    for slot in slots {
        text.number(apart, u64::from(slot.at));
        text.word(" ");
        push_fileset(text, slot.fileset);
        text.plain(" ", slot.name.as_bytes());
        text.number(" ", u64::from(slot.objects));
        text.number(" ", u64::from(slot.moves));
        push_stay(text, slot.stay);
        apart = " ; ";
    }
}

fn push_stay(text: &mut Text, stay: Stay) {
    match stay {
        Stay::Writable => text.word(" writable"),
        Stay::Clone => text.word(" clone"),
        Stay::Leaving { to, ship } => {
            text.number(" leaving s", u64::from(to.0));
            text.number(" ", ship);
        }
        Stay::Arriving { from, ship, parts } => {
            text.number(" arriving s", u64::from(from.0));
            text.number(" ", ship);
            text.number(" ", u64::from(parts));
        }
        Stay::Gone { to } => text.number(" gone s", u64::from(to.0)),
    }
}

fn push_fileset(text: &mut Text, id: FilesetId) {
    text.number("s", u64::from(id.0 / 65_536));
    text.number(".", u64::from(id.0 % 65_536));
}

pub fn push_fid(text: &mut Text, fid: Fid) {
    push_fileset(text, fid.fileset);
    text.number(":", u64::from(fid.anode));
    text.number(":", u64::from(fid.unique));
}

pub fn host_word(known: HostState) -> &'static str {
    match known {
        HostState::Unknown => "unknown",
        HostState::Live => "live",
        HostState::IsDown => "down",
        HostState::Ended => "ended",
    }
}
