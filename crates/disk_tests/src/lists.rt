// Access lists as words: entries joined by commas, as `user_obj:63`, `user:ann:7`, each with the number of its rights.
use anyhow::{Context, Result, bail};
use base_types::{AccessEntry, AccessList, Items, Name, Rights, Who};
use std::alloc::Global;
use tree_test_words::Text;

fn who_of(alloc: Global, word: &str) -> Result<Who> {
    let (kind, name) = word.split_once(':').unwrap_or((word, ""));
    Ok(match kind {
        "user_obj" => Who::UserObj,
        "user" => Who::User(Name::new(alloc, name.as_bytes())?),
        "group_obj" => Who::GroupObj,
        "group" => Who::Group(Name::new(alloc, name.as_bytes())?),
        "other_obj" => Who::OtherObj,
        "mask_obj" => Who::MaskObj,
        _ => bail!("no entry: {kind}"),
    })
}

fn entry_of(alloc: Global, word: &str) -> Result<AccessEntry> {
    let (who, rights) = word.rsplit_once(':').context("an entry")?;
    let rights = Rights::from_bits(rights.parse::<u8>().context("rights")?);
    let who = who_of(alloc, who)?;
    Ok(AccessEntry { who, rights })
}

fn entries_of(alloc: Global, words: &str) -> Result<Items<AccessEntry>> {
    let mut entries = Items::new(alloc);
    for word in words.split(',') {
        entries.push(entry_of(alloc, word)?)?;
    }
    Ok(entries)
}

pub fn list_of(alloc: Global, words: &str) -> Result<AccessList> {
    let entries = entries_of(alloc, words)?;
    let list = AccessList::new(alloc, entries.as_slice());
    drop(entries);
    Ok(list?)
}

fn push_who(text: &mut Text, who: &Who) {
    match who {
        Who::UserObj => text.word("user_obj"),
        Who::User(name) => text.plain("user:", name.as_bytes()),
        Who::GroupObj => text.word("group_obj"),
        Who::Group(name) => text.plain("group:", name.as_bytes()),
        Who::OtherObj => text.word("other_obj"),
        Who::MaskObj => text.word("mask_obj"),
    }
}

pub fn push_list(text: &mut Text, list: &AccessList) {
    let mut apart = "";
    for entry in list.as_slice() {
        text.word(apart);
        push_who(text, &entry.who);
        text.number(":", u64::from(entry.rights.bits()));
        apart = ",";
    }
}
