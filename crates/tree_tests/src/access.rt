//! Names, access lists and rights.

use anyhow::{Context, Result};
use base_types::{
    AccessEntry, AccessList, Items, ListRefused, Name, NameRefused, NoMemory, Plain, Rights, User,
    Who, rights_of,
};
use std::alloc::Global;
use tree_test_words::{Text, Words, user};

/// Writes the answer to a row on names, access lists or rights; none where there is no such row.
pub fn tell_access(word: &str, words: &mut Words, text: &mut Text) -> Result<()> {
    match word {
        "name" => name(words, text),
        "before" => before(words, text),
        "acl" => list(words, text),
        "rights" => rights(words, text),
        "user" => user_and_group(words, text),
        _ => sets(word, words, text),
    }
}

/// yes or no.
pub fn push_yes(text: &mut Text, answer: bool) {
    text.word(if answer { "yes" } else { "no" });
}

/// The bytes of a word, in which `\0` is a zero, `\s` a blank and `\f` the byte 255.
pub fn bytes_of(alloc: Global, word: &str) -> Result<Items<u8>, NoMemory> {
    let mut bytes = Items::new(alloc);
    let mut is_marked = false;
    for byte in word.bytes() {
        if is_marked {
            bytes.push(marked(byte))?;
            is_marked = false;
        } else if byte == b'\\' {
            is_marked = true;
        } else {
            bytes.push(byte)?;
        }
    }
    Ok(bytes)
}

fn marked(byte: u8) -> u8 {
    match byte {
        b'0' => 0,
        b's' => b' ',
        _ => 255,
    }
}

// `name BYTES`: ok where they are accepted as a name, which has just these bytes.
fn name(words: &mut Words, text: &mut Text) -> Result<()> {
    let bytes = bytes_of(words.alloc(), words.next())?;
    text.word(name_told(words.alloc(), bytes.as_slice()));
    drop(bytes);
    Ok(())
}

fn name_told(alloc: Global, bytes: &[u8]) -> &'static str {
    let accepted = Name::accepts(bytes);
    match Name::new(alloc, bytes) {
        Ok(name) if accepted && name.as_bytes() == bytes => "ok",
        Err(NameRefused::BadName) if !accepted => "bad",
        _ => "another",
    }
}

// `before NAME NAME`
fn before(words: &mut Words, text: &mut Text) -> Result<()> {
    let first = words.name()?;
    let told = is_before(&first, words);
    drop(first);
    push_yes(text, told?);
    Ok(())
}

fn is_before(first: &Name, words: &mut Words) -> Result<bool> {
    let second = words.name()?;
    let told = first.is_before(&second);
    drop(second);
    Ok(told)
}

// `acl ENTRIES`: ok where they are accepted as a list, which has just these entries, and its copy, too.
fn list(words: &mut Words, text: &mut Text) -> Result<()> {
    let entries = entries(words.alloc(), words.rest())?;
    let told = list_told(words.alloc(), entries.as_slice());
    drop(entries);
    text.word(told?);
    Ok(())
}

fn list_told(alloc: Global, entries: &[AccessEntry]) -> Result<&'static str, NoMemory> {
    let accepted = AccessList::accepts(entries);
    match AccessList::new(alloc, entries) {
        Ok(list) => {
            let same = is_copied(&list, entries);
            drop(list);
            Ok(if same? && accepted { "ok" } else { "another" })
        }
        Err(ListRefused::BadList) if !accepted => Ok("bad"),
        Err(_) => Ok("another"),
    }
}

fn is_copied(list: &AccessList, entries: &[AccessEntry]) -> Result<bool, NoMemory> {
    let copy = list.copy()?;
    let same = copy == *list && copy.as_slice() == entries;
    drop(copy);
    Ok(same)
}

// Entries with blanks between them, each as `WHO=BITS`.
fn entries(alloc: Global, text: &str) -> Result<Items<AccessEntry>> {
    let mut entries = Items::new(alloc);
    for word in text.split_whitespace() {
        entries.push(entry(alloc, word)?)?;
    }
    Ok(entries)
}

fn entry(alloc: Global, word: &str) -> Result<AccessEntry> {
    let (text, bits) = word.split_once('=').context("an entry")?;
    let rights = Rights::from_bits(bits.parse::<u8>().context("bits")?);
    Ok(AccessEntry {
        who: who(alloc, text)?,
        rights,
    })
}

// `user_obj`, `group_obj`, `other_obj`, `mask_obj`, `user:NAME` or `group:NAME`.
fn who(alloc: Global, text: &str) -> Result<Who, NameRefused> {
    Ok(match text.split_once(':') {
        Some(("user", user)) => Who::User(Name::new(alloc, user.as_bytes())?),
        Some((_, group)) => Who::Group(Name::new(alloc, group.as_bytes())?),
        None => match text {
            "user_obj" => Who::UserObj,
            "group_obj" => Who::GroupObj,
            "other_obj" => Who::OtherObj,
            _ => Who::MaskObj,
        },
    })
}

// `rights USER GROUPS ENTRIES`: the rights of a user by a list, on an object of olga and the group staff.
fn rights(words: &mut Words, text: &mut Text) -> Result<()> {
    let name = words.next();
    let user = user(words.alloc(), name, words.next())?;
    let bits = bits_of(words.alloc(), &user, words.rest());
    drop(user);
    text.number("", u64::from(bits?));
    Ok(())
}

fn bits_of(alloc: Global, user: &User, text: &str) -> Result<u8> {
    let entries = entries(alloc, text)?;
    let list = AccessList::new(alloc, entries.as_slice());
    drop(entries);
    let list = list?;
    let bits = bits_by(alloc, &list, user);
    drop(list);
    Ok(bits?)
}

fn bits_by(alloc: Global, list: &AccessList, user: &User) -> Result<u8, NameRefused> {
    let owner = Name::new(alloc, b"olga")?;
    let group = Name::new(alloc, b"staff")?;
    Ok(rights_of(list, &owner, &group, user).bits())
}

// `user NAME GROUPS`: the first group of the user, and of a copy, which is the same.
fn user_and_group(words: &mut Words, text: &mut Text) -> Result<()> {
    let name = words.next();
    let user = user(words.alloc(), name, words.next())?;
    let told = push_group(&user, text);
    drop(user);
    Ok(told?)
}

fn push_group(user: &User, text: &mut Text) -> Result<(), NoMemory> {
    let copy = user.copy()?;
    text.plain("", copy.first_group().as_bytes());
    text.word(if copy == *user { "" } else { ", of another" });
    drop(copy);
    Ok(())
}

// `all`: the union of all rights. `bits BITS`, `limited BITS BITS` and `allows BITS BITS`.
fn sets(word: &str, words: &mut Words, text: &mut Text) -> Result<()> {
    if word == "all" {
        text.number("", u64::from(all_rights().bits()));
        return Ok(());
    }
    let held = bits(words)?.copy()?;
    match word {
        "limited" => {
            let mask = bits(words)?;
            text.number("", u64::from(held.limited_to(mask).bits()));
        }
        "allows" => {
            let needed = bits(words)?;
            push_yes(text, held.allows(needed));
        }
        _ => text.number("", u64::from(held.bits())),
    }
    Ok(())
}

fn bits(words: &mut Words) -> Result<Rights> {
    let bits = words.next().parse::<u8>().context("bits")?;
    Ok(Rights::from_bits(bits))
}

fn all_rights() -> Rights {
    Rights::READ
        .union(Rights::WRITE)
        .union(Rights::EXECUTE)
        .union(Rights::CONTROL)
        .union(Rights::INSERT)
        .union(Rights::DELETE)
}
