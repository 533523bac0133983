ghost use Rattle.std.specs.Prelude.{◌≡◌, []};
ghost use Rattle.script_words.specs.Outcome.{Gives};
ghost use Rattle.script_words.specs.Lists.{
  right_of,
  rights_from,
  rights_of,
  plain_who,
  name_in_list,
  named_who,
  entry_of,
  entries_from,
  list_at,
};

use crate::fault::{BadWhy, Fault};
use crate::fields::{Words, is_word, parts_of, word_at};
use base_types::{AccessEntry, AccessList, Items, ListRefused, Name, NameRefused, Rights, Who};
use std::alloc::Global;

fn right_of(letter: u8) -> Option<Rights>
    ensures { result ≡ right_of letter }
{
    match letter {
        b'r' => Some(Rights::READ),
        b'w' => Some(Rights::WRITE),
        b'x' => Some(Rights::EXECUTE),
        b'c' => Some(Rights::CONTROL),
        b'i' => Some(Rights::INSERT),
        b'd' => Some(Rights::DELETE),
        _ => None,
    }
}

// The rights of letters, each of which comes after those before it.
fn rights_in(word: &[u8]) -> Result<Rights, Fault>
    ensures { Gives result (rights_from 0 word.now) }
{
    let mut rights = Rights::NONE;
    for letter in word {
        match right_of(*letter) {
            Some(right) if rights.bits() < right.bits() => rights = rights.union(right),
            _ => return Err(Fault::Bad(BadWhy::BadList)),
        }
    }
    Ok(rights)
}

#[tactic(auto, unfolding(crate::specs::Lists::rights_of))]
fn rights_of(word: &[u8]) -> Result<Rights, Fault>
    ensures { Gives result (rights_of word.now) }
{
    if is_word(word, b"-") {
        Ok(Rights::NONE)
    } else if word.is_empty() {
        Err(Fault::Bad(BadWhy::BadList))
    } else {
        rights_in(word)
    }
}

// Whom a word without a name speaks of.
#[tactic(auto, unfolding(crate::specs::Lists::plain_who))]
fn plain_who(word: &[u8]) -> Result<Who, Fault>
    ensures { Gives result (plain_who word.now) }
{
    if is_word(word, b"user_obj") {
        Ok(Who::UserObj)
    } else if is_word(word, b"group_obj") {
        Ok(Who::GroupObj)
    } else if is_word(word, b"other_obj") {
        Ok(Who::OtherObj)
    } else if is_word(word, b"mask_obj") {
        Ok(Who::MaskObj)
    } else {
        Err(Fault::Bad(BadWhy::BadList))
    }
}

fn name_in_list(alloc: Global, bytes: &[u8]) -> Result<Name, Fault>
    ensures { Gives result (name_in_list bytes.now) }
{
    match Name::new(alloc, bytes) {
        Ok(name) => Ok(name),
        Err(NameRefused::BadName) => Err(Fault::Bad(BadWhy::BadList)),
        Err(NameRefused::Memory) => Err(Fault::Memory),
    }
}

#[tactic(auto, unfolding(crate::specs::Lists::named_who))]
fn named_who(alloc: Global, kind: &[u8], name: &[u8]) -> Result<Who, Fault>
    ensures { Gives result (named_who kind.now name.now) }
{
    if is_word(kind, b"user") {
        Ok(Who::User(name_in_list(alloc, name)?))
    } else if is_word(kind, b"group") {
        Ok(Who::Group(name_in_list(alloc, name)?))
    } else {
        Err(Fault::Bad(BadWhy::BadList))
    }
}

#[tactic(auto, unfolding(crate::specs::Lists::entry_of))]
fn entry_of(alloc: Global, fields: &[Items<u8>]) -> Result<AccessEntry, Fault>
    ensures { Gives result (entry_of fields.now) }
{
    match fields {
        [who, rights] => {
            let who = plain_who(who.as_slice())?;
            let rights = rights_of(rights.as_slice())?;
            Ok(AccessEntry { who, rights })
        }
        [kind, name, rights] => {
            let who = named_who(alloc, kind.as_slice(), name.as_slice())?;
            let rights = rights_of(rights.as_slice())?;
            Ok(AccessEntry { who, rights })
        }
        _ => Err(Fault::Bad(BadWhy::BadList)),
    }
}

fn entries_of(alloc: Global, parts: &[Items<u8>]) -> Result<Items<AccessEntry>, Fault>
    ensures { Gives result (entries_from [] parts.now) }
{
    let mut entries = Items::new(alloc);
    for part in parts {
        let fields = parts_of(alloc, part.as_slice(), b':')?;
        entries.push(entry_of(alloc, fields.as_slice())?)?;
    }
    Ok(entries)
}

/// The access list at a place: entries joined by `,`, each `WHO:RIGHTS` or `KIND:NAME:RIGHTS`, where the rights are
/// letters of `rwxcid` in that order, or `-` for none. `BadList` where the word is none, or its entries aren't an
/// access list.
#[tactic(auto, unfolding(crate::specs::Lists::list_at))]
pub fn list_at(words: &Words, i: usize) -> Result<AccessList, Fault>
    ensures { Gives result (list_at words.now i) }
{
    let alloc = words.alloc();
    let parts = parts_of(alloc, word_at(words, i)?.as_slice(), b',')?;
    let entries = entries_of(alloc, parts.as_slice())?;
    match AccessList::new(alloc, entries.as_slice()) {
        Ok(list) => Ok(list),
        Err(ListRefused::BadList) => Err(Fault::Bad(BadWhy::BadList)),
        Err(ListRefused::Memory) => Err(Fault::Memory),
    }
}
