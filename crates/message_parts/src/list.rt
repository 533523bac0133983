ghost use Rattle.std.specs.Prelude.{ℕ, Bool, ◌≡◌, ◌≤◌, ◌++◌, ◌∷◌, ◌&&◌, [], if◌then◌else◌, OnOk, IfOk};
ghost use Rattle.base_types.specs.Name.{is_among};
ghost use Rattle.message_parts.specs.Reading.{Gives, byte_at};
ghost use Rattle.message_parts.specs.Words.{is_plain};
ghost use Rattle.message_parts.specs.Spelled.{items};
ghost use Rattle.message_parts.specs.Access.{
  who_tag,
  spell_who_name,
  spell_access_entry,
  has_tag,
  missing,
  can_follow,
  with_name,
  names_in,
  may_be,
  fresh_from,
  fresh_name_at,
  who_at,
  next_entry_at,
  access_from,
};

use crate::number::{number_at, push_number};
use crate::part::{Part, Stopped};
use crate::place::bits_at;
use base_types::{
    AccessEntry, AccessList, Items, ListRefused, Name, NameRefused, NoMemory, Rights, Who,
};
use std::alloc::Global;

fn who_tag(who: &Who) -> u64
    ensures { result ≡ who_tag who.now }
{
    match who {
        Who::UserObj => 1,
        Who::User(_) => 2,
        Who::GroupObj => 3,
        Who::Group(_) => 4,
        Who::OtherObj => 5,
        Who::MaskObj => 6,
    }
}

fn write_who_name(who: &Who, out: &mut Items<u8>) -> Result<(), NoMemory>
    ensures { OnOk result (out.new ≡ out.old ++ (spell_who_name who.now).bytes) }
{
    match who {
        Who::User(name) => name.write(out),
        Who::Group(name) => name.write(out),
        _ => Ok(()),
    }
}

#[tactic(auto, unfolding(crate::specs::Access::spell_access_entry, crate::specs::Spelled::number))]
fn write_entry(entry: &AccessEntry, out: &mut Items<u8>) -> Result<(), NoMemory>
    ensures { OnOk result (out.new ≡ out.old ++ (spell_access_entry entry.now).bytes) }
{
    push_number(out, 1, who_tag(&entry.who))?;
    write_who_name(&entry.who, out)?;
    entry.rights.write(out)
}

#[tactic(auto, unfolding(crate::specs::Spelled::items))]
fn write_entries(entries: &[AccessEntry], out: &mut Items<u8>) -> Result<(), NoMemory>
    ensures { OnOk result (out.new ≡ out.old ++ (items spell_access_entry entries.now).bytes) }
{
    for entry in entries {
        write_entry(entry, out)?;
    }
    Ok(())
}

impl Part for AccessList {
    const BYTES_MIN: usize = 7;

    ghost use Rattle.message_parts.specs.Access.{spell_access, access_at};

    ghost spelled = { spell_access };

    ghost reading = { access_at };

    #[tactic(auto, unfolding(crate::specs::Access::spell_access, crate::specs::Spelled::number))]
    fn write(&self, out: &mut Items<u8>) -> Result<(), NoMemory> {
        push_number(out, 1, self.as_slice().len() as u64)?;
        write_entries(self.as_slice(), out)
    }

    #[tactic(auto, unfolding(crate::specs::Access::access_at))]
    fn read(alloc: Global, bytes: &[u8]) -> Result<(AccessList, &[u8]), Stopped> {
        let (count, rest) = number_at(bytes, 1, 3, 16)?;
        list_at(alloc, count, rest)
    }
}

/// Reads the entries of an access list of so many.
fn list_at(alloc: Global, count: u64, bytes: &[u8]) -> Result<(AccessList, &[u8]), Stopped>
    requires least { 3 ≤ count }
    requires most { count ≤ 16 }
    ensures { Gives (λ x. (x.0, x.1.now)) result (access_from count [] bytes.now) }
{
    let (entries, rest) = entries_at(alloc, count, bytes)?;
    match AccessList::new(alloc, entries.as_slice()) {
        Ok(list) => Ok((list, rest)),
        Err(ListRefused::Memory) => Err(Stopped::Memory),
        Err(ListRefused::BadList) => unreachable!(),
    }
}

fn entries_at(
    alloc: Global,
    count: u64,
    bytes: &[u8],
) -> Result<(Items<AccessEntry>, &[u8]), Stopped>
    ensures { Gives (λ x. (x.0, x.1.now)) result (access_from count [] bytes.now) }
{
    let mut entries = Items::new(alloc);
    let mut rest = bytes;
    let mut lacking = count;
    while lacking > 0 {
        lacking -= 1;
        let (entry, behind) = next_entry_at(alloc, lacking, entries.as_slice(), rest)?;
        entries.push(entry)?;
        rest = behind;
    }
    Ok((entries, rest))
}

/// Reads the entry that follows others, where so many more come behind it.
#[tactic(auto, unfolding(crate::specs::Access::next_entry_at))]
fn next_entry_at<'a>(
    alloc: Global,
    lacking: u64,
    entries: &[AccessEntry],
    bytes: &'a [u8],
) -> Result<(AccessEntry, &'a [u8]), Stopped>
    ensures { Gives (λ x. (x.0, x.1.now)) result (next_entry_at lacking entries.now bytes.now) }
{
    let (tag, rest) = tag_at(lacking, entries, bytes)?;
    let (who, rest) = who_at(alloc, entries, tag, rest)?;
    let (bits, rest) = bits_at(rest)?;
    Ok((
        AccessEntry {
            who,
            rights: Rights::from_bits(bits),
        },
        rest,
    ))
}

fn tag_at<'a>(
    lacking: u64,
    entries: &[AccessEntry],
    bytes: &'a [u8],
) -> Result<(u8, &'a [u8]), Stopped>
    ensures { Gives (λ x. (x.0, x.1.now)) result (byte_at (can_follow lacking entries.now) bytes.now) }
{
    let Some((tag, rest)) = bytes.split_first() else {
        return Err(Stopped::Bad(0));
    };
    if can_follow(lacking, entries, *tag) {
        Ok((*tag, rest))
    } else {
        Err(Stopped::Bad(bytes.len()))
    }
}

/// Whether an entry with this tag can follow these, where so many more come behind it.
#[tactic(auto, using(crate::proofs::Tags::by_tag))]
fn can_follow(lacking: u64, entries: &[AccessEntry], tag: u8) -> bool
    ensures { result ≡ can_follow lacking entries.now tag }
{
    if tag == 1 {
        !has_tag(entries, 1)
    } else if tag == 3 {
        !has_tag(entries, 3)
    } else if tag == 5 {
        !has_tag(entries, 5)
    } else if tag == 6 {
        !has_tag(entries, 6) && missing(entries) <= lacking
    } else {
        (tag == 2 || tag == 4) && missing(entries) <= lacking
    }
}

/// How many entries of the object are missing.
#[tactic(auto, using(crate::proofs::Tags::by_tag))]
fn missing(entries: &[AccessEntry]) -> u64
    ensures { result ≡ missing entries.now }
{
    lacks_tag(entries, 1) + lacks_tag(entries, 3) + lacks_tag(entries, 5)
}

fn lacks_tag(entries: &[AccessEntry], tag: u64) -> u64
    ensures value { result ≡ (if has_tag entries.now tag then 0 else 1) }
    ensures few { result ≤ 1 }
{
    if has_tag(entries, tag) { 0 } else { 1 }
}

/// Whether one of the entries has this tag.
fn has_tag(entries: &[AccessEntry], tag: u64) -> bool
    ensures { result ≡ has_tag entries.now tag }
{
    entries.iter().any(|entry| who_tag(&entry.who) == tag)
}

/// Reads what an entry with this tag speaks of.
#[tactic(auto, unfolding(crate::specs::Access::who_at))]
fn who_at<'a>(
    alloc: Global,
    entries: &[AccessEntry],
    tag: u8,
    bytes: &'a [u8],
) -> Result<(Who, &'a [u8]), Stopped>
    ensures { Gives (λ x. (x.0, x.1.now)) result (who_at entries.now tag bytes.now) }
{
    match tag {
        1 => Ok((Who::UserObj, bytes)),
        2 => {
            let (name, rest) = fresh_name_at(alloc, false, entries, bytes)?;
            Ok((Who::User(name), rest))
        }
        3 => Ok((Who::GroupObj, bytes)),
        4 => {
            let (name, rest) = fresh_name_at(alloc, true, entries, bytes)?;
            Ok((Who::Group(name), rest))
        }
        5 => Ok((Who::OtherObj, bytes)),
        _ => Ok((Who::MaskObj, bytes)),
    }
}

/// Reads the name of a user, or of a group, that no entry has yet.
#[tactic(auto, using(crate::proofs::FreshText::fresh_is_name), unfolding(crate::specs::Access::fresh_name_at))]
fn fresh_name_at<'a>(
    alloc: Global,
    group: bool,
    entries: &[AccessEntry],
    bytes: &'a [u8],
) -> Result<(Name, &'a [u8]), Stopped>
    ensures { Gives (λ x. (x.0, x.1.now)) result (fresh_name_at (names_in group entries.now) bytes.now) }
{
    let (count, rest) = number_at(bytes, 1, 1, 60)?;
    let (text, rest) = fresh_text_at(alloc, group, entries, count, rest)?;
    match Name::new(alloc, text.as_slice()) {
        Ok(name) => Ok((name, rest)),
        Err(NameRefused::Memory) => Err(Stopped::Memory),
        Err(NameRefused::BadName) => unreachable!(),
    }
}

fn fresh_text_at<'a>(
    alloc: Global,
    group: bool,
    entries: &[AccessEntry],
    count: u64,
    bytes: &'a [u8],
) -> Result<(Items<u8>, &'a [u8]), Stopped>
    ensures { Gives (λ x. (x.0, x.1.now)) result (fresh_from (names_in group entries.now) count [] bytes.now) }
{
    let mut text = Items::new(alloc);
    let mut rest = bytes;
    let mut lacking = count;
    while lacking > 0 {
        lacking -= 1;
        let (byte, behind) = fresh_byte_at(alloc, group, entries, lacking, text.as_slice(), rest)?;
        text.push(byte)?;
        rest = behind;
    }
    Ok((text, rest))
}

/// Reads the next byte of a name, where so many more come behind it.
fn fresh_byte_at<'a>(
    alloc: Global,
    group: bool,
    entries: &[AccessEntry],
    lacking: u64,
    front: &[u8],
    bytes: &'a [u8],
) -> Result<(u8, &'a [u8]), Stopped>
    ensures { let taken = names_in group entries.now in
        let goes_on : ℕ → Bool = λ byte. is_plain byte && may_be taken lacking (front.now ++ byte ∷ []) in
        Gives (λ x. (x.0, x.1.now)) result (byte_at goes_on bytes.now) }
{
    let Some((byte, rest)) = bytes.split_first() else {
        return Err(Stopped::Bad(0));
    };
    if *byte == b'/' || *byte == 0 {
        return Err(Stopped::Bad(bytes.len()));
    }
    if may_be(alloc, group, entries, lacking, front, *byte)? {
        Ok((*byte, rest))
    } else {
        Err(Stopped::Bad(bytes.len()))
    }
}

/// Whether a name that goes on with this byte may be none of those of the entries.
#[tactic(auto, using(crate::proofs::FreshText::may_be_more))]
fn may_be(
    alloc: Global,
    group: bool,
    entries: &[AccessEntry],
    lacking: u64,
    front: &[u8],
    byte: u8,
) -> Result<bool, NoMemory>
    ensures { IfOk result (λ may. may ≡ may_be (names_in group entries.now) lacking (front.now ++ byte ∷ [])) }
{
    if lacking > 0 {
        return Ok(true);
    }
    let mut name = Items::from_slice(alloc, front)?;
    name.push(byte)?;
    Ok(!is_named(group, entries, name.as_slice()))
}

/// Whether one of the entries is of the user, or of the group, of this name.
fn is_named(group: bool, entries: &[AccessEntry], name: &[u8]) -> bool
    ensures { result ≡ is_among (names_in group entries.now) name.now }
{
    for entry in entries {
        if has_name(&entry.who, group, name) {
            return true;
        }
    }
    false
}

fn has_name(who: &Who, group: bool, name: &[u8]) -> bool
    ensures { result ≡ is_among (with_name group who.now []) name.now }
{
    match who {
        Who::User(other) => !group && other.as_bytes() == name,
        Who::Group(other) => group && other.as_bytes() == name,
        _ => false,
    }
}
