//! The spelling of a reply, put into room that is there.
ghost use Rattle.std.specs.Prelude.{◌≡◌, ◌≤◌, ◌++◌, length, min};
ghost use Rattle.message_calls.specs.Replies.{refusal_fields, refusal_tag, spell_refusal};
ghost use Rattle.message_parts.specs.Access.{spell_access, spell_access_entry, spell_who_name, who_tag};
ghost use Rattle.message_parts.specs.Places.{spell_rights};
ghost use Rattle.message_parts.specs.Spelled.{items};
ghost use Rattle.message_parts.specs.Words.{flag_code, short, spell_flag, spell_name, spell_u32};
ghost use Rattle.need_host.specs.Walks.{rights_on};
ghost use Rattle.host_walk.specs.Views.{nature_told};
ghost use Rattle.tree_objects.specs.Entries.{names_of};
ghost use Rattle.host_tells.specs.Spoken.{Puts};

use crate::putting::{put_byte, put_name, put_number, put_short};
use base_types::{AccessEntry, AccessList, Rights, User, Who};
use host_walk::rights_on;
use tree_calls::{DirEntry, Refusal, Status};

/// The names of entries behind their count.
pub(crate) fn put_names(out: &mut [u8], at: usize, entries: &[DirEntry]) -> Option<usize>
    requires { at ≤ length out.old }
    ensures { Puts (short spell_name (names_of entries.now)).bytes at out.old out.new result }
{
    let at = put_short(out, at, (entries.len() % 65_536) as u16)?;
    put_each(out, at, entries)
}

fn put_each(out: &mut [u8], at: usize, entries: &[DirEntry]) -> Option<usize>
    requires { at ≤ length out.old }
    ensures { Puts (items spell_name (names_of entries.now)).bytes at out.old out.new result }
{
    let mut end = at;
    for entry in entries {
        end = put_name(out, end, &entry.name)?;
    }
    Some(end)
}

/// What is told of an object.
pub(crate) fn put_facts(out: &mut [u8], at: usize, status: &Status, user: &User) -> Option<usize>
    requires { at ≤ length out.old }
    ensures { Puts ((spell_flag status.now.dir).bytes ++ ((spell_u32 (min status.now.length 4294967295)).bytes
        ++ ((spell_name status.now.owner).bytes
        ++ (spell_rights (rights_on (nature_told status.now) user.now)).bytes))) at out.old out.new result }
{
    let at = put_flag(out, at, status.dir)?;
    put_sized(out, at, status, user)
}

fn put_sized(out: &mut [u8], at: usize, status: &Status, user: &User) -> Option<usize>
    requires { at ≤ length out.old }
    ensures { Puts ((spell_u32 (min status.now.length 4294967295)).bytes ++ ((spell_name status.now.owner).bytes
        ++ (spell_rights (rights_on (nature_told status.now) user.now)).bytes)) at out.old out.new result }
{
    let at = put_number(out, at, length_of(status))?;
    put_owned(out, at, status, user)
}

fn length_of(status: &Status) -> u32
    ensures { result ≡ status.now.length }
{
    status.length
}

fn put_owned(out: &mut [u8], at: usize, status: &Status, user: &User) -> Option<usize>
    requires { at ≤ length out.old }
    ensures { Puts ((spell_name status.now.owner).bytes
        ++ (spell_rights (rights_on (nature_told status.now) user.now)).bytes) at out.old out.new result }
{
    let at = put_name(out, at, &status.owner)?;
    put_rights(out, at, rights_on(status, user))
}

fn put_flag(out: &mut [u8], at: usize, flag: bool) -> Option<usize>
    requires { at ≤ length out.old }
    ensures { Puts (spell_flag flag).bytes at out.old out.new result }
{
    put_byte(out, at, flag_code(flag))
}

fn flag_code(flag: bool) -> u8
    ensures { result ≡ flag_code flag }
{
    if flag { 1 } else { 0 }
}

fn put_rights(out: &mut [u8], at: usize, rights: Rights) -> Option<usize>
    requires { at ≤ length out.old }
    ensures { Puts (spell_rights rights).bytes at out.old out.new result }
{
    put_byte(out, at, rights.bits())
}

/// An access list: its entries behind their count.
pub(crate) fn put_access(out: &mut [u8], at: usize, list: &AccessList) -> Option<usize>
    requires { at ≤ length out.old }
    ensures { Puts (spell_access list.now).bytes at out.old out.new result }
{
    let entries = list.as_slice();
    let at = put_byte(out, at, (entries.len() % 256) as u8)?;
    put_entries(out, at, entries)
}

fn put_entries(out: &mut [u8], at: usize, entries: &[AccessEntry]) -> Option<usize>
    requires { at ≤ length out.old }
    ensures { Puts (items spell_access_entry entries.now).bytes at out.old out.new result }
{
    let mut end = at;
    for entry in entries {
        end = put_entry(out, end, entry)?;
    }
    Some(end)
}

fn put_entry(out: &mut [u8], at: usize, entry: &AccessEntry) -> Option<usize>
    requires { at ≤ length out.old }
    ensures { Puts (spell_access_entry entry.now).bytes at out.old out.new result }
{
    let at = put_byte(out, at, tag_of(&entry.who))?;
    put_holder(out, at, entry)
}

// Who has the rights, and the rights.
fn put_holder(out: &mut [u8], at: usize, entry: &AccessEntry) -> Option<usize>
    requires { at ≤ length out.old }
    ensures { Puts ((spell_who_name entry.now.who).bytes ++ (spell_rights entry.now.rights).bytes) at
        out.old out.new result }
{
    let at = put_who(out, at, &entry.who)?;
    put_rights(out, at, entry.rights)
}

// The name of a user or of a group.
fn put_who(out: &mut [u8], at: usize, who: &Who) -> Option<usize>
    requires { at ≤ length out.old }
    ensures { Puts (spell_who_name who.now).bytes at out.old out.new result }
{
    match who {
        Who::User(name) => put_name(out, at, name),
        Who::Group(name) => put_name(out, at, name),
        _ => Some(at),
    }
}

fn tag_of(who: &Who) -> u8
    ensures { result ≡ who_tag who.now }
{
    match who {
        Who::UserObj => 1,
        Who::User(_) => 2,
        Who::GroupObj => 3,
        Who::Group(_) => 4,
        Who::OtherObj => 5,
        Who::MaskObj => 6,
    }
}

/// A refusal.
pub(crate) fn put_refusal(out: &mut [u8], at: usize, refusal: &Refusal) -> Option<usize>
    requires { at ≤ length out.old }
    ensures { Puts (spell_refusal refusal.now).bytes at out.old out.new result }
{
    let at = put_byte(out, at, refusal_tag(refusal))?;
    put_denied(out, at, refusal)
}

fn put_denied(out: &mut [u8], at: usize, refusal: &Refusal) -> Option<usize>
    requires { at ≤ length out.old }
    ensures { Puts (refusal_fields refusal.now).bytes at out.old out.new result }
{
    match refusal {
        Refusal::Denied(rights) => put_rights(out, at, *rights),
        _ => Some(at),
    }
}

fn refusal_tag(refusal: &Refusal) -> u8
    ensures { result ≡ refusal_tag refusal.now }
{
    match refusal {
        Refusal::NoEntry => 1,
        Refusal::NotDir => 2,
        Refusal::IsDir => 3,
        Refusal::Exists => 4,
        Refusal::NotEmpty => 5,
        Refusal::Denied(_) => 6,
        Refusal::TooBig => 7,
        Refusal::TooMany => 8,
        Refusal::NoRoom => 9,
        Refusal::ReadOnly => 10,
        Refusal::Locked => 11,
        Refusal::OpenConflict => 12,
        Refusal::InUse => 13,
        Refusal::Loop => 14,
        Refusal::NoFileset => 15,
        Refusal::CrossFileset => 16,
        Refusal::NotLocked => 17,
        Refusal::NotOpened => 18,
        Refusal::AlreadyLocked => 19,
        Refusal::AlreadyOpened => 20,
        Refusal::NotHome => 21,
    }
}
