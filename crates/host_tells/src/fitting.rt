//! Whether a reply has a spelling that can be read back.
ghost use Rattle.std.specs.Prelude.{◌≡◌, IsTrue};
ghost use Rattle.std.specs.List.{list_all};
ghost use Rattle.base_types.specs.Name.{is_name};
ghost use Rattle.base_types.specs.declared.access.AccessEntry.{AccessEntry};
ghost use Rattle.host_tells.specs.Spoken.{facts_told};
ghost use Rattle.message_calls.specs.Replies.{spell_facts, spell_refusal};
ghost use Rattle.message_parts.specs.Access.{spell_access, spell_access_entry, spell_who_name};
ghost use Rattle.message_parts.specs.Places.{spell_rights};
ghost use Rattle.message_parts.specs.Words.{short, spell_name};
ghost use Rattle.tree_calls.specs.declared.part.DirEntry.{DirEntry};
ghost use Rattle.tree_objects.specs.Entries.{names_of};

use base_types::{AccessEntry, AccessList, Name, Rights, User, Who};
use host_walk::rights_on;
use tree_calls::{DirEntry, Refusal, Status};

/// At most 65,535 names have one.
pub(crate) fn names_fit(entries: &[DirEntry]) -> bool
    ensures { result ≡ (short spell_name (names_of entries.now)).fits }
{
    entries.len() <= 65_535 && each_name_fits(entries)
}

fn each_name_fits(entries: &[DirEntry]) -> bool
    ensures { result ≡ list_all (λ (entry : DirEntry). (spell_name entry.name).fits) entries.now }
{
    entries.iter().all(|entry| name_fits(&entry.name))
}

fn name_fits(name: &Name) -> bool
    ensures { result ≡ (spell_name name.now).fits }
{
    bytes_fit(name.as_bytes())
}

// Whether the bytes of a name have one.
fn bytes_fit(bytes: &[u8]) -> bool
    requires { IsTrue (is_name bytes.now) }
    ensures { result ≡ (spell_name bytes.now).fits }
{
    !bytes.is_empty()
}

/// What is told of an object.
pub(crate) fn facts_fit(status: &Status, user: &User) -> bool
    ensures { result ≡ (spell_facts (facts_told status.now user.now)).fits }
{
    name_fits(&status.owner) && rights_fit(rights_on(status, user))
}

fn rights_fit(rights: Rights) -> bool
    ensures { result ≡ (spell_rights rights).fits }
{
    rights.bits() <= 63
}

/// An access list.
pub(crate) fn access_fits(list: &AccessList) -> bool
    ensures { result ≡ (spell_access list.now).fits }
{
    each_entry_fits(list.as_slice())
}

fn each_entry_fits(entries: &[AccessEntry]) -> bool
    ensures { result ≡ list_all (λ (entry : AccessEntry). (spell_access_entry entry).fits) entries.now }
{
    entries.iter().all(|entry| entry_fits(entry))
}

fn entry_fits(entry: &AccessEntry) -> bool
    ensures { result ≡ (spell_access_entry entry.now).fits }
{
    who_fits(&entry.who) && rights_fit(entry.rights)
}

fn who_fits(who: &Who) -> bool
    ensures { result ≡ (spell_who_name who.now).fits }
{
    match who {
        Who::User(name) => name_fits(name),
        Who::Group(name) => name_fits(name),
        _ => true,
    }
}

/// A refusal.
pub(crate) fn refusal_fits(refusal: &Refusal) -> bool
    ensures { result ≡ (spell_refusal refusal.now).fits }
{
    match refusal {
        Refusal::Denied(rights) => rights_fit(*rights),
        _ => true,
    }
}
