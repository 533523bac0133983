ghost use Rattle.std.specs.Prelude.{◌≡◌, bit_and, bit_or, unwrap_or};
ghost use Rattle.base_types.specs.Access.{
  allows,
  rights_where,
  is_user_obj,
  is_user,
  is_other_obj,
  is_mask_obj,
  limited_by_mask,
  rights_of,
  group_rights_of,
  union_of,
  decides_by_group,
};
ghost use Rattle.std.specs.List.{filter, list_any};

use crate::access::{AccessEntry, AccessList, Who};
use crate::errors::NoMemory;
use crate::items::Items;
use crate::name::Name;
use crate::plain::Plain;
use crate::user::User;
use std::marker::Model;

/// A set of rights: read 1, write 2, execute 4, control 8, insert 16, delete 32. Contracts see it
/// as this number, which is below 64.
#[derive(Clone, Copy, Debug, PartialEq, Eq)]
pub struct Rights {
    bits: u8,
}

impl Model for Rights {
    ghost use Rattle.std.specs.Prelude.{ℕ, ◌<◌};

    ghost Value = { ℕ };

    ghost view = { λ r. r.bits };

    ghost invariant = { λ r. r.bits < 64 };

    ghost inverse = { λ n. record { bits = n } };
}

impl Rights {
    pub const NONE: Rights = Rights { bits: 0 };

    pub const ALL: Rights = Rights { bits: 63 };

    pub const READ: Rights = Rights { bits: 1 };

    pub const WRITE: Rights = Rights { bits: 2 };

    pub const EXECUTE: Rights = Rights { bits: 4 };

    pub const CONTROL: Rights = Rights { bits: 8 };

    pub const INSERT: Rights = Rights { bits: 16 };

    pub const DELETE: Rights = Rights { bits: 32 };

    /// The rights with these bits, of which only the lowest six count.
    pub fn from_bits(bits: u8) -> Rights
        ensures { result ≡ bit_and bits 63 }
    {
        Rights { bits: bits & 63 }
    }

    pub fn bits(self) -> u8
        ensures { result ≡ self }
    {
        self.bits
    }

    /// The rights in either.
    pub fn union(self, other: Rights) -> Rights
        ensures { result ≡ bit_or self other }
    {
        Rights {
            bits: self.bits | other.bits,
        }
    }

    /// The rights in both.
    pub fn limited_to(self, mask: Rights) -> Rights
        ensures { result ≡ bit_and self mask }
    {
        Rights {
            bits: self.bits & mask.bits,
        }
    }

    /// Whether all of `needed` are among the rights.
    pub fn allows(self, needed: Rights) -> bool
        ensures { result ≡ allows self needed }
    {
        self.bits & needed.bits == needed.bits
    }
}

impl Plain for Rights {
    fn copy(&self) -> Result<Rights, NoMemory> {
        Ok(*self)
    }
}

/// The rights that a user has under an access list of an object with this owner and group. The
/// owner has the rights of `UserObj` and no others. Else an entry of the user's name decides, else
/// all entries of the user's groups together, else `OtherObj`; a mask limits all but the first and
/// the last of these.
pub fn rights_of(list: &AccessList, owner: &Name, group: &Name, user: &User) -> Rights
    ensures { result ≡ rights_of list.now owner.now group.now user.now }
{
    let entries = list.as_slice();
    if *owner == user.name {
        return user_obj_rights(entries);
    }
    match named_rights(entries, &user.name) {
        Some(rights) => limited(entries, rights),
        None => match group_rights(entries, group, &user.groups) {
            Some(rights) => limited(entries, rights),
            None => other_obj_rights(entries),
        },
    }
}

fn user_obj_rights(entries: &[AccessEntry]) -> Rights
    ensures { result ≡ unwrap_or (rights_where is_user_obj entries.now) 0 }
{
    entries
        .iter()
        .find(|entry| entry.who.is_user_obj())
        .map_or(Rights::NONE, |entry| entry.rights)
}

fn other_obj_rights(entries: &[AccessEntry]) -> Rights
    ensures { result ≡ unwrap_or (rights_where is_other_obj entries.now) 0 }
{
    entries
        .iter()
        .find(|entry| entry.who.is_other_obj())
        .map_or(Rights::NONE, |entry| entry.rights)
}

fn limited(entries: &[AccessEntry], rights: Rights) -> Rights
    ensures { result ≡ limited_by_mask entries.now rights }
{
    rights.limited_to(mask_rights(entries))
}

fn mask_rights(entries: &[AccessEntry]) -> Rights
    ensures { result ≡ unwrap_or (rights_where is_mask_obj entries.now) 63 }
{
    entries
        .iter()
        .find(|entry| entry.who.is_mask_obj())
        .map_or(Rights::ALL, |entry| entry.rights)
}

fn named_rights(entries: &[AccessEntry], name: &Name) -> Option<Rights>
    ensures { result ≡ rights_where (is_user name.now) entries.now }
{
    entries
        .iter()
        .find(|entry| entry.who.is_user(name))
        .map(|entry| entry.rights)
}

fn group_rights(entries: &[AccessEntry], group: &Name, groups: &Items<Name>) -> Option<Rights>
    ensures { result ≡ group_rights_of entries.now group.now groups.now }
{
    if has_group_entry(entries, group, groups) {
        Some(group_union(entries, group, groups))
    } else {
        None
    }
}

fn group_union(entries: &[AccessEntry], group: &Name, groups: &Items<Name>) -> Rights
    ensures { result ≡ union_of (filter (λ entry. decides_by_group group.now groups.now entry.who) entries.now) }
{
    entries
        .iter()
        .filter(|entry| entry.who.decides_by_group(group, groups))
        .fold(Rights::NONE, |rights, entry| rights.union(entry.rights))
}

fn has_group_entry(entries: &[AccessEntry], group: &Name, groups: &Items<Name>) -> bool
    ensures { result ≡ list_any (λ entry. decides_by_group group.now groups.now entry.who) entries.now }
{
    entries
        .iter()
        .any(|entry| entry.who.decides_by_group(group, groups))
}
