ghost use Rattle.std.specs.Prelude.{◌≡◌, ◌↔◌, true, false, IsTrue, IfOk, IsErrOf};
ghost use Rattle.base_types.specs.Access.{
  same_who,
  has_who,
  is_distinct,
  is_access_list,
  is_user_obj,
  is_user,
  is_other_obj,
  is_mask_obj,
  decides_by_group,
};
ghost use Rattle.base_types.specs.Name.{is_among};

use crate::errors::NoMemory;
use crate::items::Items;
use crate::limits::LIST_ENTRIES_MAX;
use crate::name::Name;
use crate::plain::Plain;
use crate::rights::Rights;
use std::alloc::Global;
use std::marker::Model;
use thiserror::Error;

/// Whom an entry of an access list speaks of.
#[derive(Debug, PartialEq)]
pub enum Who {
    /// The object's owner.
    UserObj,
    /// The user of this name.
    User(Name),
    /// The object's group.
    GroupObj,
    /// The group of this name.
    Group(Name),
    /// Everyone else.
    OtherObj,
    /// No one: a limit of the rights that other entries give.
    MaskObj,
}

impl Drop for Who {
    fn drop(self) {
        match self {
            Who::UserObj => {}
            Who::User(_) => {}
            Who::GroupObj => {}
            Who::Group(_) => {}
            Who::OtherObj => {}
            Who::MaskObj => {}
        }
    }
}

impl Who {
    pub(crate) fn is_user_obj(&self) -> bool
        ensures { result ≡ is_user_obj self.now }
    {
        matches!(self, Who::UserObj)
    }

    pub(crate) fn is_other_obj(&self) -> bool
        ensures { result ≡ is_other_obj self.now }
    {
        matches!(self, Who::OtherObj)
    }

    pub(crate) fn is_mask_obj(&self) -> bool
        ensures { result ≡ is_mask_obj self.now }
    {
        matches!(self, Who::MaskObj)
    }

    /// Whether this is the user of this name.
    pub(crate) fn is_user(&self, name: &Name) -> bool
        ensures { result ≡ is_user name.now self.now }
    {
        match self {
            Who::User(other) => *other == *name,
            _ => false,
        }
    }

    /// Whether this is the object's group or a named group, and one of `groups`.
    pub(crate) fn decides_by_group(&self, group: &Name, groups: &Items<Name>) -> bool
        ensures { result ≡ decides_by_group group.now groups.now self.now }
    {
        match self {
            Who::GroupObj => is_among(groups, group),
            Who::Group(other) => is_among(groups, other),
            _ => false,
        }
    }

    /// Whether both speak of the same.
    pub(crate) fn same(&self, other: &Who) -> bool
        ensures { result ≡ same_who self.now other.now }
    {
        match (self, other) {
            (Who::UserObj, Who::UserObj) => true,
            (Who::User(a), Who::User(b)) => *a == *b,
            (Who::GroupObj, Who::GroupObj) => true,
            (Who::Group(a), Who::Group(b)) => *a == *b,
            (Who::OtherObj, Who::OtherObj) => true,
            (Who::MaskObj, Who::MaskObj) => true,
            _ => false,
        }
    }
}

/// Whether a name is among those of a list.
fn is_among(names: &Items<Name>, name: &Name) -> bool
    ensures { result ≡ is_among names.now name.now }
{
    names.as_slice().iter().any(|other| *other == *name)
}

impl Plain for Who {
    fn copy(&self) -> Result<Who, NoMemory> {
        Ok(match self {
            Who::UserObj => Who::UserObj,
            Who::User(name) => Who::User(name.copy()?),
            Who::GroupObj => Who::GroupObj,
            Who::Group(name) => Who::Group(name.copy()?),
            Who::OtherObj => Who::OtherObj,
            Who::MaskObj => Who::MaskObj,
        })
    }
}

/// The rights that an access list gives to one of those that it speaks of.
#[derive(Debug, PartialEq)]
pub struct AccessEntry {
    pub who: Who,
    pub rights: Rights,
}

impl Drop for AccessEntry {
    fn drop(self) {
        let AccessEntry { who: _, rights: _ } = self;
    }
}

impl Plain for AccessEntry {
    fn copy(&self) -> Result<AccessEntry, NoMemory> {
        Ok(AccessEntry {
            who: self.who.copy()?,
            rights: self.rights,
        })
    }
}

/// An access list: at most 16 entries, with `UserObj`, `GroupObj` and `OtherObj` among them, and
/// none twice. Contracts see it as its entries.
#[derive(Debug, PartialEq)]
pub struct AccessList {
    entries: Items<AccessEntry>,
}

impl Drop for AccessList {
    fn drop(self) {
        let AccessList { entries: _ } = self;
    }
}

impl Model for AccessList {
    ghost use Rattle.std.specs.Prelude.{List, IsTrue};
    ghost use Rattle.base_types.specs.declared.access.AccessEntry.{AccessEntry};

    ghost Value = { List AccessEntry };

    ghost use Rattle.base_types.specs.Access.{is_access_list};

    ghost view = { λ a. a.entries };

    ghost invariant = { λ a. IsTrue (is_access_list a.entries) };

    ghost inverse = { λ entries. record { entries = entries } };
}

/// Why entries are no access list.
#[derive(Clone, Copy, Debug, PartialEq, Eq, Error)]
pub enum ListRefused {
    /// There are more than `LIST_ENTRIES_MAX` entries, an entry of the object lacks, or one stands twice.
    #[error("no access list")]
    BadList,
    /// Memory ran out.
    #[error("memory ran out")]
    Memory,
}

impl AccessList {
    /// Whether these entries are an access list.
    pub fn accepts(entries: &[AccessEntry]) -> bool
        ensures { result ≡ is_access_list entries.now }
    {
        entries.len() <= LIST_ENTRIES_MAX
            && has_who(entries, &Who::UserObj)
            && has_who(entries, &Who::GroupObj)
            && has_who(entries, &Who::OtherObj)
            && is_distinct(entries)
    }

    /// The list of these entries, in their order.
    pub fn new(alloc: Global, entries: &[AccessEntry]) -> Result<AccessList, ListRefused>
        ensures ok { IfOk result (λ list. list ≡ entries.now) }
        ensures bad { IsErrOf result ListRefused.BadList ↔ (is_access_list entries.now ≡ false) }
    {
        if !AccessList::accepts(entries) {
            return Err(ListRefused::BadList);
        }
        match Items::copied(alloc, entries) {
            Ok(entries) => Ok(AccessList { entries }),
            Err(NoMemory) => Err(ListRefused::Memory),
        }
    }

    pub fn as_slice(&self) -> &[AccessEntry]
        ensures value { result.now ≡ self.now }
        ensures list { IsTrue (is_access_list self.now) }
    {
        self.entries.as_slice()
    }
}

impl Plain for AccessList {
    fn copy(&self) -> Result<AccessList, NoMemory> {
        Ok(AccessList {
            entries: self.entries.copy()?,
        })
    }
}

fn has_who(entries: &[AccessEntry], who: &Who) -> bool
    ensures { result ≡ has_who entries.now who.now }
{
    entries.iter().any(|entry| entry.who.same(who))
}

fn is_distinct(entries: &[AccessEntry]) -> bool
    ensures { result ≡ is_distinct entries.now }
{
    for (i, entry) in entries.iter().enumerate() {
        if has_who(&entries[i + 1..], &entry.who) {
            return false;
        }
    }
    true
}
