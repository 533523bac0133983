// A member, and what is kept of it until it is committed.
ghost use Rattle.std.specs.Prelude.{◌≡◌, ◌∷◌, ◌++◌, [], take, OnOk, OnErr, IfOk, IsTrue, ◌↔◌};
ghost use Rattle.disk_classes.specs.declared.member.Standing.TheVariants.{Vacant as IsVacant, Open as IsOpen};
ghost use Rattle.disk_classes.specs.declared.member.Standing.TheVariants.{Ended as HasEnded};

use base_types::{Items, NoMemory};
use std::alloc::Global;

/// An open transaction among others.
#[derive(Drop)]
pub struct Member {
    pub(crate) number: usize,
}

/// How a number stands.
#[derive(Clone, Copy)]
pub enum Standing {
    /// No member that isn't yet committed has it.
    Vacant,
    /// Its member is open.
    Open,
    /// Its member has ended.
    Ended,
}

// What is kept under a number: how it stands, how many pages its member may put, and those that it put; the number of
// its class; and, under the number of a class, the members of that class.
#[derive(Drop)]
pub struct Noted {
    pub standing: Standing,
    pub limit: u32,
    pub pages: Items<u32>,
    pub class: usize,
    pub joined: Items<usize>,
}

impl Noted {
    ghost use Rattle.disk_classes.specs.Joined.{MayPut};
    ghost use Rattle.disk_classes.specs.Notes.{vacant, fresh, note_of};

    // Whether no member has the number.
    pub fn is_vacant(&self) -> bool
        ensures { IsTrue result ↔ (self.now.standing ≡ IsVacant) }
    {
        matches!(self.standing, Standing::Vacant)
    }

    // Whether its member is open.
    pub fn is_open(&self) -> bool
        ensures { IsTrue result ↔ (self.now.standing ≡ IsOpen) }
    {
        matches!(self.standing, Standing::Open)
    }

    // Whether its member may put a page.
    pub fn may_put(&self, page: u32) -> bool
        ensures { IsTrue result ↔ MayPut (note_of self.now) page }
    {
        self.is_open()
            && (self.pages.as_slice().contains(&page) || self.pages.len() < self.limit as usize)
    }

    // Whether its member has ended.
    pub fn is_ended(&self) -> bool
        ensures { IsTrue result ↔ (self.now.standing ≡ HasEnded) }
    {
        matches!(self.standing, Standing::Ended)
    }

    // What is kept under a number that no member has.
    pub fn vacant(alloc: Global, number: usize) -> Noted
        ensures { result ≡ vacant number }
    {
        Noted {
            standing: Standing::Vacant,
            limit: 0,
            pages: Items::new(alloc),
            class: number,
            joined: Items::new(alloc),
        }
    }

    // What is kept of a member at first, which is a class by itself.
    pub fn fresh(alloc: Global, number: usize, limit: u32) -> Result<Noted, NoMemory>
        ensures { IfOk result (λ noted. noted ≡ fresh number limit) }
    {
        let mut joined = Items::new(alloc);
        joined.push(number)?;
        Ok(Noted {
            standing: Standing::Open,
            limit,
            pages: Items::new(alloc),
            class: number,
            joined,
        })
    }
}

// Notes that a member put a page.
pub fn add_page(noted: &mut Noted, page: u32) -> Result<(), NoMemory>
    ensures ok { OnOk result (noted.new ≡ record noted.old { pages = noted.old.pages ++ page ∷ [] }) }
    ensures err { OnErr result (noted.new ≡ noted.old) }
{
    noted.pages.push(page)
}

// Forgets the last page that was noted.
pub fn drop_page(noted: &mut Noted, pages: usize)
    ensures { noted.new ≡ record noted.old { pages = take pages noted.old.pages } }
{
    noted.pages.truncate(pages);
}

// Notes that a member has ended.
pub fn set_ended(noted: &mut Noted)
    ensures { noted.new ≡ record noted.old { standing = HasEnded } }
{
    noted.standing = Standing::Ended;
}

// Notes the class of a member.
pub fn set_class(noted: &mut Noted, class: usize)
    ensures { noted.new ≡ record noted.old { class = class } }
{
    noted.class = class;
}

// Adds members to a class.
pub fn add_joined(noted: &mut Noted, members: &[usize]) -> Result<(), NoMemory>
    ensures ok { OnOk result (noted.new ≡ record noted.old { joined = noted.old.joined ++ members.now }) }
    ensures err { OnErr result (noted.new ≡ noted.old) }
{
    noted.joined.extend(members)
}

// Leaves no member in a class.
pub fn clear_joined(noted: &mut Noted)
    ensures { noted.new ≡ record noted.old { joined = [] } }
{
    noted.joined.truncate(0);
}
