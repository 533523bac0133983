// The members that aren't yet committed, by their numbers, and the pages that they put.
ghost use Rattle.std.specs.Prelude.{◌≡◌, ◌≢◌, ◌≤◌, ◌<◌, [], ℕ, Some, None, length};
ghost use Rattle.std.specs.Prelude.{OnOk, OnErr, IfOk, IfSome, Contains, IsTrue, ◌↔◌, ◌⊎◌, ◌==◌};
ghost use Rattle.std.specs.Prelude.{if◌then◌else◌};
ghost use Rattle.std.proofs.Common.{get_or, set};
ghost use Rattle.disk_classes.specs.Joined.{PutsPage};
ghost use Rattle.disk_classes.specs.Notes.{vacant, bytes_in, notes_in, noted_at, needed_by, needed_in, class_of};
ghost use Rattle.disk_classes.specs.Notes.{joined_at, pages_in_class, vacated, renumbered, cleared, AreEndedAll};
ghost use Rattle.disk_classes.specs.Notes.{Joins, JoinsPage, NotesPage};
ghost use Rattle.disk_classes.specs.Notes.{ArePartition, AreValues, AreWithin, IsNoted, IsPlaced, IsPutIn};
ghost use Rattle.disk_classes.specs.declared.member.Standing.TheVariants.{Vacant as IsVacant, Ended as HasEnded};

use crate::member::{
    Noted, Standing, add_joined, add_page, clear_joined, drop_page, set_class, set_ended,
};
use base_types::{Items, NoMemory};
use disk_layout::PAGE;
use std::alloc::Global;

// The last put of a page, and the member that put it.
#[derive(Clone, Copy)]
pub struct Value {
    pub member: usize,
    pub bytes: [u8; PAGE],
}

// What is kept of each number, and of each page.
#[derive(Drop)]
pub struct Members {
    pub noted: Items<Noted>,
    pub values: Items<Option<Value>>,
}

// The lowest number that no member has.
pub fn first_vacant(noted: &[Noted]) -> usize
    ensures within { result ≤ length noted.now }
    ensures vacant { result < length noted.now → (noted_at noted.now result).standing ≡ IsVacant }
    ensures lowest { (m : ℕ) → m < result → (noted_at noted.now m).standing ≢ IsVacant }
{
    for (number, one) in noted.iter().enumerate() {
        if one.is_vacant() {
            return number;
        }
    }
    noted.len()
}

fn needed_one(noted: &Noted) -> u64
    ensures { result ≡ needed_by noted.now }
{
    match noted.standing {
        Standing::Vacant => 0,
        Standing::Open | Standing::Ended => 2 * noted.limit as u64 + 1,
    }
}

// The entries of the log that all members need.
pub fn count_needed(noted: &[Noted]) -> u64
    requires { needed_in noted.now ≤ 2048 }
    ensures { result ≡ needed_in noted.now }
{
    let mut needed = 0;
    for one in noted {
        needed += needed_one(one);
    }
    needed
}

// Keeps a member under a number, the next or one that was vacant.
pub fn place(noted: &mut Items<Noted>, number: usize, one: Noted) -> Result<(), NoMemory>
    requires { number ≤ length noted.old }
    ensures ok { OnOk result (IsPlaced number one noted.old noted.new) }
    ensures err { OnErr result (noted.new ≡ noted.old) }
{
    if number < noted.len() {
        noted.set(number, one);
        return Ok(());
    }
    noted.push(one)
}

// Whether all members of a class have ended.
pub fn has_ended(noted: &[Noted], class: usize) -> bool
    requires class { class < length noted.now }
    requires within { (m : ℕ) → Contains (joined_at noted.now class) m → m < length noted.now }
    ensures { IsTrue result ↔ AreEndedAll noted.now (joined_at noted.now class) }
{
    for number in noted[class].joined.as_slice() {
        if !noted[*number].is_ended() {
            return false;
        }
    }
    true
}

// Gives members another class.
fn renumber(noted: &mut Items<Noted>, members: &[usize], class: usize)
    requires { (m : ℕ) → Contains members.now m → m < length noted.old }
    ensures { noted.new ≡ renumbered class members.now noted.old }
{
    for number in members {
        set_class(noted.get_mut(*number), class);
    }
}

// Joins two classes: the members of one come into the other.
fn join(noted: &mut Items<Noted>, from: usize, into: usize) -> Result<(), NoMemory>
    requires apart { from ≢ into }
    requires from { from < length noted.old }
    requires into { into < length noted.old }
    requires within { (m : ℕ) → Contains (joined_at noted.old from) m → m < length noted.old }
    ensures ok { OnOk result (Joins from into noted.old noted.new) }
    ensures err { OnErr result (noted.new ≡ noted.old) }
{
    let members = Items::from_slice(noted.alloc(), noted.get(from).joined.as_slice())?;
    add_joined(noted.get_mut(into), members.as_slice())?;
    clear_joined(noted.get_mut(from));
    renumber(noted, members.as_slice(), into);
    Ok(())
}

// Joins two classes: the members of the smaller one come into the other.
fn join_smaller(noted: &mut Items<Noted>, one: usize, other: usize) -> Result<(), NoMemory>
    requires apart { one ≢ other }
    requires one { one < length noted.old }
    requires other { other < length noted.old }
    requires within { (c m : ℕ) → Contains (joined_at noted.old c) m → m < length noted.old }
    ensures ok { OnOk result (Joins one other noted.old noted.new ⊎ Joins other one noted.old noted.new) }
    ensures err { OnErr result (noted.new ≡ noted.old) }
{
    if noted.get(one).joined.len() < noted.get(other).joined.len() {
        join(noted, one, other)
    } else {
        join(noted, other, one)
    }
}

// Notes that a member put a page, where that isn't noted. Answers how many pages it had put.
fn note_page(noted: &mut Items<Noted>, member: usize, page: u32) -> Result<usize, NoMemory>
    requires { member < length noted.old }
    ensures ok { IfOk result (λ pages. (pages ≡ length (noted_at noted.old member).pages)
        × IsNoted member page noted.old noted.new) }
    ensures err { OnErr result (noted.new ≡ noted.old) }
{
    let pages = noted.get(member).pages.len();
    if !noted.get(member).pages.as_slice().contains(&page) {
        add_page(noted.get_mut(member), page)?;
    }
    Ok(pages)
}

// Makes room for the value of a page.
fn grow(values: &mut Items<Option<Value>>, page: u32) -> Result<(), NoMemory>
    ensures room { OnOk result (page < length values.new) }
    ensures same { (p : ℕ) → get_or values.new p None ≡ get_or values.old p None }
{
    while values.len() <= page as usize {
        values.push(None)?;
    }
    Ok(())
}

// Forgets the values of pages.
fn clear(values: &mut Items<Option<Value>>, pages: &[u32])
    ensures { values.new ≡ cleared pages.now values.old }
{
    for page in pages {
        values.put(*page as usize, None);
    }
}

// How many pages the members of a class noted.
pub fn count_pages(noted: &[Noted], class: usize) -> u32
    requires { pages_in_class class noted.now ≤ 2048 }
    ensures { result ≡ pages_in_class class noted.now }
{
    let mut pages = 0;
    for one in noted {
        if one.class == class {
            pages += one.pages.len() as u32;
        }
    }
    pages
}

impl Members {
    // No member.
    pub fn new(alloc: Global) -> Members
        ensures noted { result.noted ≡ [] }
        ensures values { result.values ≡ [] }
    {
        Members {
            noted: Items::new(alloc),
            values: Items::new(alloc),
        }
    }

    // The last put of a page, and the member that put it.
    pub fn value_of(&self, page: u32) -> Option<Value>
        ensures { result ≡ get_or self.now.values page None }
    {
        match self.values.at(page as usize) {
            Some(value) => *value,
            None => None,
        }
    }

    // Joins the class of a member and that of a page.
    fn join_page(&mut self, member: usize, page: u32) -> Result<(), NoMemory>
        requires member { member < length self.old.noted }
        requires page { page < length self.old.values }
        requires within { (c m : ℕ) → Contains (joined_at self.old.noted c) m → m < length self.old.noted }
        requires classes { (m : ℕ) → m < length self.old.noted → class_of self.old.noted m < length self.old.noted }
        requires values { (p : ℕ) → IfSome (get_or self.old.values p None)
            (λ value. value.member < length self.old.noted) }
        ensures ok { OnOk result (JoinsPage member page self.old.values self.old.noted self.new.noted) }
        ensures err { OnErr result (self.new.noted ≡ self.old.noted) }
        ensures values { self.new.values ≡ self.old.values }
    {
        let Some(value) = *self.values.get(page as usize) else {
            return Ok(());
        };
        let class = self.noted.get(member).class;
        let other = self.noted.get(value.member).class;
        if class == other {
            return Ok(());
        }
        join_smaller(&mut self.noted, class, other)
    }

    // Notes that a member put a page, and joins its class and that of the page.
    fn note(&mut self, member: usize, page: u32) -> Result<(), NoMemory>
        requires partition { ArePartition self.old.noted }
        requires values { AreValues self.old.noted self.old.values }
        requires live { (noted_at self.old.noted member).standing ≢ IsVacant }
        requires page { page < length self.old.values }
        ensures ok { OnOk result (NotesPage member page self.old.values self.old.noted self.new.noted) }
        ensures err { OnErr result (self.new.noted ≡ self.old.noted) }
        ensures values { self.new.values ≡ self.old.values }
    {
        let pages = note_page(&mut self.noted, member, page)?;
        match self.join_page(member, page) {
            Ok(()) => Ok(()),
            Err(NoMemory) => {
                drop_page(self.noted.get_mut(member), pages);
                Err(NoMemory)
            }
        }
    }

    // Puts a page.
    pub fn put(&mut self, member: usize, page: u32, bytes: [u8; PAGE]) -> Result<(), NoMemory>
        requires partition { ArePartition self.old.noted }
        requires values { AreValues self.old.noted self.old.values }
        requires live { (noted_at self.old.noted member).standing ≢ IsVacant }
        ensures partition { ArePartition self.new.noted }
        ensures values { AreValues self.new.noted self.new.values }
        ensures within { (pages : ℕ) → page < pages
            → AreWithin pages self.old.values → AreWithin pages self.new.values }
        ensures put { OnOk result (PutsPage member page (notes_in self.old.noted) (notes_in self.new.noted)) }
        ensures value { OnOk result ((p : ℕ) → bytes_in (get_or self.new.values p None)
            ≡ (if p == page then Some bytes else bytes_in (get_or self.old.values p None))) }
        ensures needed { needed_in self.new.noted ≡ needed_in self.old.noted }
        ensures size { length self.new.noted ≡ length self.old.noted }
        ensures err { OnErr result (self.new.noted ≡ self.old.noted) }
        ensures err_values { OnErr result ((p : ℕ) → get_or self.new.values p None ≡ get_or self.old.values p None) }
    {
        grow(&mut self.values, page)?;
        self.note(member, page)?;
        self.values
            .set(page as usize, Some(Value { member, bytes }));
        Ok(())
    }

    // Notes that a member has ended.
    pub fn end(&mut self, member: usize)
        requires { member < length self.old.noted }
        ensures noted { self.new.noted
            ≡ set self.old.noted member (record (noted_at self.old.noted member) { standing = HasEnded }) }
        ensures values { self.new.values ≡ self.old.values }
    {
        set_ended(self.noted.get_mut(member));
    }

    // Forgets a member, if it is of a class, and the values of its pages.
    fn vacate_one(&mut self, number: usize, class: usize)
        requires { number < length self.old.noted }
        ensures gone { class_of self.old.noted number ≡ class
            → (self.new.noted ≡ set self.old.noted number (vacant number))
            × (self.new.values ≡ cleared (noted_at self.old.noted number).pages self.old.values) }
        ensures stays { class_of self.old.noted number ≢ class
            → (self.new.noted ≡ self.old.noted) × (self.new.values ≡ self.old.values) }
    {
        if self.noted.get(number).class != class {
            return;
        }
        let one = Noted::vacant(self.noted.alloc(), number);
        clear(&mut self.values, self.noted.get(number).pages.as_slice());
        self.noted.set(number, one);
    }

    // Forgets the members of a class, and the values of their pages.
    pub fn vacate(&mut self, class: usize)
        ensures noted { self.new.noted ≡ vacated class 0 self.old.noted }
        ensures put { (p : ℕ) → IsPutIn class self.old.noted p → get_or self.new.values p None ≡ None }
        ensures kept { (p : ℕ) → (IsPutIn class self.old.noted p → ⊥)
            → get_or self.new.values p None ≡ get_or self.old.values p None }
    {
        for number in 0..self.noted.len() {
            self.vacate_one(number, class);
        }
    }
}
