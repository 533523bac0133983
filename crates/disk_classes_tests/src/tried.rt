// Classes, and their open members, each under a number.
ghost use Rattle.std.specs.Prelude.{◌≡◌, OnOk, OnErr, IfOk, IfErr};
ghost use Rattle.disk_classes_tests.specs.Ready.{IsReady};

use crate::mounted::PAGES;
use base_types::Disk;
use disk_classes::{ClassFault, Classes, Member};

// A member with the number that rows give it.
#[derive(Drop)]
pub struct Named {
    pub number: u32,
    pub member: Member,
}

// Begins a member that has a number.
pub fn begun<D: Disk>(
    classes: &mut Classes<D>,
    members: &mut Vec<Named>,
    number: u32,
    pages: u32,
) -> Result<(), ClassFault>
    requires { IsReady D.tells D.view classes.old }
    ensures { IsReady D.tells D.view classes.new }
{
    if members.reserve(1).is_err() {
        return Err(ClassFault::Memory);
    }
    let member = classes.begin(pages)?;
    members.push_reserved(Named { number, member });
    Ok(())
}

// The place of the member that has a number; the end where there is none.
pub fn place_of(members: &[Named], number: u32) -> usize {
    for (place, named) in members.iter().enumerate() {
        if named.number == number {
            return place;
        }
    }
    members.len()
}

// Puts a page that has one byte everywhere. Answers whether the member may.
fn put_page<D: Disk>(
    classes: &mut Classes<D>,
    member: &mut Member,
    page: usize,
    byte: u8,
) -> Result<bool, ClassFault>
    requires { IsReady D.tells D.view classes.old }
    ensures { IsReady D.tells D.view classes.new }
{
    if PAGES <= page || !classes.may_put(member, 1 + page as u32) {
        return Ok(false);
    }
    classes.put(member, 1 + page as u32, &[byte; 512])?;
    Ok(true)
}

// Puts a page by the member at a place.
pub fn put_by<D: Disk>(
    classes: &mut Classes<D>,
    members: &mut Vec<Named>,
    place: usize,
    page: usize,
    byte: u8,
) -> Result<bool, ClassFault>
    requires { IsReady D.tells D.view classes.old }
    ensures { IsReady D.tells D.view classes.new }
{
    match members.as_mut_slice().get_mut(place) {
        Some(named) => put_page(classes, &mut named.member, page, byte),
        None => Ok(false),
    }
}

// Ends the member at a place.
pub fn end_by<D: Disk>(classes: &mut Classes<D>, members: &mut Vec<Named>, place: usize)
    requires { IsReady D.tells D.view classes.old }
    ensures { IsReady D.tells D.view classes.new }
{
    if members.len() <= place {
        return;
    }
    let Named { number: _, member } = members.remove(place);
    if classes.is_open(&member) {
        classes.end(member);
    }
}
