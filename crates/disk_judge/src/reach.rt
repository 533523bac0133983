// Which objects of a slot are reached from its root.
ghost use Rattle.std.specs.Prelude.{◌≡◌, ◌≤◌, ◌<◌, ◌+◌, ◌-◌, ◌++◌, ◌==◌, ◌&&◌, ◌||◌, ℕ, List, false, OnOk};
ghost use Rattle.disk_image.specs.declared.found.Link.{Link as TheLink};
ghost use Rattle.std.proofs.Common.{get_or};
ghost use Rattle.disk_image.specs.Reach.{is_reached, times_reached as times_there};
ghost use Rattle.disk_image.specs.Reach.{times_under as times_under_there};
ghost use Rattle.disk_image.specs.Reach.{is_reached_right as is_reached_right_there, links_of, reach_faults};
ghost use Rattle.disk_judge.specs.Metadata.{IsSized, over};
ghost use Rattle.disk_judge.specs.Reach.{AreWithin, AreFromAnodes};

use crate::metadata::{Metadata, page_place};
use crate::push::push_unless;
use crate::slot::{is_whole, state_at};
use disk_image::{Fault, Link, Rule};
use disk_layout::{PAGE, u32_at};
use disk_pages::is_object;
use std::alloc::AllocError;

const ANODES: usize = 64;

const UNIQUE_AT: usize = 4;

// For each anode whether entries lead to it.
type Reached = [bool; ANODES];

// Whether an anode that a link comes from is reached.
fn is_from_reached(reached: &Reached, link: &Link) -> bool
    requires first { 1 ≤ link.now.from }
    requires last { link.now.from ≤ 64 }
    ensures { result ≡ get_or reached.now (link.now.from - 1) false }
{
    reached[link.from as usize - 1]
}

// Adds what an entry leads to, where its directory is among the anodes that are reached.
fn follow(next: &mut Reached, reached: &Reached, link: &Link)
    requires first { 1 ≤ link.now.from }
    requires last { link.now.from ≤ 64 }
    ensures { (i : ℕ) → i < 64 → get_or next.new i false ≡ (get_or next.old i false || ((link.now.to == i + 1)
        && get_or reached.now (link.now.from - 1) false)) }
{
    let to = link.to as usize;
    if 1 <= to && to <= ANODES && is_from_reached(reached, link) {
        next[to - 1] = true;
    }
}

// Adds what one entry more leads to.
fn step(reached: &mut Reached, links: &[Link])
    requires { AreFromAnodes links.now }
    ensures { (n : ℕ) → AreWithin links.now n reached.old → AreWithin links.now (n + 1) reached.new }
{
    let before = *reached;
    for link in links {
        follow(reached, &before, link);
    }
}

// What at most 64 entries in a row lead to from the root.
fn reach(reached: &mut Reached, links: &[Link])
    requires from { AreFromAnodes links.now }
    requires root { AreWithin links.now 0 reached.old }
    ensures { AreWithin links.now 64 reached.new }
{
    for _steps in 0..ANODES {
        step(reached, links);
    }
}

// Whether an entry of a reached directory leads to an anode.
fn leads_to(reached: &Reached, link: &Link, anode: u32) -> bool
    requires first { 1 ≤ link.now.from }
    requires last { link.now.from ≤ 64 }
    ensures { (links : List TheLink) → AreWithin links 64 reached.now
        → result ≡ ((link.now.to == anode) && is_reached links link.now.from) }
{
    link.to == anode && is_from_reached(reached, link)
}

// How many do.
fn times_reached(links: &[Link], reached: &Reached, anode: u32) -> usize
    requires from { AreFromAnodes links.now }
    requires within { AreWithin links.now 64 reached.now }
    ensures { result ≡ times_there links.now anode }
{
    let mut times = 0;
    for link in links {
        if leads_to(reached, link, anode) {
            times += 1;
        }
    }
    times
}

// Whether an entry of a reached directory leads to an anode under a unique number.
fn leads_under(reached: &Reached, link: &Link, anode: u32, unique: u32) -> bool
    requires first { 1 ≤ link.now.from }
    requires last { link.now.from ≤ 64 }
    ensures { (links : List TheLink) → AreWithin links 64 reached.now
        → result ≡ ((link.now.to == anode) && (link.now.unique == unique) && is_reached links link.now.from) }
{
    link.to == anode && link.unique == unique && is_from_reached(reached, link)
}

fn times_under(links: &[Link], reached: &Reached, anode: u32, unique: u32) -> usize
    requires from { AreFromAnodes links.now }
    requires within { AreWithin links.now 64 reached.now }
    ensures { result ≡ times_under_there links.now anode unique }
{
    let mut times = 0;
    for link in links {
        if leads_under(reached, link, anode, unique) {
            times += 1;
        }
    }
    times
}

// Whether just one entry of a reached directory leads to an anode, under a unique number.
fn is_reached_once(links: &[Link], reached: &Reached, anode: u32, unique: u32) -> bool
    requires from { AreFromAnodes links.now }
    requires within { AreWithin links.now 64 reached.now }
    ensures { result ≡ ((times_there links.now anode == 1) && (times_under_there links.now anode unique == 1)) }
{
    times_reached(links, reached, anode) == 1 && times_under(links, reached, anode, unique) == 1
}

// Whether an anode is reached as it should be.
#[tactic(auto, unfolding(disk_image::specs::Reach::is_reached_right))]
fn is_reached_right(links: &[Link], reached: &Reached, anode: u32, page: &[u8; PAGE]) -> bool
    requires from { AreFromAnodes links.now }
    requires within { AreWithin links.now 64 reached.now }
    ensures { result ≡ is_reached_right_there links.now anode page.now }
{
    let times = times_reached(links, reached, anode);
    if anode == 1 || page[0] == 0 {
        return times == 0;
    }
    !is_object(page) || is_reached_once(links, reached, anode, u32_at(page, UNIQUE_AT))
}

/// Adds the faults of reach of a slot, by where its entries lead. The error is want of memory.
#[tactic(auto, unfolding(disk_image::specs::Reach::reach_faults))]
pub fn push_reach_faults(
    metadata: &Metadata,
    slot: usize,
    links: &[Link],
    faults: &mut Vec<Fault>,
) -> Result<(), AllocError>
    requires sized { IsSized metadata.now }
    requires slot { slot < 16 }
    requires from { AreFromAnodes links.now }
    ensures { OnOk result ((image : List ℕ) → links.now ≡ links_of (over metadata.now image) slot
        → faults.new.items ≡ faults.old.items ++ reach_faults (over metadata.now image) slot) }
{
    if !is_whole(state_at(metadata, slot)) {
        return Ok(());
    }
    let mut reached = [false; ANODES];
    reached[0] = true;
    reach(&mut reached, links);
    for i in 0..ANODES {
        let is_right = is_reached_right(links, &reached, i as u32 + 1, metadata.anode(slot, i));
        push_unless(faults, is_right, page_place(4 + 66 * slot + i), Rule::Reach)?;
    }
    Ok(())
}
