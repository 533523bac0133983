//! Stores by example. Standard input is a table: each row is a batch of acts of a server's store, or a question, and
//! behind ` = ` what is wanted. Every row that gets something else is printed, and at the end the number of rows.
#![tactic(auto)]

ghost use Rattle.std.specs.Prelude.{IfOk, OnOk};
ghost use Rattle.store_memory.specs.MapStores.{map_view};
ghost use Rattle.store_test_rows.specs.Standing.{Stands};
ghost use Rattle.store_test_rows.specs.Worlds.{BothStand};

use anyhow::Result;
use base_types::ServerId;
use std::alloc::Global;
use std::io;
use store_memory::MapStore;
use store_test_rows::{Tried, World, roster};
use tree_calls::Roster;
use tree_test_words::{Text, Words};

// The servers' capacities: room for many filesets, and for one of 64 objects and one of 4.
const CAPACITIES: [u32; 2] = [65_536, 4_624];

// Judges one line: a comment, or a row. Answers whether it was a row, and prints one that doesn't get what is wanted.
fn judge(rt: &(impl Print + AllocGlobal), world: &mut World<MapStore>, line: &str) -> Result<bool>
    requires stand { BothStand map_view world.old }
    ensures stand { OnOk result (BothStand map_view world.new) }
{
    let line = line.trim();
    if line.is_empty() || line.starts_with("#") {
        return Ok(false);
    }
    let (row, wanted) = line.split_once(" = ").unwrap_or((line, ""));
    let mut text = Text::new(rt.alloc());
    world.tell(&mut Words::new(rt.alloc(), row.trim()), &mut text)?;
    let told = text.line()?;
    if told.as_str() != wanted.trim() {
        println!(rt; "{row}: {told}, and not {wanted}")?;
    }
    Ok(true)
}

// Judges lines in their order, and answers how many of them were rows.
fn judge_all(
    rt: &(impl Print + AllocGlobal),
    world: &mut World<MapStore>,
    lines: &str,
) -> Result<u64>
    requires stand { BothStand map_view world.old }
    ensures stand { OnOk result (BothStand map_view world.new) }
{
    let mut rows = 0u64;
    for line in lines.lines() {
        if judge(rt, world, line)? {
            rows = rows.saturating_add(1);
        }
    }
    Ok(rows)
}

// The new store of a server.
fn tried(alloc: Global, server: u8, roster: &Roster) -> Result<Tried<MapStore>>
    ensures stands { IfOk result (λ tried. Stands map_view roster.now tried) }
{
    let store = MapStore::new(alloc, ServerId(server), roster)?;
    Ok(Tried::new(ServerId(server), roster, store))
}

// The new stores of the two servers of a roster.
fn world(alloc: Global, roster: Roster) -> Result<World<MapStore>>
    ensures stand { IfOk result (λ world. BothStand map_view world) }
{
    let one = tried(alloc, 1, &roster)?;
    match tried(alloc, 2, &roster) {
        Ok(two) => Ok(World::new(roster, one, two)),
        Err(error) => {
            drop(one);
            Err(error)
        }
    }
}

// Judges lines on two new stores.
fn judge_anew(rt: &(impl Print + AllocGlobal), lines: &str) -> Result<u64> {
    let mut world = world(rt.alloc(), roster(rt.alloc(), &CAPACITIES)?)?;
    let rows = judge_all(rt, &mut world, lines);
    drop(world);
    rows
}

fn main(rt: HostRuntime) -> Result<()> {
    let table = io::read_to_string(rt.alloc(), rt.reader())?;
    let mut rows = 0u64;
    for lines in table.as_str().split("\nstores\n") {
        rows = rows.saturating_add(judge_anew(&rt, lines)?);
    }
    println!(rt; "{rows} rows")?;
    Ok(())
}
