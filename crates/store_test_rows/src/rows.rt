//! Rows over two stores of any kind.
ghost use Rattle.std.specs.Prelude.{OnOk};
ghost use Rattle.store_test_rows.specs.Worlds.{BothStand};

use crate::world::World;
use anyhow::Result;
use std::alloc::Global;
use store_memory::Store;
use tree_test_words::{Text, Words};

/// All that two stores tell.
pub fn all_told<S: Store + Drop>(alloc: Global, world: &mut World<S>) -> Result<String>
    requires stand { BothStand S.view world.old }
    ensures stand { OnOk result (BothStand S.view world.new) }
{
    let mut text = Text::new(alloc);
    world.tell_all(&mut text)?;
    text.line()
}

// The row of a line and what is wanted of it; none where the line is a comment, or its row is only for others.
fn row_of(line: &str, is_disk: bool) -> Option<(&str, &str)> {
    let line = line.trim();
    if line.is_empty() || line.starts_with("#") {
        return None;
    }
    let (row, wanted) = line.split_once(" = ").unwrap_or((line, ""));
    match row.strip_prefix("disks ") {
        Some(row) if is_disk => Some((row.trim(), wanted.trim())),
        Some(_) => None,
        None => Some((row.trim(), wanted.trim())),
    }
}

// Judges a row, and prints one that doesn't get what is wanted.
fn judge<S: Store + Drop>(
    rt: &(impl Print + AllocGlobal),
    world: &mut World<S>,
    row: &str,
    wanted: &str,
) -> Result<()>
    requires stand { BothStand S.view world.old }
    ensures stand { OnOk result (BothStand S.view world.new) }
{
    let mut text = Text::new(rt.alloc());
    world.tell(&mut Words::new(rt.alloc(), row), &mut text)?;
    let told = text.line()?;
    if told.as_str() != wanted {
        println!(rt; "{row}: {told}, and not {wanted}")?;
    }
    Ok(())
}

/// Judges the rows of lines in their order. Answers all that both stores tell behind each line.
pub fn judge_all<S: Store + Drop>(
    rt: &(impl Print + AllocGlobal),
    world: &mut World<S>,
    lines: &str,
    is_disk: bool,
) -> Result<Vec<String>>
    requires stand { BothStand S.view world.old }
    ensures stand { OnOk result (BothStand S.view world.new) }
{
    let mut all = Vec::new(rt.alloc());
    for line in lines.lines() {
        if let Some((row, wanted)) = row_of(line, is_disk) {
            judge(rt, world, row, wanted)?;
        }
        all.push(all_told(rt.alloc(), world)?)?;
    }
    Ok(all)
}

/// How many of the lines are rows.
pub fn rows_in(lines: &str) -> u64 {
    let rows = lines.lines().filter(|line| row_of(line, true).is_some());
    rows.count() as u64
}
