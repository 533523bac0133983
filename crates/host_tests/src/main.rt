//! A host's parts by example. Standard input is a table: each row is a step or a look, and behind ` = ` the answer that
//! is wanted from the steps so far. Every row that gets another one is printed, and at the end the number of rows.
#![tactic(auto)]

mod caching;
mod dirtying;
mod drafting;
mod giving;
mod labelling;
mod leaving;
mod looking;
mod reading;
mod tabling;
mod walking;

use anyhow::{Result, bail};
use host_cache::Cache;
use host_dirty::Dirty;
use host_gives::Gives;
use host_labels::Uses;
use leaving::Leaver;
use reading::Words;
use std::alloc::Global;
use tabling::Tables;
use tree_test_words::Text;
use walking::Walker;

// What the steps are made on.
#[derive(Drop)]
struct Parts {
    alloc: Global,
    uses: Uses,
    dirty: Dirty,
    gives: Gives,
    cache: Cache,
    tables: Tables,
    walker: Walker,
    leaver: Leaver,
}

impl Parts {
    fn new(alloc: Global) -> Result<Parts> {
        let cache = Cache::new(alloc)?;
        let tables = Tables::new(alloc)?;
        let walker = Walker::new(alloc)?;
        let leaver = Leaver::new(alloc)?;
        Ok(Parts {
            alloc,
            uses: Uses::new(alloc),
            dirty: Dirty::new(alloc),
            gives: Gives::new(alloc),
            cache,
            tables,
            walker,
            leaver,
        })
    }

    // What is told to a row.
    fn told(&mut self, row: &str) -> Result<String> {
        let mut text = Text::new(self.alloc);
        self.tell(&mut Words::new(row), &mut text)?;
        text.line()
    }

    fn tell(&mut self, words: &mut Words, text: &mut Text) -> Result<()> {
        match words.next() {
            "label" => labelling::tell(self.alloc, &mut self.uses, words, text),
            "dirty" => dirtying::tell(&mut self.dirty, words, text),
            "cache" => caching::tell(self.alloc, &mut self.cache, words, text),
            "give" => giving::tell(self.alloc, &mut self.gives, words, text),
            "table" => self.tables.tell(self.alloc, words, text),
            word => self.tell_other(word, words, text),
        }
    }

    fn tell_other(&mut self, word: &str, words: &mut Words, text: &mut Text) -> Result<()> {
        match word {
            "walk" => self.walker.tell(self.alloc, words, text),
            "mark" => self.walker.mark(self.alloc, words, text),
            "own" => self.leaver.tell(self.alloc, words, text),
            "step" => self.leaver.step(self.alloc, words, text),
            word => bail!("no step: {word}"),
        }
    }
}

// Judges one line: a comment or a row. Answers whether it was a row, and prints one whose answer isn't the wanted one.
fn judge(rt: &(impl Print + AllocGlobal), parts: &mut Parts, line: &str) -> Result<bool> {
    let line = line.trim();
    if line.is_empty() || line.starts_with("#") {
        return Ok(false);
    }
    let (row, wanted) = line.split_once(" =").unwrap_or((line, ""));
    let told = parts.told(row.trim())?;
    if told.as_str().trim() != wanted.trim() {
        println!(rt; "{row}: {told}, and not {wanted}")?;
    }
    Ok(true)
}

// Judges each line of standard input, and answers how many rows there were.
fn judge_all(rt: &(impl Input + Print + AllocGlobal), parts: &mut Parts) -> Result<u64> {
    let mut rows = 0u64;
    for line in rt.lines(rt.alloc()) {
        if judge(rt, parts, line?.as_str())? {
            rows = rows.saturating_add(1);
        }
    }
    host_dirty::dirty_files_law(&parts.dirty);
    parts.uses.laws();
    parts.gives.laws();
    parts.cache.laws();
    Ok(rows)
}

fn main(rt: HostRuntime) -> Result<()> {
    host_labels::uses_law();
    host_gives::gives_law();
    host_cache::cache_law();
    host_tables::tables_laws();
    host_tables::updates_law();
    host_walk::walk_law();
    let mut parts = Parts::new(rt.alloc())?;
    let judged = judge_all(&rt, &mut parts);
    drop(parts);
    let rows = judged?;
    println!(rt; "{rows} rows")?;
    Ok(())
}
