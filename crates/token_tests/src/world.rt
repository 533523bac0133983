//! What the steps of the rows are made on.

use crate::kinds::{tell_conflicts, tell_covers, tell_spans};
use crate::managing::tell_manager;
use crate::reading::Words;
use crate::reclaiming::tell_recovery;
use crate::tabling::tell_table;
use anyhow::Result;
use base_types::{NoMemory, ServerId};
use std::alloc::Global;
use token_manager::TokenManager;
use token_ranges::SpanSet;
use token_reclaim::Recovery;
use token_table::TokenTable;
use tree_test_words::Text;

/// A set of positions, a table, a manager and a grace period, and how many rows there were.
#[derive(Drop)]
pub struct World {
    alloc: Global,
    set: SpanSet,
    table: TokenTable,
    manager: TokenManager,
    recovery: Recovery,
    rows: u64,
}

impl World {
    /// All empty, of server 1 in epoch 1, and a grace period of which no host is awaited.
    pub fn new(alloc: Global) -> Result<World> {
        let recovery = Recovery::new(alloc, 2, &[])?;
        Ok(World {
            alloc,
            set: SpanSet::new(alloc),
            table: TokenTable::new(alloc, ServerId(1), 1),
            manager: TokenManager::new(alloc, ServerId(1), 1),
            recovery,
            rows: 0,
        })
    }

    /// What is told to a row.
    pub fn told(&mut self, row: &str) -> Result<String> {
        self.rows = self.rows.saturating_add(1);
        let mut words = Words::new(self.alloc, row);
        let mut text = Text::new(self.alloc);
        self.tell(&mut words, &mut text)?;
        words.end()?;
        text.line()
    }

    fn tell(&mut self, words: &mut Words, text: &mut Text) -> Result<(), NoMemory> {
        match words.next() {
            "conflicts" => {
                tell_conflicts(words, text);
                Ok(())
            }
            "covers" => {
                tell_covers(words, text);
                Ok(())
            }
            "add" => tell_spans(&mut self.set, true, words, text),
            "cut" => tell_spans(&mut self.set, false, words, text),
            "table" => tell_table(&mut self.table, words, text),
            "reclaim" => tell_recovery(&mut self.recovery, words, text),
            word => tell_manager(&mut self.manager, self.rows, word, words, text),
        }
    }
}
