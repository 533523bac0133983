//! A line of text that is written part by part. What finds no memory is noted, and asked for at the end.

use anyhow::{Result, bail};
use base_types::Name;
use std::alloc::Global;
use std::fmt::Debug;

/// A line.
#[derive(Drop)]
pub struct Text {
    line: String,
    failed: bool,
}

impl Text {
    /// An empty line.
    pub fn new(alloc: Global) -> Text {
        Text {
            line: String::new(alloc),
            failed: false,
        }
    }

    /// Writes words.
    pub fn word(&mut self, word: &str) {
        let written = self.line.push_str(word);
        self.failed |= written.is_err();
    }

    /// Writes words, and a number behind them.
    pub fn number(&mut self, word: &str, number: u64) {
        self.word(word);
        let line = &mut self.line;
        let written = write!(line, "{number}");
        self.failed |= written.is_err();
    }

    /// Writes words, and a flag behind them.
    pub fn flag(&mut self, word: &str, flag: bool) {
        self.word(word);
        self.word(if flag { "true" } else { "false" });
    }

    /// Writes words, and the name of a variant behind them.
    pub fn variant<T: Debug>(&mut self, word: &str, value: &T) {
        self.word(word);
        let line = &mut self.line;
        let written = write!(line, "{value:?}");
        self.failed |= written.is_err();
    }

    /// Writes words, and bytes behind them.
    pub fn bytes(&mut self, word: &str, bytes: &[u8]) {
        self.word(word);
        for byte in bytes {
            let written = self.line.push(char::from(*byte));
            self.failed |= written.is_err();
        }
    }

    /// Writes words, and a name behind them.
    pub fn name(&mut self, word: &str, name: &Name) {
        self.bytes(word, name.as_bytes());
    }

    /// The line, if all of it was written.
    pub fn line(self) -> Result<String> {
        if self.failed {
            bail!("no memory");
        }
        Ok(self.line)
    }
}
