//! Text that is put together.

ghost use Rattle.std.specs.Prelude.{◌≡◌, ◌++◌, true, IfOk, string_bytes, encode_utf8};

use std::alloc::{AllocError, Global};

/// Text that is put together. Where memory runs out, that is noted, and told at the end.
#[derive(Drop)]
pub struct Text {
    /// What was written.
    pub text: String,
    /// Whether nothing lacks in it.
    pub is_whole: bool,
}

impl Text {
    /// No text.
    pub fn new(alloc: Global) -> Text {
        Text {
            text: String::new(alloc),
            is_whole: true,
        }
    }

    /// The text, if all of it was written; else memory ran out.
    pub fn into_text(self) -> Result<String, AllocError>
        ensures whole { IfOk result (λ text. (text ≡ self.text) × (self.is_whole ≡ true)) }
    {
        let Text { text, is_whole } = self;
        if is_whole { Ok(text) } else { Err(AllocError) }
    }

    /// Adds text as it is.
    pub fn word(&mut self, word: &str)
        ensures added { self.new.is_whole ≡ true →
            string_bytes self.new.text ≡ string_bytes self.old.text ++ word.now }
    {
        match self.text.push_str(word) {
            Ok(()) => {}
            Err(_) => self.is_whole = false,
        }
    }

    /// Adds a letter as it is.
    pub fn letter(&mut self, letter: char)
        ensures added { self.new.is_whole ≡ true →
            string_bytes self.new.text ≡ string_bytes self.old.text ++ encode_utf8 letter }
    {
        match self.text.push(letter) {
            Ok(()) => {}
            Err(_) => self.is_whole = false,
        }
    }

    /// Adds a number, in decimal digits.
    pub fn number(&mut self, number: u64) {
        let text = &mut self.text;
        match write!(text, "{number}") {
            Ok(()) => {}
            Err(_) => self.is_whole = false,
        }
    }

    /// Adds a letter by its number: `\xNN`.
    pub(crate) fn digits(&mut self, letter: char) {
        let number = u32::from(letter);
        let text = &mut self.text;
        match write!(text, "\\x{number:02x}") {
            Ok(()) => {}
            Err(_) => self.is_whole = false,
        }
    }
}
