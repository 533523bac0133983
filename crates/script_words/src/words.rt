ghost use Rattle.std.specs.Prelude.{◌≡◌, ◌<◌, ◌≤◌, [], true, false, Some, None, length, IfOk, IfSome, OnOk};
ghost use Rattle.script_words.specs.Outcome.{Gives, Onward};
ghost use Rattle.script_words.specs.Lines.{without_end, content, says_nothing};
ghost use Rattle.script_words.specs.Spelling.{WordsAreReadBack};
ghost use Rattle.script_words.specs.Words.{hex_digit, said, words_of, words_of_line};
ghost use Rattle.script_words.specs.Words.Mode.{Between, Quoted, Escape, Closed};
ghost use Rattle.script_words.specs.Fields.{asks, asking, words_asking};
ghost use Rattle.script_words.specs.Reading.{
  behind,
  front_of,
  is_text,
  space_len,
  plain_len,
  quoted_len,
  escape_at,
  begins_plain,
  begins_run,
};

use crate::fault::{BadWhy, Fault};
use crate::fields::is_word;
use crate::lines::{content, says_nothing, without_end};
use base_types::{Items, LINE_BYTES_MAX, NoMemory};
use std::alloc::Global;
use std::mem;

// Words of a line, for which there is room at once.
const WORDS_EXPECTED: usize = 8;

/// Words that are read, one after the other.
#[derive(Drop)]
pub(crate) struct Reader {
    /// The words that have ended.
    pub words: Items<Items<u8>>,
    /// What the next one means so far.
    pub word: Items<u8>,
}

fn hex_digit(byte: u8) -> Option<u8>
    ensures { result ≡ hex_digit byte }
{
    match byte {
        b'0'..=b'9' => Some(byte - b'0'),
        b'A'..=b'F' => Some(byte - b'A' + 10),
        b'a'..=b'f' => Some(byte - b'a' + 10),
        _ => None,
    }
}

// How many bytes at the front are spaces.
fn space_len(text: &[u8]) -> usize
    ensures value { result ≡ space_len text.now }
    ensures within { result ≤ length text.now }
{
    for (i, byte) in text.iter().enumerate() {
        if *byte != b' ' {
            return i;
        }
    }
    text.len()
}

// How many bytes at the front stand for themselves outside quotes.
fn plain_len(text: &[u8]) -> usize
    ensures value { result ≡ plain_len text.now }
    ensures within { result ≤ length text.now }
{
    for (i, byte) in text.iter().enumerate() {
        if *byte < 33 || 126 < *byte {
            return i;
        }
    }
    text.len()
}

// Whether a byte stands for itself in quotes.
fn is_text(byte: u8) -> bool
    ensures { result ≡ is_text byte }
{
    32 <= byte && byte <= 126 && byte != b'"' && byte != b'\\'
}

// How many bytes at the front stand for themselves in quotes.
fn quoted_len(text: &[u8]) -> usize
    ensures value { result ≡ quoted_len text.now }
    ensures within { result ≤ length text.now }
{
    for (i, byte) in text.iter().enumerate() {
        if !is_text(*byte) {
            return i;
        }
    }
    text.len()
}

// What follows a backslash means, and how many bytes it has.
fn escape_at(text: &[u8]) -> Option<(u8, usize)>
    ensures value { result ≡ escape_at text.now }
    ensures within { IfSome result (λ (meant, used). used ≤ length text.now) }
{
    match text {
        [b'"', ..] => Some((b'"', 1)),
        [b'\\', ..] => Some((b'\\', 1)),
        [b'x', high, low, ..] => match (hex_digit(*high), hex_digit(*low)) {
            (Some(high), Some(low)) => Some(((high % 16) * 16 + low, 3)),
            _ => None,
        },
        _ => None,
    }
}

impl Reader {
    // Reads a word without quotes, up to the byte behind it.
    #[tactic(auto, using(crate::proofs::Reading::plain_reads, crate::proofs::Reading::plain_fails))]
    fn plain<'a>(&mut self, text: &'a [u8]) -> Result<&'a [u8], Fault>
        requires new { self.old.word ≡ [] }
        requires begins { begins_plain text.now ≡ true }
        ensures reads { Onward (λ rest. said self.new Closed rest.now) result (said self.old Between text.now) }
        ensures less { IfOk result (λ rest. length rest.now < length text.now) }
    {
        let len = plain_len(text);
        if len == 0 {
            return Err(Fault::Bad(BadWhy::Text));
        }
        let (front, rest) = text.split_at(len);
        self.word.extend(front)?;
        Ok(rest)
    }

    // Reads the bytes at the front that stand for themselves in quotes, of which there has to be one.
    #[tactic(auto, using(crate::proofs::Reading::run_reads, crate::proofs::Reading::run_fails))]
    fn run<'a>(&mut self, text: &'a [u8]) -> Result<&'a [u8], Fault>
        requires begins { begins_run text.now ≡ true }
        ensures reads { Onward (λ rest. said self.new Quoted rest.now) result (said self.old Quoted text.now) }
        ensures less { IfOk result (λ rest. length rest.now < length text.now) }
    {
        let len = quoted_len(text);
        if len == 0 {
            return Err(Fault::Bad(BadWhy::Text));
        }
        let (front, rest) = text.split_at(len);
        self.word.extend(front)?;
        Ok(rest)
    }

    // Reads what follows a backslash.
    #[tactic(auto, using(crate::proofs::Reading::escape_reads, crate::proofs::Reading::escape_fails))]
    fn escape<'a>(&mut self, text: &'a [u8]) -> Result<&'a [u8], Fault>
        ensures reads { Onward (λ rest. said self.new Quoted rest.now) result (said self.old Escape text.now) }
        ensures less { IfOk result (λ rest. length rest.now ≤ length text.now) }
    {
        let Some((meant, used)) = escape_at(text) else {
            return Err(Fault::Bad(BadWhy::Text));
        };
        self.word.push(meant)?;
        Ok(text.split_at(used).1)
    }

    // Reads a word in quotes, from behind its first quote on and past its last one.
    fn quoted<'a>(&mut self, text: &'a [u8]) -> Result<&'a [u8], Fault>
        ensures reads { Onward (λ rest. said self.new Closed rest.now) result (said self.old Quoted text.now) }
        ensures less { IfOk result (λ rest. length rest.now ≤ length text.now) }
    {
        let mut rest = text;
        while let Some((byte, after)) = rest.split_first() {
            match *byte {
                b'"' => return Ok(after),
                b'\\' => rest = self.escape(after)?,
                _ => rest = self.run(rest)?,
            }
        }
        Err(Fault::Bad(BadWhy::Text))
    }

    // Ends the word, behind which a space or nothing must stand.
    fn end<'a>(&mut self, text: &'a [u8]) -> Result<&'a [u8], Fault>
        ensures reads { Onward (λ rest. said self.new Between rest.now) result (said self.old Closed text.now) }
        ensures new { OnOk result (self.new.word ≡ []) }
        ensures less { IfOk result (λ rest. length rest.now ≤ length text.now) }
    {
        let rest = match text {
            [] => text,
            [b' ', rest @ ..] => rest,
            _ => return Err(Fault::Bad(BadWhy::Text)),
        };
        let alloc = self.words.alloc();
        let word = mem::replace(&mut self.word, Items::new(alloc));
        self.words.push(word)?;
        Ok(rest)
    }

    // Reads spaces, or a word and the space behind it.
    #[tactic(auto, using(crate::proofs::Reading::spaces_read))]
    fn next<'a>(&mut self, text: &'a [u8]) -> Result<&'a [u8], Fault>
        requires new { self.old.word ≡ [] }
        requires some { 0 < length text.now }
        ensures reads { Onward (λ rest. said self.new Between rest.now) result (said self.old Between text.now) }
        ensures new { OnOk result (self.new.word ≡ []) }
        ensures less { IfOk result (λ rest. length rest.now < length text.now) }
    {
        match text {
            [b' ', ..] => Ok(text.split_at(space_len(text)).1),
            [b'"', rest @ ..] => {
                let rest = self.quoted(rest)?;
                self.end(rest)
            }
            _ => {
                let rest = self.plain(text)?;
                self.end(rest)
            }
        }
    }
}

// No words yet, with room for those of most lines.
fn with_room(alloc: Global) -> Result<Items<Items<u8>>, NoMemory>
    ensures { IfOk result (λ words. words ≡ []) }
{
    Ok(Items::from_vec(Vec::with_capacity(alloc, WORDS_EXPECTED)?))
}

// The words of a line's text.
#[tactic(auto, unfolding(crate::specs::Words::words_of))]
fn words_of(alloc: Global, text: &[u8]) -> Result<Items<Items<u8>>, Fault>
    ensures { Gives result (words_of text.now) }
{
    let mut reader = Reader {
        words: with_room(alloc)?,
        word: Items::new(alloc),
    };
    let mut rest = text;
    while !rest.is_empty() {
        rest = reader.next(rest)?;
    }
    Ok(reader.words)
}

/// The words of a line, which may end in a line feed, as the bytes that they mean; none where the line says nothing:
/// where it has only spaces, or a `#` after them.
///
/// Spaces separate words. A plain word has bytes 33 to 126 and doesn't begin with a quote; a word in quotes has bytes
/// 32 to 126, with `\"`, `\\` and `\xNN` for a quote, a backslash and any byte. Any other byte or quote is `Text`. A
/// line of more than `LINE_BYTES_MAX` bytes is `Long`, whatever else it has.
#[tactic(auto, unfolding(crate::specs::Words::words_of_line))]
pub fn words_of_line(alloc: Global, line: &[u8]) -> Result<Items<Items<u8>>, Fault>
    ensures { Gives result (words_of_line line.now) }
{
    if without_end(line, b'\n').len() > LINE_BYTES_MAX {
        return Err(Fault::Bad(BadWhy::Long));
    }
    let text = content(line);
    if says_nothing(text) {
        Ok(Items::new(alloc))
    } else {
        words_of(alloc, text)
    }
}

// What follows a word that ends where this begins: all behind a space, or nothing.
fn behind(text: &[u8]) -> Option<&[u8]>
    ensures { IfSome result (λ rest. behind text.now ≡ Some rest.now) }
{
    match text {
        [] => Some(text),
        [b' ', rest @ ..] => Some(rest),
        _ => None,
    }
}

// The word in front of a text, where it stands without quotes, and what follows the space behind it.
fn front_of(text: &[u8]) -> Option<(&[u8], &[u8])>
    ensures { IfSome result (λ (word, rest). front_of text.now ≡ Some (word.now, rest.now)) }
{
    let begun = text.split_at(space_len(text)).1;
    if !begins_plain(begun) {
        return None;
    }
    let (word, after) = begun.split_at(plain_len(begun));
    match behind(after) {
        Some(rest) => Some((word, rest)),
        None => None,
    }
}

// Whether a text begins with neither a space nor a quote.
fn begins_plain(text: &[u8]) -> bool
    ensures { result ≡ begins_plain text.now }
{
    match text {
        [] | [b' ' | b'"', ..] => false,
        _ => true,
    }
}

// Whether the second word of a text may be this one: no other one stands there without quotes.
#[tactic(auto, using(crate::proofs::Asking::other_second), unfolding(crate::specs::Words::words_of))]
fn may_ask(text: &[u8], verb: &[u8]) -> bool
    ensures { result ≡ false → asking verb.now (words_of text.now) ≡ None }
{
    let Some((_, rest)) = front_of(text) else {
        return true;
    };
    match front_of(rest) {
        Some((word, _)) => is_word(word, verb),
        None => true,
    }
}

// Whether the second of these words is this one.
fn asks(words: &Items<Items<u8>>, verb: &[u8]) -> bool
    ensures { result ≡ asks verb.now words.now }
{
    match words.as_slice() {
        [_, word, ..] => is_word(word.as_slice(), verb),
        _ => false,
    }
}

/// The words of a line whose second word is this one; none of any other line, of which two words are looked at, nor
/// of one that `words_of_line` refuses.
#[tactic(auto, unfolding(crate::specs::Fields::words_asking, crate::specs::Words::words_of_line))]
pub fn words_asking(
    alloc: Global,
    line: &[u8],
    verb: &[u8],
) -> Result<Option<Items<Items<u8>>>, NoMemory>
    ensures { IfOk result (λ words. words ≡ words_asking line.now verb.now) }
{
    if !may_ask(content(line), verb) {
        return Ok(None);
    }
    match words_of_line(alloc, line) {
        Ok(words) if asks(&words, verb) => Ok(Some(words)),
        Ok(_) | Err(Fault::Bad(_)) => Ok(None),
        Err(Fault::Memory) => Err(NoMemory),
    }
}

/// Law: any words at all, of any bytes, are read back from the text that spells each of them in quotes, with a space
/// after it.
pub fn words_are_read_back()
    ensures { WordsAreReadBack }
{}
