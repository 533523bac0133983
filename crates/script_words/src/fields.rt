ghost use Rattle.std.specs.Prelude.{◌≡◌, ◌≤◌, [], length, IfOk, IfSome};
ghost use Rattle.script_words.specs.declared.fault.BadWhy.TheVariants.{Word};
ghost use Rattle.script_words.specs.Outcome.{Gives, GivesBy, found, unless};
ghost use Rattle.std.specs.List.{list_all};
ghost use Rattle.script_words.specs.Fields.{
  is_label,
  is_label_byte,
  starts_with_zero,
  value_from,
  number_up_to,
  node_of,
  is_word,
  parts_of,
  all_named,
  names_of,
  word_at,
  end_at,
  named,
  name_at,
  label_at,
  number_at,
  text_at,
};
ghost use Rattle.script_words.specs.Reading.{part_len};

use crate::fault::{BadWhy, Fault};
use base_types::{
    HOSTS_MAX, HostId, Items, Name, NameRefused, NoMemory, Node, SERVERS_MAX, ServerId,
    WRITE_BYTES_MAX,
};
use std::alloc::Global;

/// Bytes of a flag or of a label, at most; it has at least one.
pub(crate) const LABEL_BYTES_MAX: usize = 16;

/// The words of a line.
pub type Words = Items<Items<u8>>;

/// The word at a place; `Word` where there is none.
pub fn word_at(words: &Words, i: usize) -> Result<&Items<u8>, Fault>
    ensures { GivesBy (λ word. word.now) result (word_at words.now i) }
{
    match words.at(i) {
        Some(word) => Ok(word),
        None => Err(Fault::Bad(BadWhy::Word)),
    }
}

/// Refuses a line that has a word at this place, by `Word`.
pub fn end_at(words: &Words, i: usize) -> Result<(), Fault>
    ensures { Gives result (end_at words.now i) }
{
    if words.len() <= i {
        Ok(())
    } else {
        Err(Fault::Bad(BadWhy::Word))
    }
}

/// The name with these bytes; `BadName` where they are none.
pub fn named(alloc: Global, bytes: &[u8]) -> Result<Name, Fault>
    ensures { Gives result (named bytes.now) }
{
    match Name::new(alloc, bytes) {
        Ok(name) => Ok(name),
        Err(NameRefused::BadName) => Err(Fault::Bad(BadWhy::BadName)),
        Err(NameRefused::Memory) => Err(Fault::Memory),
    }
}

/// The name at a place; `Word` where there is no word, `BadName` where it is no name.
#[tactic(auto, unfolding(crate::specs::Fields::name_at))]
pub fn name_at(words: &Words, i: usize) -> Result<Name, Fault>
    ensures { Gives result (name_at words.now i) }
{
    named(words.alloc(), word_at(words, i)?.as_slice())
}

/// The flag or label at a place: 1 to `LABEL_BYTES_MAX` letters and digits. `BadName` where the word is none.
#[tactic(auto, unfolding(crate::specs::Fields::label_at))]
pub fn label_at(words: &Words, i: usize) -> Result<Name, Fault>
    ensures { Gives result (label_at words.now i) }
{
    let word = word_at(words, i)?;
    if is_label(word.as_slice()) {
        named(words.alloc(), word.as_slice())
    } else {
        Err(Fault::Bad(BadWhy::BadName))
    }
}

fn is_label(word: &[u8]) -> bool
    ensures { result ≡ is_label word.now }
{
    word.len() <= LABEL_BYTES_MAX && has_label_bytes(word)
}

fn has_label_bytes(word: &[u8]) -> bool
    ensures { result ≡ list_all is_label_byte word.now }
{
    word.iter().all(|byte| is_label_byte(*byte))
}

fn is_label_byte(byte: u8) -> bool
    ensures { result ≡ is_label_byte byte }
{
    matches!(byte, b'0'..=b'9' | b'A'..=b'Z' | b'a'..=b'z')
}

// The number that digits spell without zeros at the front, where it is at most `most`.
#[tactic(auto, unfolding(crate::specs::Fields::number_up_to))]
fn number_up_to(most: u64, word: &[u8]) -> Option<u64>
    ensures value { result ≡ number_up_to most word.now }
    ensures within { IfSome result (λ number. number ≤ most) }
{
    if word.is_empty() || starts_with_zero(word) {
        return None;
    }
    value_up_to(most, word)
}

fn starts_with_zero(word: &[u8]) -> bool
    ensures { result ≡ starts_with_zero word.now }
{
    matches!(word, [b'0', _, ..])
}

fn value_up_to(most: u64, word: &[u8]) -> Option<u64>
    ensures value { result ≡ value_from most 0 word.now }
    ensures within { IfSome result (λ number. number ≤ most) }
{
    let mut value = 0u64;
    for byte in word {
        if !byte.is_ascii_digit() {
            return None;
        }
        let more = value as u128 * 10 + (*byte - b'0') as u128;
        if more > most as u128 {
            return None;
        }
        value = more as u64;
    }
    Some(value)
}

/// The number at a place, between `least` and `most`, both counted. `Number` where the word isn't decimal digits
/// without zeros at the front, or is out of these limits.
#[tactic(auto, unfolding(crate::specs::Fields::number_at))]
pub fn number_at(words: &Words, i: usize, least: u64, most: u64) -> Result<u64, Fault>
    ensures { Gives result (number_at least most words.now i) }
{
    match number_up_to(most, word_at(words, i)?.as_slice()) {
        Some(number) if least <= number => Ok(number),
        _ => Err(Fault::Bad(BadWhy::Number)),
    }
}

/// As `number_at`, for limits of 32 bits.
#[tactic(auto, unfolding(crate::specs::Fields::number_at))]
pub fn small_at(words: &Words, i: usize, least: u32, most: u32) -> Result<u32, Fault>
    ensures value { Gives result (number_at least most words.now i) }
    ensures within { IfOk result (λ number. number ≤ most) }
{
    match number_up_to(most as u64, word_at(words, i)?.as_slice()) {
        Some(number) if least as u64 <= number => Ok(number as u32),
        _ => Err(Fault::Bad(BadWhy::Number)),
    }
}

/// The bytes of a write, at a place; `Text` where there are more than `WRITE_BYTES_MAX`.
#[tactic(auto, unfolding(crate::specs::Fields::text_at))]
pub fn text_at(words: &Words, i: usize) -> Result<Items<u8>, Fault>
    ensures { Gives result (text_at words.now i) }
{
    let word = word_at(words, i)?;
    if word.len() <= WRITE_BYTES_MAX {
        Ok(word.to_items()?)
    } else {
        Err(Fault::Bad(BadWhy::Text))
    }
}

/// The node of a word, declared or not: `c1` to `c16`, or `s1` to `s4`.
#[tactic(auto, unfolding(crate::specs::Fields::node_of))]
pub fn node_of(word: &[u8]) -> Option<Node>
    ensures { result ≡ node_of word.now }
{
    match word {
        [b'c', digits @ ..] => match number_up_to(HOSTS_MAX as u64, digits) {
            Some(number) if 0 < number => Some(Node::Host(HostId(number as u8))),
            _ => None,
        },
        [b's', digits @ ..] => match number_up_to(SERVERS_MAX as u64, digits) {
            Some(number) if 0 < number => Some(Node::Server(ServerId(number as u8))),
            _ => None,
        },
        _ => None,
    }
}

/// Whether a word is this one.
#[tactic(auto, unfolding(crate::specs::Fields::is_word))]
pub fn is_word(word: &[u8], text: &[u8]) -> bool
    ensures { result ≡ is_word word.now text.now }
{
    word == text
}

/// The names of a path, each after a `/`; `BadName` where one is no name or the first byte is another.
#[tactic(auto, unfolding(crate::specs::Fields::names_of))]
pub fn names_of(alloc: Global, path: &[u8]) -> Result<Items<Name>, Fault>
    ensures { Gives result (names_of path.now) }
{
    match path {
        [b'/', rest @ ..] => named_parts(alloc, rest, b'/'),
        _ => Err(Fault::Bad(BadWhy::BadName)),
    }
}

// The names that the parts between separators are; `BadName` where one is none.
#[tactic(auto, using(crate::proofs::Parts::first_part, crate::proofs::Parts::last_part))]
fn named_parts(alloc: Global, bytes: &[u8], separator: u8) -> Result<Items<Name>, Fault>
    ensures { Gives result (all_named [] (parts_of separator bytes.now)) }
{
    let mut names = Items::new(alloc);
    let mut rest = bytes;
    let mut len = part_len(rest, separator);
    while len < rest.len() {
        let (part, behind) = rest.split_at(len);
        names.push(named(alloc, part)?)?;
        rest = behind.split_at(1).1;
        len = part_len(rest, separator);
    }
    names.push(named(alloc, rest)?)?;
    Ok(names)
}

// How many bytes stand before a separator, or are all.
fn part_len(bytes: &[u8], separator: u8) -> usize
    ensures value { result ≡ part_len separator bytes.now }
    ensures within { result ≤ length bytes.now }
{
    for (i, byte) in bytes.iter().enumerate() {
        if *byte == separator {
            return i;
        }
    }
    bytes.len()
}

/// The parts of bytes between separators, one more than there are separators.
#[tactic(auto, unfolding(crate::specs::Fields::parts_of))]
pub(crate) fn parts_of(alloc: Global, bytes: &[u8], separator: u8) -> Result<Words, NoMemory>
    ensures { IfOk result (λ parts. parts ≡ parts_of separator bytes.now) }
{
    let mut parts = Items::new(alloc);
    let mut part = Items::new(alloc);
    for byte in bytes {
        if *byte == separator {
            parts.push(part)?;
            part = Items::new(alloc);
        } else {
            part.push(*byte)?;
        }
    }
    parts.push(part)?;
    Ok(parts)
}

/// The names that these words are; `BadName` where one is none.
pub fn all_named(alloc: Global, words: &[Items<u8>]) -> Result<Items<Name>, Fault>
    ensures { Gives result (all_named [] words.now) }
{
    let mut names = Items::new(alloc);
    for word in words {
        names.push(named(alloc, word.as_slice())?)?;
    }
    Ok(names)
}

/// What is known of a word; `Word` where nothing is.
pub fn known<T: Drop>(option: Option<T>) -> Result<T, Fault>
    ensures { Gives result (found Word option) }
{
    match option {
        Some(value) => Ok(value),
        None => Err(Fault::Bad(BadWhy::Word)),
    }
}

/// Refuses what may not be, by this cause.
pub fn unless(refused: bool, why: BadWhy) -> Result<(), Fault>
    ensures { Gives result (unless refused why) }
{
    if refused {
        Err(Fault::Bad(why))
    } else {
        Ok(())
    }
}
