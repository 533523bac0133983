//! How numbers, words and bytes are written.
ghost use Rattle.std.specs.Prelude.{◌≡◌, ◌<◌, ◌++◌, [], ◌∷◌, decimal, IsFalse, OnOk};
ghost use Rattle.std.specs.List.{list_all};
ghost use Rattle.script_words.specs.Words.{is_in};
ghost use Rattle.script_words.specs.Spelling.{hex_of, spelled_byte, spelled_bytes};
ghost use Rattle.script_output.specs.Texts.{quoted, begins_with_quote, is_plain, word_text};

use base_types::{Items, NoMemory};
use itoa::Buffer;

/// Adds a number in decimal digits.
pub(crate) fn push_number(out: &mut Items<u8>, n: u64) -> Result<(), NoMemory>
    ensures { OnOk result (out.new ≡ out.old ++ decimal n) }
{
    let mut buffer = Buffer::new();
    out.extend(buffer.format(n).as_bytes())
}

/// Adds a path, a name or a list: as it is where a script can have it as a word without quotes, else between quotes.
#[tactic(auto, unfolding(crate::specs::Texts::word_text))]
pub(crate) fn push_word(out: &mut Items<u8>, bytes: &[u8]) -> Result<(), NoMemory>
    ensures { OnOk result (out.new ≡ out.old ++ word_text bytes.now) }
{
    if is_plain(bytes) {
        out.extend(bytes)
    } else {
        push_quoted(out, bytes)
    }
}

/// Adds bytes between quotes.
#[tactic(auto, using(crate::proofs::Spelled::quoted_after), unfolding(crate::specs::Texts::quoted))]
pub(crate) fn push_quoted(out: &mut Items<u8>, bytes: &[u8]) -> Result<(), NoMemory>
    ensures { OnOk result (out.new ≡ out.old ++ quoted bytes.now) }
{
    out.push(b'"')?;
    push_spelled(out, bytes)?;
    out.push(b'"')
}

/// Adds bytes as they stand between quotes: those that need no escape in pieces.
#[tactic(auto, using(crate::proofs::Spelled::byte_more))]
pub(crate) fn push_spelled(out: &mut Items<u8>, bytes: &[u8]) -> Result<(), NoMemory>
    ensures { OnOk result (out.new ≡ out.old ++ spelled_bytes bytes.now []) }
{
    let mut from = 0;
    for (at, byte) in bytes.iter().enumerate() {
        if is_escaped(*byte) {
            push_piece(out, &bytes[from..at])?;
            push_byte(out, *byte)?;
            from = at + 1;
        }
    }
    out.extend(&bytes[from..])
}

// Adds a piece, which is empty where one escape follows the other.
fn push_piece(out: &mut Items<u8>, piece: &[u8]) -> Result<(), NoMemory>
    ensures { OnOk result (out.new ≡ out.old ++ piece.now) }
{
    if piece.is_empty() {
        Ok(())
    } else {
        out.extend(piece)
    }
}

// Whether a byte stands between quotes by an escape. Small letters, which most bytes of a text are, are told first.
fn is_escaped(byte: u8) -> bool
    ensures { IsFalse result → spelled_byte byte [] ≡ byte ∷ [] }
{
    !matches!(byte, b'a'..=b'z') && (byte < 32 || byte > 126 || byte == b'"' || byte == b'\\')
}

// Adds a byte as it stands between quotes.
fn push_byte(out: &mut Items<u8>, byte: u8) -> Result<(), NoMemory>
    ensures { OnOk result (out.new ≡ out.old ++ spelled_byte byte []) }
{
    match byte {
        b'"' | b'\\' => out.extend(&[b'\\', byte]),
        32..=126 => out.push(byte),
        _ => out.extend(&[b'\\', b'x', hex_of(byte / 16), hex_of(byte % 16)]),
    }
}

// A hexadecimal digit.
fn hex_of(n: u8) -> u8
    requires { n < 16 }
    ensures { result ≡ hex_of n }
{
    if n < 10 { n + b'0' } else { n + 87 }
}

#[tactic(auto, unfolding(crate::specs::Texts::is_plain))]
fn is_plain(bytes: &[u8]) -> bool
    ensures { result ≡ is_plain bytes.now }
{
    are_visible(bytes) && !begins_with_quote(bytes)
}

// Whether all bytes are printed ones, and no spaces.
fn are_visible(bytes: &[u8]) -> bool
    ensures { result ≡ list_all (is_in 33 126) bytes.now }
{
    bytes.iter().all(|byte| 33 <= *byte && *byte <= 126)
}

fn begins_with_quote(bytes: &[u8]) -> bool
    ensures { result ≡ begins_with_quote bytes.now }
{
    match bytes {
        [] => false,
        [first, ..] => *first == b'"',
    }
}
