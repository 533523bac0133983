//! Bytes as the table spells them.

use anyhow::{Context, Result};
use std::alloc::Global;

// What of an escape has been read.
#[derive(Clone, Copy)]
enum Escape {
    Nothing,
    Backslash,
    Hex,
    Digit(u8),
}

/// The bytes that a text stands for. `\n`, `\r`, `\t`, `\p` (a bar), `\xNN` and a backslash before itself are escapes,
/// and `{COUNT:TEXT}` is a repeated text; a brace that is meant is `\x7b` or `\x7d`.
pub fn bytes_of(alloc: Global, text: &str) -> Result<Vec<u8>> {
    let mut bytes = Vec::new(alloc);
    let mut is_repeated = false;
    for piece in text.split(['{', '}']) {
        if is_repeated {
            push_repeated(&mut bytes, piece)?;
        } else {
            push_plain(&mut bytes, piece)?;
        }
        is_repeated = !is_repeated;
    }
    Ok(bytes)
}

fn push_repeated(bytes: &mut Vec<u8>, piece: &str) -> Result<()> {
    let (count, text) = piece.split_once(':').context("a count")?;
    for _ in 0..count.parse::<u32>().context("a count")? {
        push_plain(bytes, text)?;
    }
    Ok(())
}

fn push_plain(bytes: &mut Vec<u8>, text: &str) -> Result<()> {
    let mut escape = Escape::Nothing;
    for byte in text.bytes() {
        let (meant, next) = after(escape, byte);
        if let Some(meant) = meant {
            bytes.push(meant)?;
        }
        escape = next;
    }
    Ok(())
}

// The byte that is whole with this one, if one is, and what has been read of the next.
fn after(escape: Escape, byte: u8) -> (Option<u8>, Escape) {
    match (escape, byte) {
        (Escape::Nothing, b'\\') => (None, Escape::Backslash),
        (Escape::Nothing, _) => (Some(byte), Escape::Nothing),
        (Escape::Backslash, b'x') => (None, Escape::Hex),
        (Escape::Backslash, _) => (Some(named(byte)), Escape::Nothing),
        (Escape::Hex, _) => (None, Escape::Digit(digit(byte))),
        (Escape::Digit(high), _) => (Some(high << 4 | digit(byte)), Escape::Nothing),
    }
}

fn named(letter: u8) -> u8 {
    match letter {
        b'n' => b'\n',
        b'r' => b'\r',
        b't' => b'\t',
        b'p' => b'|',
        _ => letter,
    }
}

fn digit(letter: u8) -> u8 {
    match letter {
        b'0'..=b'9' => letter - b'0',
        b'a'..=b'f' => letter - b'a' + 10,
        _ => 0,
    }
}
