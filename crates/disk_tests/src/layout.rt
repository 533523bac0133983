// The bytes of an aggregate's parts by example.
use crate::words::{first, large, number, push_hex, push_hex_number, small};
use anyhow::{Result, bail};
use disk_layout::{
    ENTRY, Entry, Half, PAGE, Superblock, entry_bytes, is_marked, new_server_page, pages_of,
    put_bytes, put_u16, put_u32, put_u64, read_entry, read_header, read_superblock,
    superblock_bytes, u16_at, u32_at, u64_at, used_half,
};
use tree_test_words::Text;

// Writes numbers of all sizes, written and read.
fn push_numbers(text: &mut Text) {
    let mut bytes = [0; 18];
    put_u16(&mut bytes, 16, 0x0d0e);
    put_u32(&mut bytes, 1, 0x0102_0304);
    put_bytes(&mut bytes, 13, b"abc");
    put_u64(&mut bytes, 5, 0x0506_0708_090a_0b0c);
    push_hex(text, &bytes);
    text.word(" ");
    push_hex_number(text, u64::from(u16_at(&bytes, 16)));
    text.word(" ");
    push_hex_number(text, u64::from(u32_at(&bytes, 1)));
    text.word(" ");
    push_hex_number(text, u64_at(&bytes, 5));
}

fn push_bool(text: &mut Text, yes: bool) {
    text.word(if yes { " true" } else { " false" });
}

// Writes the first bytes of a superblock, and what is read of its page where one more is added to a byte, if any.
fn tell_superblock(words: &str, text: &mut Text) -> Result<()> {
    let (server, rest) = first(words);
    let (blocks, at) = first(rest);
    let blocks = number(blocks);
    if blocks == 0 || 66_560 < blocks {
        bail!("no superblock");
    }
    let page = superblock_bytes(Superblock {
        server: small(server),
        blocks,
    });
    push_superblock(text, page, at.parse::<usize>().unwrap_or(PAGE));
    Ok(())
}

fn push_superblock(text: &mut Text, written: [u8; PAGE], at: usize) {
    let mut page = written;
    if let Some(byte) = page.get_mut(at) {
        *byte = byte.wrapping_add(1);
    }
    match read_superblock(&page) {
        Some(found) => {
            push_hex(text, &written[..22]);
            text.number(" ", u64::from(found.server));
            text.number(" ", u64::from(found.blocks));
        }
        None => text.word("none"),
    }
    push_bool(text, is_marked(&page));
}

// Writes the places of a page that aren't zero, each with its byte.
fn push_page(text: &mut Text, page: &[u8; PAGE]) {
    for (at, byte) in page.iter().enumerate() {
        if *byte != 0 {
            text.number("", at as u64);
            text.number(":", u64::from(*byte));
            text.word(" ");
        }
    }
}

// Bytes with one in place of another, if the words say so.
fn changed(written: [u8; ENTRY], words: &str) -> [u8; ENTRY] {
    let mut bytes = written;
    let (at, byte) = first(words);
    if let Some(place) = bytes.get_mut(at.parse::<usize>().unwrap_or(ENTRY)) {
        *place = small(byte);
    }
    bytes
}

// Writes the bytes of an entry from its first 24 on and its last one.
fn push_ends(text: &mut Text, bytes: &[u8; ENTRY]) {
    push_hex(text, &bytes[..24]);
    text.number(" ", u64::from(bytes[ENTRY - 1]));
}

// Writes the ends of an entry's bytes, and whether what is read of them has the same bytes, where one may be changed.
fn push_entry(text: &mut Text, entry: &Entry, words: &str) {
    let half = Half {
        start: 512,
        generation: 0x203,
        pages: 0x423,
    };
    let written = entry_bytes(entry, 0x203);
    let bytes = changed(written, words);
    match read_entry(&half, &bytes) {
        Some(found) => {
            push_ends(text, &written);
            push_bool(text, entry_bytes(&found, 0x203) == bytes);
        }
        None => text.word("none"),
    }
}

fn header(gate: u8, generation: u64) -> [u8; 16] {
    let mut bytes = [gate; 16];
    put_u64(&mut bytes, 8, generation);
    bytes
}

// Writes where the half starts that is used by two headers, each a gate and a generation, and its generation.
fn push_half(text: &mut Text, words: &str) {
    let (gate, rest) = first(words);
    let (generation, rest) = first(rest);
    let zeroth = header(small(gate), large(generation));
    let (gate, generation) = first(rest);
    let one = header(small(gate), large(generation));
    match used_half(1_059, read_header(&zeroth), read_header(&one)) {
        Some(half) => {
            text.number("", half.start);
            text.number(" ", half.generation);
        }
        None => text.word("none"),
    }
}

// The transaction of entries.
const TRANSACTION: u64 = 0x7ff;

fn push_update(text: &mut Text, words: &str) {
    let update = Entry::Update {
        transaction: TRANSACTION,
        page: 0x422,
        old: [8; PAGE],
        new: [9; PAGE],
    };
    push_entry(text, &update, words);
}

fn push_end(text: &mut Text, words: &str) {
    let end = Entry::End {
        transaction: TRANSACTION,
    };
    push_entry(text, &end, words);
}

// Writes what a row about the layout is answered.
pub fn tell_layout(kind: &str, words: &str, text: &mut Text) -> Result<()> {
    match kind {
        "numbers" => push_numbers(text),
        "pages_of" => text.number("", u64::from(pages_of(number(words).min(66_560)))),
        "server_page" => push_page(text, &new_server_page()),
        "update" => push_update(text, words),
        "end_entry" => push_end(text, words),
        "half" => push_half(text, words),
        _ => return tell_superblock(words, text),
    }
    Ok(())
}
