// Words of rows, and bytes as words.
use std::alloc::{AllocError, Global};
use tree_test_words::Text;

// The first word, and what is behind it.
pub fn first(words: &str) -> (&str, &str) {
    let (word, rest) = words.split_once(' ').unwrap_or((words, ""));
    (word, rest.trim())
}

pub fn number(word: &str) -> u32 {
    word.parse::<u32>().unwrap_or(0)
}

pub fn large(word: &str) -> u64 {
    word.parse::<u64>().unwrap_or(0)
}

pub fn small(word: &str) -> u8 {
    word.parse::<u8>().unwrap_or(0)
}

// Three numbers.
pub fn three(words: &str) -> [u8; 3] {
    let (a, rest) = first(words);
    let (b, c) = first(rest);
    [small(a), small(b), small(c)]
}

// Numbers joined by commas; `-` where there is none.
pub fn numbers(alloc: Global, word: &str) -> Result<Vec<u64>, AllocError> {
    let mut numbers = Vec::new(alloc);
    for number in word.split(',') {
        if number != "-" {
            numbers.push(large(number))?;
        }
    }
    Ok(numbers)
}

// The bytes of a text; none of `-`.
pub fn text(word: &str) -> &[u8] {
    if word == "-" { &[] } else { word.as_bytes() }
}

fn digit(byte: u8) -> u8 {
    (byte as char).to_digit(16).unwrap_or(0) as u8
}

// Bytes that are spelled by two hexadecimal digits each.
pub fn bytes_of(alloc: Global, word: &str) -> Result<Vec<u8>, AllocError> {
    let mut bytes = Vec::new(alloc);
    for pair in word.as_bytes().chunks(2) {
        if let [high, low] = pair {
            bytes.push(digit(*high).wrapping_mul(16).wrapping_add(digit(*low)))?;
        }
    }
    Ok(bytes)
}

// The letter of a hexadecimal digit.
fn letter(digit: u8) -> u8 {
    if digit < 10 {
        digit.wrapping_add(b'0')
    } else {
        digit.wrapping_sub(10).wrapping_add(b'a')
    }
}

// Writes bytes by two hexadecimal digits each.
pub fn push_hex(text: &mut Text, bytes: &[u8]) {
    for byte in bytes {
        text.plain("", &[letter(*byte / 16), letter(*byte % 16)]);
    }
}

// Writes a number by its hexadecimal digits, without zeros before the first one.
pub fn push_hex_number(text: &mut Text, number: u64) {
    let mut begun = false;
    for byte in number.to_be_bytes() {
        for digit in [byte / 16, byte % 16] {
            begun |= digit != 0;
            if begun {
                text.plain("", &[letter(digit)]);
            }
        }
    }
}

// Writes bytes as the characters that they are, zeros as `_`.
pub fn push_plain(text: &mut Text, bytes: &[u8]) {
    for byte in bytes {
        text.plain("", &[if *byte == 0 { b'_' } else { *byte }]);
    }
}
