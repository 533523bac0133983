//! Calls, replies and tokens in words: those of scripts.

use crate::members::{case_of, is_true_at, list_at, number_at, text_at};
use crate::text::Text;
use serde_json::Value;

/// Adds a call, as `read /home/f 0 9`.
pub fn put_call(text: &mut Text, call: &Value) {
    let Some((name, holds)) = case_of(call) else {
        return;
    };
    text.word(call_name(name));
    put_text(text, holds, "label");
    put_place(text, holds, "place");
    if holds.get("writing").is_some() {
        text.word(if is_true_at(holds, "writing") {
            " write"
        } else {
            " read"
        });
    }
    put_text(text, holds, "which");
    put_text(text, holds, "kind");
    put_number(text, holds, "from");
    put_place(text, holds, "from");
    put_number(text, holds, "len");
    put_number(text, holds, "length");
    if let Some(bytes) = text_at(holds, "bytes") {
        text.word(" ");
        put_quoted(text, bytes);
    }
    put_text(text, holds, "name");
    put_text(text, holds, "fileset");
    put_text(text, holds, "new");
    put_place(text, holds, "to");
    if let Some(server) = number_at(holds, "to") {
        text.word(" s");
        text.number(server);
    }
}

// The word of scripts for a call.
fn call_name(name: &str) -> &str {
    match name {
        "make_dir" => "mkdir",
        "set_acl" => "setacl",
        "get_acl" => "getacl",
        "open_file" => "open",
        "close_file" => "close",
        "new_fileset" => "fileset",
        "clone_fileset" => "clone",
        "move_fileset" => "move",
        _ => name,
    }
}

// Adds a member that is a text, after a space.
fn put_text(text: &mut Text, holds: &Value, name: &str) {
    if let Some(word) = text_at(holds, name) {
        text.word(" ");
        put_plain(text, word);
    }
}

// Adds a member that is a number, after a space.
fn put_number(text: &mut Text, holds: &Value, name: &str) {
    if let Some(number) = number_at(holds, name) {
        text.word(" ");
        text.number(number);
    }
}

// Adds a member that is a place, as its path, after a space.
fn put_place(text: &mut Text, holds: &Value, name: &str) {
    if let Some(place) = holds.get(name) {
        if place.get("path").is_some() {
            text.word(" ");
            put_path(text, place);
        }
    }
}

/// Adds the path of a place: `/FILESET/NAME/..`.
pub fn put_path(text: &mut Text, place: &Value) {
    text.word("/");
    if let Some(fileset) = text_at(place, "fileset") {
        put_plain(text, fileset);
    }
    if let Some(path) = list_at(place, "path") {
        for name in path.iter() {
            text.word("/");
            if let Some(name) = name.as_str() {
                put_plain(text, name);
            }
        }
    }
}

// Adds bytes between quotes.
fn put_quoted(text: &mut Text, bytes: &str) {
    text.word("\"");
    put_plain(text, bytes);
    text.word("\"");
}

// Adds bytes, each of which is a letter: those that aren't ASCII's printed ones as `\xNN`.
fn put_plain(text: &mut Text, bytes: &str) {
    for letter in bytes.chars() {
        match letter {
            '"' | '\\' => {
                text.letter('\\');
                text.letter(letter);
            }
            ' '..='~' => text.letter(letter),
            _ => text.digits(letter),
        }
    }
}

/// Adds a reply, as `ok "one"`, or why the call is refused.
pub fn put_reply(text: &mut Text, reply: &Value) {
    match case_of(reply) {
        Some(("refused", why)) => put_refusal(text, why),
        Some(("bytes", bytes)) => {
            text.word("ok ");
            put_quoted(text, bytes.as_str().unwrap_or(""));
        }
        Some(("names", names)) => put_names(text, names),
        Some(("facts", facts)) => put_facts(text, facts),
        _ => text.word("ok"),
    }
}

fn put_refusal(text: &mut Text, why: &Value) {
    if let Some(word) = why.as_str() {
        text.word(word);
    }
    if let Some(rights) = number_at(why, "denied") {
        text.word("denied ");
        put_rights(text, rights);
    }
}

fn put_names(text: &mut Text, names: &Value) {
    text.word("ok");
    if let Some(names) = names.as_array() {
        for name in names.iter() {
            text.word(" ");
            put_plain(text, name.as_str().unwrap_or(""));
        }
    }
}

fn put_facts(text: &mut Text, facts: &Value) {
    text.word(if is_true_at(facts, "dir") {
        "ok dir"
    } else {
        "ok file"
    });
    put_number(text, facts, "length");
    put_text(text, facts, "owner");
    text.word(" ");
    put_rights(text, number_at(facts, "rights").unwrap_or(0));
}

// Adds the letters of rights: `r` 1, `w` 2, `x` 4, `c` 8, `i` 16, `d` 32.
fn put_rights(text: &mut Text, rights: u64) {
    put_right(text, rights, "r");
    put_right(text, rights / 2, "w");
    put_right(text, rights / 4, "x");
    put_right(text, rights / 8, "c");
    put_right(text, rights / 16, "i");
    put_right(text, rights / 32, "d");
}

// Adds the letter of a right where the number is odd.
fn put_right(text: &mut Text, rights: u64, letter: &str) {
    if rights % 2 == 1 {
        text.word(letter);
    }
}

/// Adds a kind of tokens, as `bytes update 0..1024`.
pub fn put_kind(text: &mut Text, kind: &Value) {
    let Some((name, holds)) = case_of(kind) else {
        return;
    };
    text.word(name);
    if let Some(word) = holds.as_str() {
        text.word(" ");
        text.word(word);
    }
    if is_true_at(holds, "update") {
        text.word(" update");
    }
    if is_true_at(holds, "writing") {
        text.word(" write");
    }
    if let Some(span) = holds.get("span") {
        put_number(text, span, "from");
        text.word("..");
        text.number(number_at(span, "to").unwrap_or(0));
    }
}

/// Adds a file, as `FILESET.ANODE.UNIQUE`.
pub fn put_file(text: &mut Text, file: &Value) {
    text.number(number_at(file, "fileset").unwrap_or(0));
    text.word(".");
    text.number(number_at(file, "anode").unwrap_or(0));
    text.word(".");
    text.number(number_at(file, "unique").unwrap_or(0));
}
