// What rows do to an aggregate that is mounted, and what they ask of it.
use crate::words::{first, number, small, three};

// What a transaction does to a page or to blocks.
#[derive(Clone, Copy)]
pub enum Change<'a> {
    // An anode is made: a directory, or a file.
    Create(bool),
    Write(u32, &'a str),
    // The bytes end with those that are written.
    End(u32, &'a str),
    Cut(u32),
    // A copy of the anode in another page.
    Copy(u32),
    Remove,
    List(u8, u8),
    // So many blocks of one byte.
    Fill(u32, u8),
    // One more pointer names a block, which is taken first where it is new, or one less.
    Take,
    Share(u32),
    Give(u32),
    // A page by hand: a file of so many bytes, whose indirect block is the first block.
    Hand(u32),
    // An entry of a directory, with an anode and a unique number, and an end of one.
    Add(&'a str, u32, u32),
    Drop(&'a str),
    // An access list.
    Save(u8, &'a str),
}

// What the calls of a log do, apart from what happens within a transaction.
#[derive(Clone, Copy)]
pub enum Act<'a> {
    // A change in a page, and whether it is forced.
    Change(u32, Change<'a>, bool),
    // Transactions that fill pages 1, 2 and 3 with a byte each: one that ends, one that is undone, and many, of so many
    // pages.
    Fills([u8; 3]),
    Undone([u8; 3]),
    Batch(u32, u8),
    Force,
    Checkpoint,
    // A block by hand: of one byte, and with one pointer.
    Block(u32, u8),
    Map(u32, u32),
    Look(Look<'a>),
}

// What is asked.
#[derive(Clone, Copy)]
pub enum Look<'a> {
    // What pages 1, 2 and 3 are filled with, and block 0; and page 1 as a crash may leave it.
    Pages,
    Settled,
    Server,
    Generation,
    // Entries of the log that are free, and the answer to a transaction of so many pages.
    Free,
    Begin(u32),
    Byte(u32, u32),
    Length(u32),
    Listed(u32, u8),
    // What all counts are together, or how many blocks have one.
    Used,
    Counted(u16),
    Find(u32, &'a str),
    Names(u32),
    Load(u32, u8),
}

fn anode_change<'a>(kind: &str, word: &str) -> Option<Change<'a>> {
    Some(match kind {
        "create" => Change::Create(word == "dir"),
        "copy" => Change::Copy(number(word)),
        "remove" => Change::Remove,
        "hand" => Change::Hand(number(word)),
        _ => return None,
    })
}

fn bytes_change<'a>(kind: &str, word: &str, next: &'a str) -> Option<Change<'a>> {
    let place = number(word);
    Some(match kind {
        "write" => Change::Write(place, next),
        "end" => Change::End(place, next),
        "cut" => Change::Cut(place),
        "list" => Change::List(small(word), small(next)),
        "fill" => Change::Fill(place, small(next)),
        _ => return None,
    })
}

fn other_change<'a>(kind: &str, page: u32, word: &'a str, rest: &'a str) -> Option<Change<'a>> {
    Some(match kind {
        "take" => Change::Take,
        "share" => Change::Share(page),
        "give" => Change::Give(page),
        "add" => added(word, rest),
        "drop" => Change::Drop(word),
        "save" => Change::Save(small(word), first(rest).0),
        _ => return None,
    })
}

fn added<'a>(name: &'a str, rest: &str) -> Change<'a> {
    let (anode, unique) = first(rest);
    Change::Add(name, number(anode), number(unique))
}

fn change_of<'a>(kind: &str, page: u32, words: &'a str) -> Option<Change<'a>> {
    let (word, rest) = first(words);
    if let Some(change) = anode_change(kind, word) {
        return Some(change);
    }
    if let Some(change) = bytes_change(kind, word, first(rest).0) {
        return Some(change);
    }
    other_change(kind, page, word, rest)
}

fn number_look<'a>(kind: &str, page: u32, words: &str) -> Option<Look<'a>> {
    Some(match kind {
        "server" => Look::Server,
        "generation" => Look::Generation,
        "free" => Look::Free,
        "begin" => Look::Begin(page),
        "byte" => Look::Byte(page, number(words)),
        "length" => Look::Length(page),
        "listed" => Look::Listed(page, small(words)),
        _ => return None,
    })
}

fn look_of<'a>(kind: &str, page: u32, words: &'a str) -> Option<Look<'a>> {
    Some(match kind {
        "pages" => Look::Pages,
        "settled" => Look::Settled,
        "used" => Look::Used,
        "counted" => Look::Counted(page.min(9) as u16),
        "find" => Look::Find(page, words),
        "names" => Look::Names(page),
        "load" => Look::Load(page, small(words)),
        _ => return number_look(kind, page, words),
    })
}

fn log_act<'a>(kind: &str, page: u32, words: &str, rest: &str) -> Option<Act<'a>> {
    Some(match kind {
        "fills" => Act::Fills(three(rest)),
        "undone" => Act::Undone(three(rest)),
        "batch" => Act::Batch(page, if words.is_empty() { 3 } else { small(words) }),
        "force" => Act::Force,
        "checkpoint" => Act::Checkpoint,
        "block" => Act::Block(page, small(words)),
        "map" => Act::Map(page, number(words)),
        _ => return None,
    })
}

fn change_act<'a>(kind: &str, rest: &'a str, is_forced: bool) -> Option<Act<'a>> {
    let (page, words) = first(rest);
    let page = number(page);
    match change_of(kind, page, words) {
        Some(change) => Some(Act::Change(page, change, is_forced)),
        None => None,
    }
}

fn other_act<'a>(kind: &str, rest: &'a str) -> Option<Act<'a>> {
    let (page, words) = first(rest);
    let page = number(page);
    match look_of(kind, page, words) {
        Some(look) => Some(Act::Look(look)),
        None => log_act(kind, page, words, rest),
    }
}

// The act of a row; `None` where it is another one. `unforced` before a change leaves it to a later force.
pub fn act_of<'a>(row: &'a str) -> Option<Act<'a>> {
    let (kind, rest) = first(row);
    if kind == "unforced" {
        let (kind, rest) = first(rest);
        return change_act(kind, rest, false);
    }
    match change_act(kind, rest, true) {
        Some(act) => Some(act),
        None => other_act(kind, rest),
    }
}
