//! What the words of a row say.

use anyhow::{Context, Result};
use base_types::{Fid, FilesetId, HostId, Items, ServerId};
use message_types::Outstanding;
use std::alloc::Global;
use token_types::{Kind, Need, Token, TokenId};
use tree_test_words::Text;

/// How many things a row lists at most.
const LIST_MAX: u64 = 100;

/// The words of a row that are left.
#[derive(Drop)]
pub struct Words<'a> {
    pub alloc: Global,
    left: &'a str,
}

impl<'a> Words<'a> {
    pub fn new(alloc: Global, row: &'a str) -> Words<'a> {
        Words { alloc, left: row }
    }

    pub fn is_empty(&self) -> bool {
        self.left.is_empty()
    }

    pub fn next(&mut self) -> &'a str {
        let (word, rest) = self.left.split_once(' ').unwrap_or((self.left, ""));
        self.left = rest;
        word
    }

    pub fn number(&mut self) -> Result<u64> {
        self.next().parse::<u64>().context("a number")
    }

    /// `c1`: host 1.
    pub fn host(&mut self) -> Result<HostId> {
        let number = self.next().strip_prefix("c").context("a host")?;
        Ok(HostId(number.parse::<u8>().context("a host")?))
    }

    /// `f`, `g` or `x`: fileset 65537 or 65538 of server 1, or 131073 of server 2.
    pub fn fileset(&mut self) -> FilesetId {
        FilesetId(match self.next() {
            "f" => 65_537,
            "g" => 65_538,
            _ => 131_073,
        })
    }

    /// `3`: token 3 of server 1 in epoch 1.
    pub fn id(&mut self) -> Result<TokenId> {
        Ok(TokenId {
            server: ServerId(1),
            epoch: 1,
            seq: self.number()?,
        })
    }

    /// `f 2`: anode 2 of fileset 65537.
    pub fn file(&mut self) -> Result<Fid> {
        let fileset = self.fileset();
        let anode = self.next().parse::<u32>().context("an anode")?;
        Ok(Fid {
            fileset,
            anode,
            unique: 1,
        })
    }

    /// A file, whose status is needed for update.
    pub fn need(&mut self) -> Result<Need> {
        Ok(Need {
            fid: self.file()?,
            kind: Kind::Status { update: true },
        })
    }

    /// Tokens by their numbers, up to the end: all of a host, to read the status of anode 2 of fileset 65537.
    pub fn tokens(&mut self, host: HostId) -> Result<Items<Token>> {
        let mut tokens = Items::new(self.alloc);
        for _ in 0..LIST_MAX {
            if self.is_empty() {
                break;
            }
            tokens.push(token(host, self.id()?))?;
        }
        Ok(tokens)
    }

    /// The numbers of tokens, up to the end.
    pub fn ids(&mut self) -> Result<Items<TokenId>> {
        let mut ids = Items::new(self.alloc);
        for _ in 0..LIST_MAX {
            if self.is_empty() {
                break;
            }
            ids.push(self.id()?)?;
        }
        Ok(ids)
    }

    /// `f 3`: give-back 3 on fileset 65537 is outstanding.
    pub fn outstanding(&mut self) -> Result<Outstanding> {
        Ok(Outstanding {
            fileset: self.fileset(),
            moves: 0,
            give: self.number()?,
            change: 0,
        })
    }
}

fn token(host: HostId, id: TokenId) -> Token {
    Token {
        id,
        host,
        fid: Fid {
            fileset: FilesetId(65_537),
            anode: 2,
            unique: 1,
        },
        kind: Kind::Status { update: false },
    }
}

/// yes or no.
pub fn push_yes(text: &mut Text, answer: bool) {
    text.word(if answer { "yes" } else { "no" });
}

/// A number, or none.
pub fn push_number(text: &mut Text, number: Option<u64>) {
    match number {
        Some(number) => text.number("", number),
        None => text.word("none"),
    }
}
