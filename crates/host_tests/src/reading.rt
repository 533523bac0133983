//! What the words of a row say.

use anyhow::{Context, Result, bail};
use base_types::{FILE_BYTES_MAX, Fid, FilesetId, HostId, Name, OpenKind, ServerId, Span};
use std::alloc::Global;
use token_types::{Kind, Token, TokenId};
use tree_test_words::Text;

/// The words of a row that are left.
#[derive(Drop)]
pub struct Words<'a> {
    left: &'a str,
}

impl<'a> Words<'a> {
    pub fn new(row: &'a str) -> Words<'a> {
        Words { left: row }
    }

    pub fn is_empty(&self) -> bool {
        self.left.is_empty()
    }

    pub fn next(&mut self) -> &'a str {
        let (word, rest) = self.left.split_once(' ').unwrap_or((self.left, ""));
        self.left = rest;
        word
    }

    pub fn number(&mut self) -> Result<u64> {
        self.next().parse::<u64>().context("a number")
    }

    /// A number of 32 bits.
    pub fn small(&mut self) -> Result<u32> {
        self.next().parse::<u32>().context("a number")
    }

    /// `7`, or `none`.
    pub fn length(&mut self) -> Result<Option<u32>> {
        match self.next() {
            "none" => Ok(None),
            word => Ok(Some(word.parse::<u32>().context("a length")?)),
        }
    }

    /// `f2`: anode 2 of fileset 65537; `g2`: of 65538.
    pub fn file(&mut self) -> Result<Fid> {
        file(self.next())
    }

    /// `f` or `g`: fileset 65537 or 65538.
    pub fn fileset(&mut self) -> FilesetId {
        FilesetId(if self.next() == "f" { 65_537 } else { 65_538 })
    }

    /// `3`: token 3 of server 1 in epoch 1.
    pub fn id(&mut self) -> Result<TokenId> {
        Ok(TokenId {
            server: ServerId(1),
            epoch: 1,
            seq: self.number()?,
        })
    }

    /// `3-5`: the positions 3 and 4.
    pub fn span(&mut self) -> Result<Span> {
        let (from, to) = self.next().split_once('-').context("a span")?;
        let from = from.parse::<u32>().context("where it begins")?;
        let to = to.parse::<u32>().context("where it ends")?;
        if from > to || to > FILE_BYTES_MAX {
            bail!("no span");
        }
        Ok(Span { from, to })
    }

    pub fn name(&mut self, alloc: Global) -> Result<Name> {
        Ok(Name::new(alloc, self.next().as_bytes())?)
    }

    /// `lock` or `open`: whether it is `lock`.
    pub fn is_lock(&mut self) -> bool {
        self.next() == "lock"
    }

    /// `lock 3` or `open 3`: token 3, of a lock or an open.
    pub fn token(&mut self) -> Result<Token> {
        let kind = if self.is_lock() {
            Kind::Lock {
                writing: true,
                span: Span::WHOLE,
            }
        } else {
            Kind::Opening(OpenKind::Reading)
        };
        Ok(Token {
            id: self.id()?,
            host: HostId(1),
            fid: file("f2")?,
            kind,
        })
    }
}

fn file(word: &str) -> Result<Fid> {
    let (fileset, anode) = match word.strip_prefix("f") {
        Some(anode) => (65_537, anode),
        None => (65_538, word.strip_prefix("g").context("a file")?),
    };
    Ok(Fid {
        fileset: FilesetId(fileset),
        anode: anode.parse::<u32>().context("an anode")?,
        unique: 1,
    })
}

/// yes or no.
pub fn push_yes(text: &mut Text, answer: bool) {
    text.word(if answer { "yes" } else { "no" });
}

/// A number, or none.
pub fn push_number(text: &mut Text, number: Option<u64>) {
    match number {
        Some(number) => text.number("", number),
        None => text.word("none"),
    }
}
