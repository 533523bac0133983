//! What the words of a row say.

ghost use Rattle.std.specs.Prelude.{◌≤◌};

use anyhow::{Result, bail};
use base_types::{FILE_BYTES_MAX, Fid, FilesetId, HostId, Items, OpenKind, ServerId, Span};
use std::alloc::Global;
use token_types::{Kind, Need, Token, TokenId};

// Needs, tokens or numbers of one row, at most.
const LIST_MAX: usize = 8;

/// The words of a row that are left. A word that doesn't say what it is to say is noted, as is what finds no memory,
/// and asked for at the end.
#[derive(Clone, Copy)]
pub struct Words<'a> {
    alloc: Global,
    left: &'a str,
    failed: bool,
}

impl<'a> Words<'a> {
    pub fn new(alloc: Global, row: &'a str) -> Words<'a> {
        Words {
            alloc,
            left: row,
            failed: false,
        }
    }

    /// Where what is read is put.
    pub fn alloc(&self) -> Global {
        self.alloc
    }

    pub fn is_empty(&self) -> bool {
        self.left.is_empty()
    }

    /// Notes that there is no such row.
    pub fn refuse(&mut self) {
        self.failed = true;
    }

    /// Whether each word said what it was to say.
    pub fn end(&self) -> Result<()> {
        if self.failed {
            bail!("no such row");
        }
        Ok(())
    }

    pub fn next(&mut self) -> &'a str {
        let (word, rest) = self.left.split_once(' ').unwrap_or((self.left, ""));
        self.left = rest;
        word
    }

    // A number of at most so much.
    fn number_in(&mut self, word: &str, most: u64) -> u64
        ensures { result ≤ most }
    {
        match word.parse::<u64>() {
            Ok(number) if number <= most => number,
            _ => {
                self.failed = true;
                0
            }
        }
    }

    pub fn number(&mut self) -> u64 {
        let word = self.next();
        self.number_in(word, u64::MAX)
    }

    /// `65537`: a fileset.
    pub fn fileset(&mut self) -> FilesetId {
        let word = self.next();
        FilesetId(self.number_in(word, 4_294_967_295) as u32)
    }

    /// `c2`: host 2.
    pub fn host(&mut self) -> HostId {
        let word = self.next();
        HostId(self.number_in(word.strip_prefix("c").unwrap_or(""), 255) as u8)
    }

    /// `f2`: anode 2 of a fileset; `g2`: of another one.
    pub fn file(&mut self) -> Fid {
        let word = self.next();
        let (fileset, anode) = match word.strip_prefix("f") {
            Some(anode) => (65_537, anode),
            None => (65_538, word.strip_prefix("g").unwrap_or("")),
        };
        Fid {
            fileset: FilesetId(fileset),
            anode: self.number_in(anode, 4_294_967_295) as u32,
            unique: 1,
        }
    }

    /// `1.2.3`: a number of server 1, epoch 2, sequence number 3.
    pub fn id(&mut self) -> TokenId {
        let word = self.next();
        let (server, rest) = word.split_once('.').unwrap_or(("", ""));
        let (epoch, seq) = rest.split_once('.').unwrap_or(("", ""));
        let server = self.number_in(server, 255) as u8;
        let epoch = self.number_in(epoch, u64::MAX);
        let seq = self.number_in(seq, u64::MAX);
        TokenId {
            server: ServerId(server),
            epoch,
            seq,
        }
    }

    /// `3-5`: the positions 3 and 4.
    pub fn span(&mut self) -> Span {
        let word = self.next();
        self.span_in(word)
    }

    fn span_in(&mut self, word: &str) -> Span {
        let (from, to) = word.split_once('-').unwrap_or(("", ""));
        let to = self.number_in(to, u64::from(FILE_BYTES_MAX)) as u32;
        let from = self.number_in(from, u64::from(to)) as u32;
        Span { from, to }
    }

    /// A kind of token, with its span behind a colon where it has one.
    pub fn kind(&mut self) -> Kind {
        let word = self.next();
        let (name, positions) = word.split_once(':').unwrap_or((word, "0-0"));
        let span = self.span_in(positions);
        match name {
            "read" => bytes(false, span),
            "update" => bytes(true, span),
            "rlock" => lock(false, span),
            "wlock" => lock(true, span),
            "status" => Kind::Status { update: false },
            "status-update" => Kind::Status { update: true },
            _ => Kind::Opening(self.opening(name)),
        }
    }

    fn opening(&mut self, name: &str) -> OpenKind {
        match name {
            "open-read" => OpenKind::Reading,
            "open-write" => OpenKind::Writing,
            "open-run" => OpenKind::Executing,
            "open-shared" => OpenKind::Shared,
            "open-alone" => OpenKind::Exclusive,
            _ => {
                self.failed = true;
                OpenKind::Reading
            }
        }
    }

    // A file and a kind.
    fn need(&mut self) -> Need {
        let fid = self.file();
        let kind = self.kind();
        Need { fid, kind }
    }

    /// A number, a host, a file and a kind.
    pub fn token(&mut self) -> Token {
        let id = self.id();
        let host = self.host();
        let fid = self.file();
        let kind = self.kind();
        Token {
            id,
            host,
            fid,
            kind,
        }
    }

    /// Needs, one behind another.
    pub fn needs(&mut self) -> Items<Need> {
        let mut needs = Items::new(self.alloc);
        for _ in 0..LIST_MAX {
            if self.is_empty() {
                break;
            }
            let pushed = needs.push(self.need());
            self.failed |= pushed.is_err();
        }
        needs
    }

    /// Tokens, one behind another.
    pub fn tokens(&mut self) -> Items<Token> {
        let mut tokens = Items::new(self.alloc);
        for _ in 0..LIST_MAX {
            if self.is_empty() {
                break;
            }
            let pushed = tokens.push(self.token());
            self.failed |= pushed.is_err();
        }
        tokens
    }

    /// How many there are, and so many numbers of tokens.
    pub fn ids(&mut self) -> Items<TokenId> {
        let mut ids = Items::new(self.alloc);
        for _ in 0..self.number() {
            let pushed = ids.push(self.id());
            self.failed |= pushed.is_err();
        }
        ids
    }

    /// Hosts, one behind another.
    pub fn hosts(&mut self) -> Items<HostId> {
        let mut hosts = Items::new(self.alloc);
        for _ in 0..LIST_MAX {
            if self.is_empty() {
                break;
            }
            let pushed = hosts.push(self.host());
            self.failed |= pushed.is_err();
        }
        hosts
    }
}

fn bytes(update: bool, span: Span) -> Kind {
    Kind::Bytes { update, span }
}

fn lock(writing: bool, span: Span) -> Kind {
    Kind::Lock { writing, span }
}
