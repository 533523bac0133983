//! What is kept of one file or directory.
ghost use Rattle.std.specs.Prelude.{◌≡◌, ◌+◌, ◌<◌, ◌≤◌, length, filter, option_copied, is_some, take, drop, IsTrue};
ghost use Rattle.std.specs.Prelude.{OnOk, OnErr, ℕ, None, [], if◌then◌else◌};
ghost use Rattle.std.specs.List.{list_any};
ghost use Rattle.base_types.specs.Spans.{has_byte};
ghost use Rattle.host_cache.specs.Files.{nothing, HasRoom, Grows, Learns, Writes, with_length, file_key, with_token};
ghost use Rattle.host_cache.specs.Files.{with_status, with_entries, without_token};
ghost use Rattle.host_cache.specs.Holding.{helpers_first, helps_cover, kind_has_byte, is_status};

use crate::bytes::{self, Bytes};
use crate::held::{bring_helpers, kind_has_byte};
use base_types::{Fid, Items, NoMemory, Plain, Span};
use std::alloc::Global;
use std::marker::Model;
use token_types::{Kind, Need, Token, TokenId};
use tree_calls::{DirEntry, Piece, Status};

/// A file by its fileset, its anode and the unique number.
pub(crate) type FileKey = (u32, (u32, u32));

/// What is shown of a file or directory.
#[derive(Clone, Copy)]
pub struct Shown<'a> {
    /// Its held tokens, the most recently used first.
    pub tokens: &'a [Token],
    /// Its status; None where no held token of it came with a status.
    pub status: Option<&'a Status>,
    /// Its entries; none where no held token of it has byte 0.
    pub entries: &'a [DirEntry],
}

impl<'a> Shown<'a> {
    /// Of a file of which no token is held.
    pub(crate) fn nothing() -> Shown<'a>
        ensures tokens { result.tokens.now ≡ [] }
        ensures status { result.status ≡ None }
        ensures entries { result.entries.now ≡ [] }
    {
        Shown {
            tokens: &[],
            status: None,
            entries: &[],
        }
    }
}

/// What is kept of a file: the held tokens, and what was told of it under tokens, changed by own writes; a status only
/// as long as a token is held that came with one.
#[derive(Drop)]
pub(crate) struct File {
    tokens: Vec<Token>,
    status: Option<Status>,
    entries: Items<DirEntry>,
    bytes: Bytes,
}

impl Model for File {
    ghost use Rattle.host_cache.specs.Parts.{Parts};

    ghost Value = { Parts };

    ghost view = { λ f. record {
      tokens = f.tokens.items;
      status = f.status;
      entries = f.entries;
      bytes = f.bytes;
    } };
}

impl File {
    /// Nothing is kept of it. It takes no memory.
    pub(crate) fn new(alloc: Global) -> File
        ensures { result ≡ nothing }
    {
        File {
            tokens: Vec::new(alloc),
            status: None,
            entries: Items::new(alloc),
            bytes: Bytes::new(alloc),
        }
    }

    /// Its tokens, the most recently used first.
    pub(crate) fn tokens(&self) -> &[Token]
        ensures { result.now ≡ self.now.tokens }
    {
        self.tokens.as_slice()
    }

    /// What is shown of it.
    pub(crate) fn shown(&self) -> Shown<'_>
        ensures tokens { result.tokens.now ≡ self.now.tokens }
        ensures status { option_copied result.status ≡ self.now.status }
        ensures entries { result.entries.now
            ≡ (if list_any (λ token. kind_has_byte 0 token.kind) self.now.tokens then self.now.entries else []) }
    {
        let tokens = self.tokens.as_slice();
        let status = self.status.as_ref();
        if has_first(tokens) {
            return Shown {
                tokens,
                status,
                entries: self.entries.as_slice(),
            };
        }
        Shown {
            tokens,
            status,
            entries: &[],
        }
    }

    /// Reads the bytes from `at` on.
    pub(crate) fn read(&self, at: usize, out: &mut [u8])
        requires { at + length out.old ≤ length self.now.bytes }
        ensures { out.new ≡ take (length out.old) (drop at self.now.bytes) }
    {
        bytes::read(&self.bytes, at, out);
    }

    /// Makes room for the bytes of a token of this kind. On an error nothing changes.
    pub(crate) fn make_room(&mut self, kind: Kind) -> Result<(), NoMemory>
        ensures grows { Grows self.old self.new }
        ensures ok { OnOk result (HasRoom kind self.new.bytes) }
    {
        let Kind::Bytes { span, .. } = kind else {
            return Ok(());
        };
        let to = span.to as usize;
        if self.bytes.len() < to {
            self.bytes.grow(to)?;
        }
        Ok(())
    }

    /// Puts a token first, and keeps what was told of the file. On an error nothing changes.
    pub(crate) fn learn(
        &mut self,
        token: Token,
        status: Option<&Status>,
        pieces: &[Piece],
        entries: &[DirEntry],
    ) -> Result<(), NoMemory>
        requires room { HasRoom token.kind self.old.bytes }
        requires status_only { IsTrue (is_some (option_copied status)) → IsTrue (is_status token.kind) }
        ensures ok { OnOk result (Learns token (option_copied status.entry) pieces.now entries.now self.old self.new) }
        ensures err { OnErr result (self.new ≡ self.old) }
    {
        match token.kind {
            Kind::Bytes { span, .. } => self.learn_bytes(token, span, pieces, entries),
            Kind::Status { .. } => self.learn_status(token, status),
            _ => self.put_first(token),
        }
    }

    fn put_first(&mut self, token: Token) -> Result<(), NoMemory>
        ensures ok { OnOk result (self.new ≡ with_token token self.old) }
        ensures err { OnErr result (self.new ≡ self.old) }
    {
        self.tokens.insert(0, token)?;
        Ok(())
    }

    fn learn_status(&mut self, token: Token, status: Option<&Status>) -> Result<(), NoMemory>
        ensures ok { OnOk result (self.new ≡ with_token token (with_status (option_copied status.entry) self.old)) }
        ensures err { OnErr result (self.new ≡ self.old) }
    {
        let Some(status) = status else {
            return self.put_first(token);
        };
        let copy = status.copy()?;
        self.put_first(token)?;
        self.status = Some(copy);
        Ok(())
    }

    fn learn_bytes(
        &mut self,
        token: Token,
        span: Span,
        pieces: &[Piece],
        entries: &[DirEntry],
    ) -> Result<(), NoMemory>
        requires room { span.to ≤ length self.old.bytes }
        requires kind { (at : ℕ) → kind_has_byte at token.kind ≡ has_byte span at }
        ensures ok { OnOk result (Learns token None pieces.now entries.now self.old self.new) }
        ensures err { OnErr result (self.new ≡ self.old) }
    {
        self.put_told(token, span, entries)?;
        bytes::lay(&mut self.bytes, span, pieces);
        Ok(())
    }

    // Puts a token for bytes first; the entries are told where it has byte 0. On an error nothing changes.
    fn put_told(&mut self, token: Token, span: Span, entries: &[DirEntry]) -> Result<(), NoMemory>
        ensures ok { OnOk result (self.new ≡
            with_token token (if has_byte span 0 then with_entries entries.now self.old else self.old)) }
        ensures err { OnErr result (self.new ≡ self.old) }
    {
        if span.from == 0 && span.to > 0 {
            return self.learn_first(token, entries);
        }
        self.put_first(token)
    }

    // Puts a token first under which the entries are told. On an error nothing changes.
    fn learn_first(&mut self, token: Token, entries: &[DirEntry]) -> Result<(), NoMemory>
        ensures ok { OnOk result (self.new ≡ with_token token (with_entries entries.now self.old)) }
        ensures err { OnErr result (self.new ≡ self.old) }
    {
        let copies = Items::copied(self.entries.alloc(), entries)?;
        self.put_first(token)?;
        self.entries = copies;
        Ok(())
    }

    /// Writes bytes from `at` on.
    pub(crate) fn write(&mut self, at: usize, bytes: &[u8])
        requires { at + length bytes.now ≤ length self.old.bytes }
        ensures { Writes at bytes.now self.old self.new }
    {
        bytes::put(&mut self.bytes, at, bytes);
    }

    /// Makes this the length in the status, where there is one.
    pub(crate) fn set_length(&mut self, length: u32)
        ensures { self.new ≡ with_length length self.old }
    {
        if let Some(status) = &mut self.status {
            status.length = length;
        }
    }

    /// Brings the tokens that help to cover a need to the front, and counts them.
    pub(crate) fn bring_helpers(&mut self, need: &Need) -> usize
        ensures order { self.new ≡ record self.old { tokens = helpers_first need.now self.old.tokens } }
        ensures count { result ≡ length (filter (helps_cover need.now) self.old.tokens) }
    {
        bring_helpers(self.tokens.as_mut_slice(), need)
    }

    /// So many of its tokens, from the first on.
    pub(crate) fn first(&self, count: usize) -> &[Token]
        requires { count ≤ length self.now.tokens }
        ensures { result.now ≡ take count self.now.tokens }
    {
        &self.tokens.as_slice()[..count]
    }

    /// Forgets the status.
    pub(crate) fn forget_status(&mut self)
        ensures { self.new ≡ record self.old { status = None } }
    {
        self.status = None;
    }

    /// Takes the token with this number out.
    pub(crate) fn drop_id(&mut self, id: TokenId)
        ensures { self.new ≡ without_token id self.old }
    {
        self.tokens.retain(|token| token.id != id);
    }
}

// Whether one of these tokens has byte 0.
fn has_first(tokens: &[Token]) -> bool
    ensures { result ≡ list_any (λ token. kind_has_byte 0 token.kind) tokens.now }
{
    tokens.iter().any(|token| kind_has_byte(token.kind, 0))
}

pub(crate) fn file_key(fid: Fid) -> FileKey
    ensures { result ≡ file_key fid }
{
    (fid.fileset.0, (fid.anode, fid.unique))
}
