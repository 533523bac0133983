ghost use Rattle.std.specs.Prelude.{◌≡◌, ◌↔◌, ◌+◌, ◌<◌, ◌≤◌, ℕ, IsTrue};
ghost use Rattle.std.specs.Prelude.{[], None, false, true, length, slice_get, filter};
ghost use Rattle.std.specs.Prelude.{option_copied, OnOk, OnErr, IfOk, is_some};
ghost use Rattle.std.specs.List.{find};
ghost use Rattle.std.specs.Option.{option_map};
ghost use Rattle.token_types.specs.Covers.{Covers, CoversBetween, CoversKind};
ghost use Rattle.host_cache.specs.Holding.{IsOnce, has_id, is_id, tokens_of, is_idle, last_of};
ghost use Rattle.host_cache.specs.Holding.{is_status, used_each, AreAlike};
ghost use Rattle.host_cache.specs.Files.{FileKey, file_key, same_key, parts_at, HasRoom, Grows, Learns, Puts};
ghost use Rattle.host_cache.specs.Files.{without_token, left, told_under, told_by};
ghost use Rattle.host_cache.specs.Seen.{seen, after_add, after_drop, after_write};
ghost use Rattle.host_cache.specs.Seen.{after_length, after_set_use, after_used, of_key};

use crate::file::{File, FileKey, Shown, file_key};
use crate::held::{Held, are_alike_for, is_status};
use crate::recent::Recent;
use crate::same::is_same_need;
use base_types::{Fid, Items, NoMemory};
use std::alloc::Global;
use std::collections::HashMap;
use std::marker::Model;
use token_types::{Kind, Need, Token, TokenId, covers};
use tree_calls::{DirEntry, Piece, Status};

/// What a host keeps of files and directories. It is seen as its held tokens in the order of use, the most recently
/// used first, of each whether it is in use, and what they show: of each file the status, the entries and the bytes.
/// Room is kept for the bytes of a file up to the last that a token was held for, as long as one is held.
#[derive(Drop)]
pub struct Cache {
    alloc: Global,
    order: Recent,
    files: HashMap<FileKey, File>,
}

impl Model for Cache {
    ghost use Rattle.host_cache.specs.Seen.{Kept, IsKept};

    ghost Value = { Kept };

    ghost view = { λ c. record { held = c.order; files = c.files.entries } };

    ghost invariant = { λ c. IsKept c.order c.files.entries };
}

impl Cache {
    /// No token is held. The only error is that memory ran out.
    pub fn new(alloc: Global) -> Result<Cache, NoMemory>
        ensures { IfOk result (λ cache. cache.held ≡ []) }
    {
        let order = Recent::new(alloc)?;
        Ok(Cache {
            alloc,
            order,
            files: HashMap::new(alloc),
        })
    }

    /// Each token is held once. It does nothing.
    pub fn laws(&self)
        ensures { IsOnce self.now.held }
    {
        self.order.laws();
    }

    /// Whether the token with this number is held. It takes no memory.
    pub fn holds(&self, id: TokenId) -> bool
        ensures { result ≡ has_id self.now.held id }
    {
        self.order.holds(id)
    }

    /// Puts a token first, with what its grant tells: a status under a status token, entries under a token that has
    /// byte 0, and the bytes that the pieces tell and the token has. Of two pieces that tell a byte the first counts,
    /// and what none tells is zero. No token of that number is held. The only error is that memory ran out; then
    /// nothing changes.
    pub fn add(
        &mut self,
        token: Token,
        status: Option<&Status>,
        pieces: &[Piece],
        entries: &[DirEntry],
    ) -> Result<(), NoMemory>
        requires { has_id self.old.held token.id ≡ false }
        ensures after { OnOk result (seen self.new ≡
            after_add (seen self.old) token (option_copied status.entry) pieces.now entries.now) }
        ensures err { OnErr result (seen self.new ≡ seen self.old) }
    {
        let told = told_under(token.kind, status);
        make_room(&mut self.files, self.alloc, &token)?;
        self.order.push(Held {
            token,
            in_use: false,
            tells: told.is_some(),
        })?;
        match learn(&mut self.files, token, told, pieces, entries) {
            Ok(()) => Ok(()),
            Err(NoMemory) => {
                self.order.take(token.id);
                Err(NoMemory)
            }
        }
    }

    /// Drops the token with this number, and answers it; None where it isn't held, and then nothing changes. What no
    /// other token shows is shown no more. It takes no memory.
    pub fn drop_id(&mut self, id: TokenId) -> Option<Token>
        ensures dropped { result ≡ option_map (λ held. held.token) (find (is_id id) self.old.held) }
        ensures after { seen self.new ≡ after_drop (seen self.old) id }
    {
        self.order.laws();
        let held = self.order.take(id)?;
        drop_from_file(&mut self.files, held.token.fid, id);
        self.order.laws();
        forget_status(&mut self.files, &self.order, held.token.fid);
        Some(held.token)
    }

    /// The token with this number, and whether it is in use; None where it isn't held. It takes no memory.
    pub fn find(&self, id: TokenId) -> Option<Held>
        ensures { result ≡ find (is_id id) self.now.held }
    {
        self.order.find(id)
    }

    /// The held tokens of a file, the most recently used first. It takes no memory.
    pub fn tokens_at(&self, fid: Fid) -> &[Token]
        ensures { result.now ≡ tokens_of (of_key (file_key fid) self.now.held) }
    {
        match self.files.get(&file_key(fid)) {
            Some(file) => file.tokens(),
            None => &[],
        }
    }

    /// Whether the held tokens cover a need. It takes no memory.
    pub fn covers(&self, need: &Need) -> bool
        ensures { IsTrue result ↔ Covers (tokens_of self.now.held) need.now }
    {
        covers(self.tokens_at(need.fid), need)
    }

    /// What is shown of a file, looked up once. It takes no memory.
    pub fn at(&self, fid: Fid) -> Shown<'_>
        ensures tokens { result.tokens.now ≡ tokens_of (of_key (file_key fid) self.now.held) }
        ensures covered { (kind : Kind) →
            CoversKind result.tokens.now fid kind ↔ CoversKind (tokens_of self.now.held) fid kind }
        ensures status { option_copied result.status ≡ (seen self.now).status fid }
        ensures entries { result.entries.now ≡ (seen self.now).entries fid }
    {
        let Some(file) = self.files.get(&file_key(fid)) else {
            return Shown::nothing();
        };
        file.shown()
    }

    /// The status of a file; None where no held token of it came with a status. It takes no memory.
    pub fn status(&self, fid: Fid) -> Option<&Status>
        ensures { option_copied result ≡ (seen self.now).status fid }
    {
        self.at(fid).status
    }

    /// The entries of a directory; none where no held token of it has byte 0. It takes no memory.
    pub fn entries(&self, fid: Fid) -> &[DirEntry]
        ensures { result.now ≡ (seen self.now).entries fid }
    {
        self.at(fid).entries
    }

    /// Fills `out` with the bytes of a file from a position on. The held tokens cover them for reading. It takes no
    /// memory.
    pub fn bytes_into(&self, fid: Fid, from: u32, out: &mut [u8])
        requires { CoversBetween (tokens_of self.now.held) fid false from (from + length out.old) }
        ensures count { length out.new ≡ length out.old }
        ensures bytes { (at : ℕ) → at < length out.old →
            slice_get out.new at ≡ (seen self.now).bytes fid (from + at) }
    {
        if out.is_empty() {
            return;
        }
        let Some(file) = self.files.get(&file_key(fid)) else {
            return;
        };
        file.read(from as usize, out);
    }

    /// Writes bytes of a file from a position on. The held tokens cover them for update. It takes no memory.
    pub fn write(&mut self, fid: Fid, from: u32, bytes: &[u8])
        requires { CoversBetween (tokens_of self.old.held) fid true from (from + length bytes.now) }
        ensures { seen self.new ≡ after_write (seen self.old) fid from bytes.now }
    {
        if bytes.is_empty() {
            return;
        }
        let Some(file) = self.files.get_mut(&file_key(fid)) else {
            return;
        };
        file.write(from as usize, bytes);
    }

    /// Makes this the length of a file, in bytes, in the status that is shown of it; nothing changes where none is. It
    /// takes no memory.
    pub fn set_length(&mut self, fid: Fid, length: u32)
        ensures { seen self.new ≡ after_length (seen self.old) fid length }
    {
        let Some(file) = self.files.get_mut(&file_key(fid)) else {
            return;
        };
        file.set_length(length);
    }

    /// Notes whether the token with this number is in use; nothing changes where it isn't held. It takes no memory.
    pub fn set_use(&mut self, id: TokenId, in_use: bool)
        ensures { seen self.new ≡ after_set_use (seen self.old) id in_use }
    {
        self.order.set_use(id, in_use);
    }

    /// Brings the tokens to the front that cover a need or help to cover it. The order among these stays, and that
    /// among the others. It takes no memory.
    pub fn used(&mut self, need: &Need)
        ensures { seen self.new ≡ after_used (seen self.old) need.now }
    {
        self.order.laws();
        let Some(file) = self.files.get_mut(&file_key(need.fid)) else {
            return;
        };
        let count = file.bring_helpers(need);
        self.order.promote_all(file.first(count));
    }

    /// Uses needs, one after the other. Where the same tokens help to cover them as those that were marked last, and
    /// nothing else changed the order since, none is moved.
    pub fn mark_all(&mut self, needs: &[Need])
        ensures { seen self.new ≡ record (seen self.old) { held = used_each needs.now self.old.held } }
    {
        if self.is_marked(needs) {
            return;
        }
        for need in needs {
            self.used(need);
        }
        self.order.note(needs);
    }

    // Whether the same tokens help to cover these needs as those that were marked last: then they change nothing.
    fn is_marked(&self, needs: &[Need]) -> bool
        ensures { result ≡ true → used_each needs.now self.now.held ≡ self.now.held }
    {
        let marked = self.order.marked();
        marked.len() == needs.len() && self.are_alike(marked, needs)
    }

    // Whether the same tokens help to cover each two needs of two lists.
    fn are_alike(&self, ones: &[Need], others: &[Need]) -> bool
        requires { length ones.now ≡ length others.now }
        ensures { result ≡ true → used_each others.now self.now.held ≡ used_each ones.now self.now.held }
    {
        for (index, one) in ones.iter().enumerate() {
            if !self.is_alike(one, &others[index]) {
                return false;
            }
        }
        true
    }

    // Whether the same tokens help to cover two needs.
    fn is_alike(&self, one: &Need, other: &Need) -> bool
        ensures { result ≡ true → AreAlike one.now other.now self.now.held }
    {
        is_same_need(one, other) || self.is_alike_at(one, other)
    }

    // Whether two needs are of one file, and the same of its tokens help to cover them.
    fn is_alike_at(&self, one: &Need, other: &Need) -> bool
        ensures { result ≡ true → AreAlike one.now other.now self.now.held }
    {
        one.fid == other.fid && are_alike_for(self.tokens_at(one.fid), one.kind, other.kind)
    }

    /// How many tokens are held. It takes no memory.
    pub fn len(&self) -> usize
        ensures { result ≡ length self.now.held }
    {
        self.order.len()
    }

    /// How many of the held tokens aren't in use. It takes no memory.
    pub fn idle(&self) -> usize
        ensures { result ≡ length (filter is_idle self.now.held) }
    {
        self.order.idle()
    }

    /// The number of the token that isn't in use and than which all others not in use were used later; None where all
    /// are in use. It takes no memory.
    pub fn oldest(&self) -> Option<TokenId>
        ensures { result ≡ option_map (λ held. held.token.id) (last_of (filter is_idle self.now.held)) }
    {
        self.order.oldest()
    }

    /// The held tokens, the most recently used first. The only error is that memory ran out.
    pub fn tokens(&self) -> Result<Items<Token>, NoMemory>
        ensures { IfOk result (λ tokens. tokens ≡ tokens_of self.now.held) }
    {
        self.order.tokens(self.alloc)
    }
}

// The status that counts under a token of this kind.
fn told_under(kind: Kind, status: Option<&Status>) -> Option<&Status>
    ensures { option_copied result ≡ told_under kind (option_copied status.entry) }
{
    if is_status(kind) {
        return status;
    }
    None
}

// Makes room for the bytes of a token. Nothing of what is kept changes, on an error too.
fn make_room(
    files: &mut HashMap<FileKey, File>,
    alloc: Global,
    token: &Token,
) -> Result<(), NoMemory>
    ensures grows { (key : FileKey) → Grows (parts_at files.old.entries key) (parts_at files.new.entries key) }
    ensures ok { OnOk result
        (HasRoom token.now.kind (parts_at files.new.entries (file_key token.now.fid)).bytes) }
{
    let key = file_key(token.fid);
    if let Some(file) = files.get_mut(&key) {
        file.make_room(token.kind)?;
        return Ok(());
    }
    let mut file = File::new(alloc);
    file.make_room(token.kind)?;
    files.insert(key, file)?;
    Ok(())
}

// Puts a token first in its file, and keeps what was told of it. On an error nothing changes.
fn learn(
    files: &mut HashMap<FileKey, File>,
    token: Token,
    status: Option<&Status>,
    pieces: &[Piece],
    entries: &[DirEntry],
) -> Result<(), NoMemory>
    requires room { HasRoom token.kind (parts_at files.old.entries (file_key token.fid)).bytes }
    requires status_only { IsTrue (is_some (option_copied status)) → IsTrue (is_status token.kind) }
    ensures own { OnOk result (Learns token (option_copied status.entry) pieces.now entries.now
        (parts_at files.old.entries (file_key token.fid)) (parts_at files.new.entries (file_key token.fid))) }
    ensures others { (key : FileKey) → same_key (file_key token.fid) key ≡ false →
        parts_at files.new.entries key ≡ parts_at files.old.entries key }
    ensures err { OnErr result ((key : FileKey) →
        parts_at files.new.entries key ≡ parts_at files.old.entries key) }
{
    match files.get_mut(&file_key(token.fid)) {
        Some(file) => file.learn(token, status, pieces, entries),
        None => Err(NoMemory),
    }
}

// Takes a token out of its file, and the file out where no token of it is left.
fn drop_from_file(files: &mut HashMap<FileKey, File>, fid: Fid, id: TokenId)
    ensures { Puts files.old.entries (file_key fid)
        (left (without_token id (parts_at files.old.entries (file_key fid)))) files.new.entries }
{
    let key = file_key(fid);
    let Some(file) = files.get_mut(&key) else {
        return;
    };
    file.drop_id(id);
    if file.tokens().is_empty() {
        files.remove(&key);
    }
}

// Forgets the status of a file with which none of its tokens came.
fn forget_status(files: &mut HashMap<FileKey, File>, order: &Recent, fid: Fid)
    ensures { Puts files.old.entries (file_key fid)
        (told_by order.now (parts_at files.old.entries (file_key fid))) files.new.entries }
{
    let Some(file) = files.get_mut(&file_key(fid)) else {
        return;
    };
    if !order.tells_any(file.tokens()) {
        file.forget_status();
    }
}
