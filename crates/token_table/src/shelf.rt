//! Tokens in the order in which they were granted, with those of one file together.
ghost use Rattle.std.specs.Prelude.{◌≡◌, ◌==◌, ◌+◌, ◌<◌, ◌^◌, ◌≤◌, false, ◌∷◌, ◌++◌, [], length, insert};
ghost use Rattle.std.specs.Prelude.{IfOk, OnOk, OnErr};
ghost use Rattle.std.specs.List.{find, filter, All};
ghost use Rattle.std.specs.Option.{option_copied};
ghost use Rattle.std.specs.BTreeMap.{values};
ghost use Rattle.token_types.specs.Conflicts.{same_id, blocks};
ghost use Rattle.token_table.specs.Places.{place_of, FileKey, file_key, same_key, tokens_at};
ghost use Rattle.token_table.specs.Places.{comes_before, placed, AreByFile};
ghost use Rattle.token_table.specs.Shelves.{IsBefore, IsUpTo, IsPutIn, IsPlacedIn, AreSameElsewhere, keeps};
ghost use Rattle.token_table.specs.Shelves.{with_kept, with_next, with_placed};
ghost use Rattle.token_table.specs.Tables.{has_id, of_file, of_host, without_id, token_for, tokens_from};

use crate::file_tokens::FileTokens;
use crate::places::{Kept, Place, keeps, place_of};
use base_types::{Fid, HostId, Items, NoMemory, Plain, ServerId};
use std::alloc::Global;
use std::collections::BTreeMap;
use std::marker::Model;
use token_types::{Need, Token, TokenId};

// A file: its fileset, its anode and the unique number.
type FileKey = (u32, (u32, u32));

/// The tokens of a server in an epoch. Contracts see them as a list, in the order of their places.
#[derive(Drop)]
pub struct Shelf {
    alloc: Global,
    server: ServerId,
    epoch: u64,
    tokens: BTreeMap<Place, Token>,
    files: BTreeMap<FileKey, FileTokens>,
}

impl Model for Shelf {
    ghost use Rattle.std.specs.BTreeMap.{values};
    ghost use Rattle.token_table.specs.Places.{ShelfView, IsShelf};

    ghost Value = { ShelfView };

    ghost view = { λ s. record { server = s.server; epoch = s.epoch; tokens = values s.tokens } };

    ghost invariant = { λ s. IsShelf s.server s.epoch s.tokens s.files };
}

impl Shelf {
    /// The empty shelf. It takes no memory.
    pub fn new(alloc: Global, server: ServerId, epoch: u64) -> Shelf
        ensures { result ≡ record { server = server; epoch = epoch; tokens = [] } }
    {
        Shelf {
            alloc,
            server,
            epoch,
            tokens: BTreeMap::new(alloc),
            files: BTreeMap::new(alloc),
        }
    }

    /// The memory that the shelf grows in.
    pub fn alloc(&self) -> Global {
        self.alloc
    }

    /// The number with this sequence number in the present epoch.
    pub fn id_of(&self, seq: u64) -> TokenId
        ensures { result ≡ record { server = self.now.server; epoch = self.now.epoch; seq = seq } }
    {
        TokenId {
            server: self.server,
            epoch: self.epoch,
            seq,
        }
    }

    /// The token that the server grants for a need, after `last` others of its epoch.
    pub fn token_for(&self, last: u64, host: HostId, need: Need) -> Token
        requires { last + 1 < 2 ^ 64 }
        ensures { result ≡ token_for self.now.server self.now.epoch last host need }
    {
        token_for(self.server, self.epoch, last, host, need)
    }

    /// The tokens that the server grants for needs, after `last` others of its epoch.
    pub fn tokens_for(
        &self,
        last: u64,
        host: HostId,
        needs: &[Need],
    ) -> Result<Items<Token>, NoMemory>
        requires { last + length needs.now < 2 ^ 64 }
        ensures { IfOk result (λ tokens. tokens ≡ tokens_from self.now.server self.now.epoch last host needs.now) }
    {
        tokens_from(self.alloc, self.server, self.epoch, last, host, needs)
    }

    /// The tokens of a host.
    pub fn of_host(&self, host: HostId) -> Result<Items<Token>, NoMemory>
        ensures { IfOk result (λ tokens. tokens ≡ of_host self.now.tokens host) }
    {
        let tokens = self.tokens.values().copied();
        let own: Vec<Token> = tokens
            .filter(|token| token.host == host)
            .collect(self.alloc)?;
        Ok(Items::from_vec(own))
    }

    /// The token with this number.
    pub fn get(&self, id: TokenId) -> Option<&Token>
        ensures { option_copied result ≡ find (λ token. same_id token.id id) self.now.tokens }
    {
        self.tokens.get(&place_of(self.server, self.epoch, id))
    }

    /// The tokens of a file, in their order.
    pub fn of_file(&self, fid: Fid) -> &[Token]
        ensures { result.now ≡ of_file self.now.tokens fid }
    {
        match self.files.get(&file_key(fid)) {
            Some(tokens) => tokens.as_slice(),
            None => &[],
        }
    }

    /// Tokens of a file, in their order, among which are all that are in the way of a host's needs.
    pub fn near(&self, fid: Fid, host: HostId, needs: &[Need]) -> &[Token]
        ensures { filter (blocks host needs.now) result.now
            ≡ filter (blocks host needs.now) (of_file self.now.tokens fid) }
    {
        match self.files.get(&file_key(fid)) {
            Some(tokens) => tokens.near(host, needs),
            None => &[],
        }
    }
}

impl Shelf {
    /// Puts a token behind all others. On an error nothing changes.
    pub fn push(&mut self, token: Token) -> Result<(), NoMemory>
        requires { All (IsBefore self.old.server self.old.epoch token) self.old.tokens }
        ensures after { OnOk result (self.new ≡ record self.old { tokens = self.old.tokens ++ token ∷ [] }) }
        ensures err { OnErr result (self.new ≡ self.old) }
    {
        let place = place_of(self.server, self.epoch, token.id);
        self.tokens.insert(place, token)?;
        match put_in_file(&mut self.files, self.alloc, token) {
            Ok(()) => Ok(()),
            Err(NoMemory) => {
                self.tokens.remove(&place);
                Err(NoMemory)
            }
        }
    }

    /// Puts a token in its place. On an error nothing changes.
    pub fn insert(&mut self, token: Token) -> Result<(), NoMemory>
        requires { has_id self.old.tokens token.id ≡ false }
        ensures after { OnOk result (self.new ≡ with_placed self.old token) }
        ensures err { OnErr result (self.new ≡ self.old) }
    {
        let place = place_of(self.server, self.epoch, token.id);
        self.tokens.insert(place, token)?;
        match place_in_file(&mut self.files, self.alloc, self.server, self.epoch, token) {
            Ok(()) => Ok(()),
            Err(NoMemory) => {
                self.tokens.remove(&place);
                Err(NoMemory)
            }
        }
    }

    /// Puts the tokens that the server grants for a host's needs, after `last` others of its epoch, behind all
    /// others. On an error nothing changes.
    pub fn push_next(&mut self, last: u64, host: HostId, needs: &[Need]) -> Result<(), NoMemory>
        requires few { last + length needs.now < 2 ^ 64 }
        requires up_to { All (IsUpTo self.old.server self.old.epoch last) self.old.tokens }
        ensures after { OnOk result (self.new ≡ with_next self.old last host needs.now) }
        ensures err { OnErr result (self.new ≡ self.old) }
    {
        let mut given = last;
        for need in needs {
            let token = token_for(self.server, self.epoch, given, host, *need);
            if let Err(NoMemory) = self.push(token) {
                self.keep(Kept::UpTo(last));
                return Err(NoMemory);
            }
            given += 1;
        }
        Ok(())
    }

    /// Takes all tokens out but for those that are kept. It takes no memory.
    pub fn keep(&mut self, kept: Kept)
        ensures { self.new ≡ with_kept self.old kept }
    {
        let (server, epoch) = (self.server, self.epoch);
        self.tokens
            .retain(|_, token| keeps(server, epoch, kept, token));
        self.files.retain(|_, tokens| {
            tokens.keep(server, epoch, kept);
            true
        });
    }

    /// Takes the token with this number out, where it is there. It takes no memory.
    pub fn drop_id(&mut self, id: TokenId) -> Option<Token>
        ensures token { result ≡ find (λ token. same_id token.id id) self.old.tokens }
        ensures after { self.new ≡ record self.old { tokens = without_id self.old.tokens id } }
    {
        if self.tokens.len() == 0 {
            return None;
        }
        let token = self.tokens.remove(&place_of(self.server, self.epoch, id))?;
        take_from_file(&mut self.files, file_key(token.fid), token.host, id);
        Some(token)
    }
}

impl Plain for Shelf {
    fn copy(&self) -> Result<Shelf, NoMemory> {
        let tokens = copy_of(&self.tokens)?;
        let list = list_of(self.alloc, &self.tokens)?;
        let files = files_of(self.alloc, list.as_slice())?;
        Ok(Shelf {
            alloc: self.alloc,
            server: self.server,
            epoch: self.epoch,
            tokens,
            files,
        })
    }
}

// The same tokens at the same places.
fn copy_of(tokens: &BTreeMap<Place, Token>) -> Result<BTreeMap<Place, Token>, NoMemory>
    ensures { IfOk result (λ copy. copy.entries ≡ tokens.now.entries) }
{
    let copy = tokens.clone()?;
    Ok(copy)
}

// The tokens in the order of their places.
fn list_of(alloc: Global, tokens: &BTreeMap<Place, Token>) -> Result<Items<Token>, NoMemory>
    ensures { IfOk result (λ list. list ≡ values tokens.now) }
{
    let list: Vec<Token> = tokens.values().copied().collect(alloc)?;
    Ok(Items::from_vec(list))
}

// The tokens of each file, in their order.
fn files_of(alloc: Global, tokens: &[Token]) -> Result<BTreeMap<FileKey, FileTokens>, NoMemory>
    ensures { IfOk result (AreByFile tokens.now) }
{
    let mut files = BTreeMap::new(alloc);
    for token in tokens {
        put_in_file(&mut files, alloc, *token)?;
    }
    Ok(files)
}

fn file_key(fid: Fid) -> FileKey
    ensures { result ≡ file_key fid }
{
    (fid.fileset.0, (fid.anode, fid.unique))
}

/// The token that a server grants for a need, after `last` others of its epoch.
fn token_for(server: ServerId, epoch: u64, last: u64, host: HostId, need: Need) -> Token
    requires { last + 1 < 2 ^ 64 }
    ensures { result ≡ token_for server epoch last host need }
{
    Token {
        id: TokenId {
            server,
            epoch,
            seq: last + 1,
        },
        host,
        fid: need.fid,
        kind: need.kind,
    }
}

/// The tokens that a server grants for needs, after `last` others of its epoch.
fn tokens_from(
    alloc: Global,
    server: ServerId,
    epoch: u64,
    last: u64,
    host: HostId,
    needs: &[Need],
) -> Result<Items<Token>, NoMemory>
    requires { last + length needs.now < 2 ^ 64 }
    ensures { IfOk result (λ tokens. tokens ≡ tokens_from server epoch last host needs.now) }
{
    let mut tokens = Items::new(alloc);
    let mut given = last;
    for need in needs {
        tokens.push(token_for(server, epoch, given, host, *need))?;
        given += 1;
    }
    Ok(tokens)
}

// Puts a token behind those of its file.
fn put_in_file(
    files: &mut BTreeMap<FileKey, FileTokens>,
    alloc: Global,
    token: Token,
) -> Result<(), NoMemory>
    ensures ok { OnOk result (IsPutIn token files.old files.new) }
    ensures err { OnErr result ((key : FileKey) → tokens_at files.new key ≡ tokens_at files.old key) }
{
    let key = file_key(token.fid);
    if let Some(tokens) = files.get_mut(&key) {
        tokens.push(token)?;
        return Ok(());
    }
    let mut tokens = FileTokens::new(alloc);
    tokens.push(token)?;
    files.insert(key, tokens)?;
    Ok(())
}

// Puts a token in its place among those of its file.
fn place_in_file(
    files: &mut BTreeMap<FileKey, FileTokens>,
    alloc: Global,
    server: ServerId,
    epoch: u64,
    token: Token,
) -> Result<(), NoMemory>
    ensures ok { OnOk result (IsPlacedIn server epoch token files.old files.new) }
    ensures err { OnErr result ((key : FileKey) → tokens_at files.new key ≡ tokens_at files.old key) }
{
    let key = file_key(token.fid);
    if let Some(tokens) = files.get_mut(&key) {
        put_placed(tokens, server, epoch, token)?;
        return Ok(());
    }
    let mut tokens = FileTokens::new(alloc);
    tokens.push(token)?;
    files.insert(key, tokens)?;
    Ok(())
}

fn put_placed(
    tokens: &mut FileTokens,
    server: ServerId,
    epoch: u64,
    token: Token,
) -> Result<(), NoMemory>
    ensures ok { OnOk result (tokens.new ≡ placed server epoch token tokens.old) }
    ensures err { OnErr result (tokens.new ≡ tokens.old) }
{
    let index = index_of_place(tokens.as_slice(), server, epoch, &token);
    tokens.insert(index, token)
}

// How many tokens stand before one, up to the first that doesn't.
fn index_of_place(tokens: &[Token], server: ServerId, epoch: u64, token: &Token) -> usize
    ensures within { result ≤ length tokens.now }
    ensures placed { insert tokens.now result token.now ≡ placed server epoch token.now tokens.now }
{
    for (index, other) in tokens.iter().enumerate() {
        if !comes_before(server, epoch, other, token) {
            return index;
        }
    }
    tokens.len()
}

fn comes_before(server: ServerId, epoch: u64, other: &Token, token: &Token) -> bool
    ensures { result ≡ comes_before server epoch other.now token.now }
{
    place_of(server, epoch, token.id)
        .cmp(&place_of(server, epoch, other.id))
        .is_gt()
}

// Takes a token of a host out of those of its file.
fn take_from_file(
    files: &mut BTreeMap<FileKey, FileTokens>,
    key: FileKey,
    host: HostId,
    id: TokenId,
)
    requires { (other : HostId) → (host.0 == other.0) ≡ false
        → of_host (without_id (tokens_at files.old key) id) other ≡ of_host (tokens_at files.old key) other }
    ensures own { tokens_at files.new key ≡ without_id (tokens_at files.old key) id }
    ensures others { AreSameElsewhere key files.old files.new }
{
    let Some(tokens) = files.get_mut(&key) else {
        return;
    };
    tokens.drop_id(host, id);
    if tokens.is_empty() {
        files.remove(&key);
    }
}
