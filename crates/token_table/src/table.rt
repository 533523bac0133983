ghost use Rattle.std.specs.Prelude.{◌≡◌, ◌+◌, ◌<◌, ◌^◌, false, IsTrue, [], ◌∷◌, ◌++◌, length, filter, is_some, All};
ghost use Rattle.std.specs.Prelude.{OnOk, OnErr, IfOk};
ghost use Rattle.std.specs.List.{find, list_any};
ghost use Rattle.std.specs.Option.{option_copied};
ghost use Rattle.token_types.specs.Conflicts.{same_id, blocks};
ghost use Rattle.token_table.specs.Tables.{Table, has_id, next_token, next_tokens, granted, with_tokens, without_id};
ghost use Rattle.token_table.specs.Tables.{is_past};
ghost use Rattle.token_table.specs.Shelves.{with_token};
ghost use Rattle.token_table.specs.Tables.{of_file, names_file, in_the_way, AreThose, of_host, not_of_host};

use crate::places::Kept;
use crate::shelf::Shelf;
use base_types::{Fid, HostId, Items, NoMemory, Plain, ServerId};
use std::alloc::Global;
use std::marker::Model;
use token_types::{Kind, Need, Token, TokenId};

/// The tokens that a server has granted, each with a number of its own, in the order in which they were granted:
/// those of earlier epochs and of other servers come first, by server, epoch and sequence number, then those of its
/// present epoch. Sequence numbers begin at 1 in each epoch. The tokens of one file lie together.
#[derive(Drop)]
pub struct TokenTable {
    last: u64,
    shelf: Shelf,
}

impl Model for TokenTable {
    ghost use Rattle.token_table.specs.Tables.{Table, IsSound};
    ghost use Rattle.token_table.specs.Shelves.{table_of};

    ghost Value = { Table };

    ghost view = { λ t. table_of t.shelf t.last };

    ghost invariant = { λ t. IsSound (table_of t.shelf t.last) };
}

impl TokenTable {
    /// The empty table of a server in an epoch. It takes no memory.
    pub fn new(alloc: Global, server: ServerId, epoch: u64) -> TokenTable
        ensures { result ≡ record { server = server; epoch = epoch; last = 0; tokens = [] } }
    {
        TokenTable {
            last: 0,
            shelf: Shelf::new(alloc, server, epoch),
        }
    }

    /// The number of the last grant; its sequence number is 0 where there was none. It takes no memory.
    pub fn last_id(&self) -> TokenId
        ensures { result ≡ record { server = self.now.server; epoch = self.now.epoch; seq = self.now.last } }
    {
        self.shelf.id_of(self.last)
    }

    /// The token with this number; None where there is none. It takes no memory.
    pub fn get(&self, id: TokenId) -> Option<&Token>
        ensures { option_copied result ≡ find (λ token. same_id token.id id) self.now.tokens }
    {
        self.shelf.get(id)
    }

    /// The tokens of a file, in the order of the table's list; empty where there is none. It takes no memory.
    pub fn of_file(&self, fid: Fid) -> &[Token]
        ensures { result.now ≡ of_file self.now.tokens fid }
    {
        self.shelf.of_file(fid)
    }

    /// Whether a token is in the way of a host's needs: one of another host that conflicts with one of them. It takes
    /// no memory.
    pub fn is_in_the_way(&self, host: HostId, needs: &[Need]) -> bool
        ensures { result ≡ list_any (blocks host needs.now) self.now.tokens }
    {
        for (index, need) in needs.iter().enumerate() {
            if !names_file(&needs[..index], need.fid) && self.bars(need.fid, host, needs) {
                return true;
            }
        }
        false
    }

    // Whether a token of a file is in the way of a host's needs.
    fn bars(&self, fid: Fid, host: HostId, needs: &[Need]) -> bool
        ensures { result ≡ list_any (blocks host needs.now) (of_file self.now.tokens fid) }
    {
        blocks_any(self.shelf.near(fid, host, needs), host, needs)
    }

    /// The tokens that are in the way of a host's needs: those of other hosts that conflict with one of them, file by
    /// file in the order in which the needs name the files.
    pub fn conflicting(&self, host: HostId, needs: &[Need]) -> Result<Items<Token>, NoMemory>
        ensures tokens { IfOk result (λ tokens. tokens ≡ in_the_way self.now.tokens host needs.now) }
        ensures all { IfOk result (λ tokens. AreThose (blocks host needs.now) self.now.tokens tokens) }
    {
        let mut tokens = Items::new(self.shelf.alloc());
        for (index, need) in needs.iter().enumerate() {
            if !names_file(&needs[..index], need.fid) {
                let near = self.shelf.near(need.fid, host, needs);
                push_blocking(&mut tokens, near, host, needs)?;
            }
        }
        Ok(tokens)
    }

    /// The tokens of a host.
    pub fn of_host(&self, host: HostId) -> Result<Items<Token>, NoMemory>
        ensures { IfOk result (λ tokens. tokens ≡ of_host self.now.tokens host) }
    {
        self.shelf.of_host(host)
    }

    /// The tokens that the table grants next for a host's needs.
    pub fn next_tokens(&self, host: HostId, needs: &[Need]) -> Result<Items<Token>, NoMemory>
        requires { self.now.last + length needs.now < 2 ^ 64 }
        ensures { IfOk result (λ tokens. tokens ≡ next_tokens self.now host needs.now) }
    {
        self.shelf.tokens_for(self.last, host, needs)
    }

    /// Grants one token, with the next number.
    pub fn grant(&mut self, host: HostId, fid: Fid, kind: Kind) -> Result<Token, NoMemory>
        requires { self.old.last + 1 < 2 ^ 64 }
        ensures token { IfOk result (λ token. token ≡ next_token self.old host (record { fid = fid; kind = kind })) }
        ensures new { IfOk result (λ token. has_id self.old.tokens token.id ≡ false) }
        ensures after { OnOk result (self.new ≡ granted self.old host (record { fid = fid; kind = kind } ∷ [])) }
        ensures err { OnErr result (self.new ≡ self.old) }
    {
        let need = Need { fid, kind };
        let token = self.shelf.token_for(self.last, host, need);
        self.shelf.push(token)?;
        self.last += 1;
        Ok(token)
    }

    /// Grants a token for each of a host's needs, with the next numbers.
    pub fn grant_each(&mut self, host: HostId, needs: &[Need]) -> Result<Items<Token>, NoMemory>
        requires { self.old.last + length needs.now < 2 ^ 64 }
        ensures tokens { IfOk result (λ tokens. tokens ≡ next_tokens self.old host needs.now) }
        ensures new { IfOk result (All (λ token. has_id self.old.tokens token.id ≡ false)) }
        ensures after { OnOk result (self.new ≡ granted self.old host needs.now) }
        ensures err { OnErr result (self.new ≡ self.old) }
    {
        let tokens = self.shelf.tokens_for(self.last, host, needs)?;
        self.shelf.push_next(self.last, host, needs)?;
        self.last += needs.len() as u64;
        Ok(tokens)
    }

    /// Puts a token in as it is, in its place. Its number isn't there, and won't be given any more: it is of another
    /// server, of an earlier epoch, or was given in this one.
    pub fn insert(&mut self, token: Token) -> Result<(), NoMemory>
        requires absent { has_id self.old.tokens token.id ≡ false }
        requires past { IsTrue (is_past self.old token.id) }
        ensures after { OnOk result (self.new ≡ with_token self.old token) }
        ensures err { OnErr result (self.new ≡ self.old) }
    {
        self.shelf.insert(token)?;
        Ok(())
    }

    /// Takes the token with this number out, where it is there. It takes no memory.
    pub fn drop_id(&mut self, id: TokenId) -> Option<Token>
        ensures token { result ≡ find (λ token. same_id token.id id) self.old.tokens }
        ensures there { is_some result ≡ has_id self.old.tokens id }
        ensures after { self.new ≡ with_tokens self.old (without_id self.old.tokens id) }
    {
        self.shelf.drop_id(id)
    }

    /// Takes all tokens of a host out. It takes no memory.
    pub fn drop_host(&mut self, host: HostId)
        ensures { self.new ≡ with_tokens self.old (not_of_host self.old.tokens host) }
    {
        self.shelf.keep(Kept::OfOthers(host));
    }
}

impl Plain for TokenTable {
    fn copy(&self) -> Result<TokenTable, NoMemory> {
        Ok(TokenTable {
            last: self.last,
            shelf: self.shelf.copy()?,
        })
    }
}

/// Whether one of the needs is of a file.
pub fn names_file(needs: &[Need], fid: Fid) -> bool
    ensures { result ≡ names_file needs.now fid }
{
    needs.iter().any(|need| need.fid == fid)
}

// Whether one of the tokens is in the way of a host's needs.
fn blocks_any(tokens: &[Token], host: HostId, needs: &[Need]) -> bool
    ensures { result ≡ list_any (blocks host needs.now) tokens.now }
{
    tokens.iter().any(|token| token.blocks(host, needs))
}

// Adds those of the tokens that are in the way of a host's needs.
fn push_blocking(
    found: &mut Items<Token>,
    tokens: &[Token],
    host: HostId,
    needs: &[Need],
) -> Result<(), NoMemory>
    ensures { OnOk result (found.new ≡ found.old ++ filter (blocks host needs.now) tokens.now) }
{
    for token in tokens {
        if token.blocks(host, needs) {
            found.push(*token)?;
        }
    }
    Ok(())
}
