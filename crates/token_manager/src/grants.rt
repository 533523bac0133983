ghost use Rattle.std.specs.Prelude.{◌≡◌, ◌+◌, ◌<◌, ◌^◌, ◌==◌, ◌||◌, None, Some, All, not, nat_lt, length, filter};
ghost use Rattle.std.specs.Prelude.{OnOk, OnErr, IfOk};
ghost use Rattle.std.specs.List.{find};
ghost use Rattle.std.specs.Option.{option_copied};
ghost use Rattle.token_table.specs.Tables.{next_tokens, has_id};
ghost use Rattle.token_table.specs.Marks.{is_pinned};
ghost use Rattle.token_manager.specs.Grants.{is_pinned_ahead, holds, can_keep, is_lock_or_open, note_of};
ghost use Rattle.token_manager.specs.Grants.{pinned_in_the_way, is_blocked, to_revoke, with_grant, with_claimed};
ghost use Rattle.token_manager.specs.Grants.{outlook_with, with_claims};
ghost use Rattle.token_manager.specs.Grants.{CanClaim, can_claim, NoneIsNoted};
ghost use Rattle.token_manager.specs.Grants.{pinned_grants, revoked_grants, without_token, without_host, no_grants};

use crate::want::{Outlook, Want};
use base_types::{HostId, Items, NoMemory, Plain, ServerId};
use std::alloc::Global;
use token_table::{Note, Notes, TokenTable, names_file};
use token_types::{Kind, Token, TokenId};

/// The granted tokens, with a note of each.
#[derive(Drop)]
pub struct Grants {
    pub table: TokenTable,
    pub notes: Notes,
}

impl Grants {
    /// No tokens, of a server in an epoch. It takes no memory.
    pub fn new(alloc: Global, server: ServerId, epoch: u64) -> Grants
        ensures { result ≡ no_grants server epoch }
    {
        Grants {
            table: TokenTable::new(alloc, server, epoch),
            notes: Notes::new(alloc),
        }
    }

    /// Whether a granted token of another host conflicts with a want.
    pub fn is_blocked(&self, want: &Want) -> bool
        ensures { result ≡ is_blocked self.now want.now }
    {
        self.table.is_in_the_way(want.host, want.needs.as_slice())
    }

    /// The first pinned token of another host that conflicts with a want, file by file in the order of its needs.
    pub fn pinned_in_the_way(&self, want: &Want) -> Option<&Token>
        ensures { option_copied result ≡ pinned_in_the_way self.now want.now }
    {
        let needs = want.needs.as_slice();
        for (index, need) in needs.iter().enumerate() {
            if names_file(&needs[..index], need.fid) {
                continue;
            }
            let pinned = first_pinned(self.table.of_file(need.fid), &self.notes, want);
            if pinned.is_some() {
                return pinned;
            }
        }
        None
    }

    /// What becomes of a want that can be decided.
    pub fn outlook(&self, want: &Want) -> Outlook
        ensures { result ≡ outlook_with (pinned_in_the_way self.now want.now) }
    {
        match self.pinned_in_the_way(want) {
            Some(token) => Outlook::Refused(*token),
            None => Outlook::Granted,
        }
    }

    /// The tokens of other hosts that conflict with a want, but for those that are pinned.
    pub fn to_revoke(&self, want: &Want) -> Result<Items<Token>, NoMemory>
        ensures { IfOk result (λ tokens. tokens ≡ to_revoke self.now want.now) }
    {
        let mut tokens = self.table.conflicting(want.host, want.needs.as_slice())?;
        drop_pinned(&mut tokens, &self.notes);
        Ok(tokens)
    }

    /// Whether a host has this token.
    pub fn holds(&self, host: HostId, id: TokenId) -> bool
        ensures { result ≡ holds self.now host id }
    {
        match self.table.get(id) {
            Some(token) => token.host == host,
            None => false,
        }
    }

    /// Whether a host can keep this token: it has it, and it is a lock or open token.
    pub fn can_keep(&self, host: HostId, id: TokenId) -> bool
        ensures { result ≡ can_keep self.now host id }
    {
        match self.table.get(id) {
            Some(token) => token.host == host && is_lock_or_open(token.kind),
            None => false,
        }
    }

    /// Grants a token for each need of a want. On an error nothing changes.
    pub fn grant(&mut self, want: &Want) -> Result<Items<Token>, NoMemory>
        requires room { self.old.table.last + length want.now.needs < 2 ^ 64 }
        requires fresh { NoneIsNoted self.old want.now }
        ensures tokens { IfOk result (λ tokens. tokens ≡ next_tokens self.old.table want.now.host want.now.needs) }
        ensures after { OnOk result (self.new ≡ with_grant self.old want.now) }
        ensures err { OnErr result (self.new ≡ self.old) }
    {
        let needs = want.needs.as_slice();
        let tokens = self.table.next_tokens(want.host, needs)?;
        let list = tokens.as_slice();
        let note = note_of(want.host, Some(want.number));
        self.notes.insert_each(list, note)?;
        if let Err(NoMemory) = self.table.grant_each(want.host, needs) {
            self.notes.remove_each(list);
            return Err(NoMemory);
        }
        Ok(tokens)
    }

    /// Whether the token with this number is granted.
    pub fn is_granted(&self, id: TokenId) -> bool
        ensures { result ≡ has_id self.now.table.tokens id }
    {
        self.table.get(id).is_some()
    }

    /// Whether a token may be claimed: its number is of another server, of an earlier epoch, or granted.
    pub fn can_claim(&self, token: &Token) -> bool
        ensures { result ≡ can_claim self.now token.now }
    {
        is_earlier(self.table.last_id(), token.id) || self.is_granted(token.id)
    }

    /// Grants a token as it is, but for one whose number is granted already. On an error nothing changes.
    pub fn claim(&mut self, token: &Token) -> Result<(), NoMemory>
        requires { CanClaim self.old token.now }
        ensures after { OnOk result (self.new ≡ with_claimed self.old token.now) }
        ensures err { OnErr result (self.new ≡ self.old) }
    {
        if self.is_granted(token.id) {
            return Ok(());
        }
        self.table.insert(*token)?;
        match self.notes.insert(token.id, note_of(token.host, None)) {
            Ok(()) => Ok(()),
            Err(NoMemory) => {
                self.table.drop_id(token.id);
                Err(NoMemory)
            }
        }
    }

    /// Grants each of the tokens as it is, but for those whose number is granted already. It works on a copy, so on an
    /// error nothing changes.
    pub fn admit(&mut self, tokens: &[Token]) -> Result<(), NoMemory>
        requires { All (CanClaim self.old) tokens.now }
        ensures after { OnOk result (self.new ≡ with_claims self.old tokens.now) }
        ensures err { OnErr result (self.new ≡ self.old) }
    {
        let mut grants = self.copy()?;
        for token in tokens {
            grants.claim(token)?;
        }
        *self = grants;
        Ok(())
    }

    /// Pins a token. It takes no memory.
    pub fn pin(&mut self, id: TokenId)
        ensures { self.new ≡ pinned_grants self.old id }
    {
        self.notes.pin(id);
    }

    /// Notes of a token that it was asked back. It takes no memory.
    pub fn set_revoked(&mut self, id: TokenId)
        ensures { self.new ≡ revoked_grants self.old id }
    {
        self.notes.set_revoked(id);
    }

    /// Takes a token out. It takes no memory.
    pub fn drop_token(&mut self, id: TokenId)
        ensures { self.new ≡ without_token self.old id }
    {
        self.table.drop_id(id);
        self.notes.remove(id);
    }

    /// Takes the tokens of a host out. It takes no memory.
    pub fn drop_host(&mut self, host: HostId)
        ensures { self.new ≡ without_host self.old host }
    {
        self.table.drop_host(host);
        self.notes.drop_host(host);
    }
}

impl Plain for Grants {
    fn copy(&self) -> Result<Grants, NoMemory> {
        Ok(Grants {
            table: self.table.copy()?,
            notes: self.notes.copy()?,
        })
    }
}

/// The first of these tokens that is pinned, of another host, and conflicts with a want.
fn first_pinned<'a>(tokens: &'a [Token], notes: &Notes, want: &Want) -> Option<&'a Token>
    ensures { option_copied result ≡ find (is_pinned_ahead notes.now want.now) tokens.now }
{
    tokens.iter().find(|token| token.blocks(want.host, want.needs.as_slice())
        && notes.is_pinned(token.id))
}

fn is_lock_or_open(kind: Kind) -> bool
    ensures { result ≡ is_lock_or_open kind }
{
    matches!(kind, Kind::Lock { .. } | Kind::Opening(_))
}

fn drop_pinned(tokens: &mut Items<Token>, notes: &Notes)
    ensures { tokens.new ≡ filter (λ token. not (is_pinned notes.now token.id)) tokens.old }
{
    tokens.retain(|token| !notes.is_pinned(token.id));
}

/// Whether a number was given before the epoch of this one, or by another server.
fn is_earlier(last: TokenId, id: TokenId) -> bool
    ensures { result ≡ (not (id.server.0 == last.server.0) || nat_lt id.epoch last.epoch) }
{
    id.server != last.server || id.epoch < last.epoch
}

/// What is noted of a token when it is granted: to a want of this number, or by a claim.
fn note_of(host: HostId, want: Option<u64>) -> Note
    ensures { result ≡ note_of host want }
{
    Note {
        host,
        want,
        pinned: false,
        revoked: false,
    }
}
