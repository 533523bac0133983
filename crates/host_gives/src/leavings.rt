ghost use Rattle.std.specs.Prelude.{◌≡◌, ◌++◌, [], filter, map, not, IfOk, OnErr, OnOk};
ghost use Rattle.std.specs.List.{list_any};
ghost use Rattle.token_types.specs.Conflicts.{same_id};
ghost use Rattle.host_gives.specs.Leavings.{is_by, is_leaving, leaving_at, leaving_by};

use base_types::{FilesetId, Items, NoMemory};
use lru::LruCache;
use std::alloc::Global;
use std::marker::Model;
use token_types::{Token, TokenId};

/// A token that a give-back of a fileset names.
#[derive(Clone, Copy)]
pub struct Leaving {
    pub fileset: FilesetId,
    /// The number of the give-back.
    pub number: u64,
    pub token: Token,
}

// A give-back: its fileset and its number.
type GiveKey = (u32, u64);

/// The tokens that give-backs name which aren't known as applied. Those of one give-back are found without a walk over
/// all. Contracts see them as a list, in the order in which the give-backs were made.
#[derive(Drop)]
pub struct Leavings {
    alloc: Global,
    by_give: LruCache<GiveKey, Items<Token>>,
}

impl Model for Leavings {
    ghost use Rattle.std.specs.Prelude.{List, ◌≡◌, ◌-◌, ◌^◌};
    ghost use Rattle.host_gives.specs.Leavings.{leaving_in};
    ghost use Rattle.host_gives.specs.declared.leavings.Leaving.{Leaving};

    ghost Value = { List Leaving };

    ghost view = { λ l. leaving_in l.by_give.entries };

    ghost invariant = { λ l. l.by_give.cap ≡ 2 ^ 64 - 1 };
}

impl Leavings {
    /// No token.
    pub fn new(alloc: Global) -> Result<Leavings, NoMemory>
        ensures { IfOk result (λ leavings. leavings ≡ []) }
    {
        Ok(Leavings {
            alloc,
            by_give: LruCache::unbounded(alloc)?,
        })
    }

    /// Adds the tokens that a give-back names. The only error is that memory ran out, as which a second time for one
    /// give-back counts; then nothing changes.
    pub fn add(&mut self, fileset: FilesetId, number: u64, tokens: &[Token]) -> Result<(), NoMemory>
        ensures after { OnOk result (self.new ≡ self.old ++ map (leaving_by fileset number) tokens.now) }
        ensures err { OnErr result (self.new ≡ self.old) }
    {
        let key = (fileset.0, number);
        let _count = self.by_give.len();
        if self.by_give.contains(&key) {
            return Err(NoMemory);
        }
        let tokens = Items::from_slice(self.alloc, tokens)?;
        self.by_give.put(key, tokens)?;
        Ok(())
    }

    /// Forgets the tokens that a give-back names. It takes no memory.
    pub fn forget(&mut self, fileset: FilesetId, number: u64)
        ensures { self.new ≡ filter (λ left. not (is_by fileset number left)) self.old }
    {
        let _count = self.by_give.len();
        drop(self.by_give.pop(&(fileset.0, number)));
    }

    /// Whether a give-back names a token. It takes no memory.
    pub fn has(&self, id: TokenId) -> bool
        ensures { result ≡ list_any (is_leaving id) self.now }
    {
        let mut gives = self.by_give.iter();
        while let Some((_, tokens)) = gives.next() {
            if has_token(tokens.as_slice(), id) {
                return true;
            }
        }
        false
    }

    /// All tokens, in order. The only error is that memory ran out.
    pub fn to_items(&self) -> Result<Items<Leaving>, NoMemory>
        ensures { IfOk result (λ all. all ≡ self.now) }
    {
        let mut all = Items::new(self.alloc);
        let mut gives = self.by_give.iter();
        while let Some((key, tokens)) = gives.next_back() {
            push_all(&mut all, *key, tokens.as_slice())?;
        }
        Ok(all)
    }
}

fn has_token(tokens: &[Token], id: TokenId) -> bool
    ensures { result ≡ list_any (λ token. same_id token.id id) tokens.now }
{
    tokens.iter().any(|token| token.id == id)
}

// Adds the tokens that a give-back names.
fn push_all(all: &mut Items<Leaving>, key: GiveKey, tokens: &[Token]) -> Result<(), NoMemory>
    ensures { OnOk result (all.new ≡ all.old ++ map (leaving_at key) tokens.now) }
{
    for token in tokens {
        all.push(Leaving {
            fileset: FilesetId(key.0),
            number: key.1,
            token: *token,
        })?;
    }
    Ok(())
}
