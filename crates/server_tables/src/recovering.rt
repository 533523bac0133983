ghost use Rattle.std.specs.Prelude.{◌≡◌, ◌⊎◌, ◌↔◌, ◌==◌, ◌++◌, [], ◌∷◌, not, filter, IsTrue, IfOk, OnOk};
ghost use Rattle.std.specs.Option.{option_copied};
ghost use Rattle.run_rules.specs.Past.{In};
ghost use Rattle.server_tables.specs.Claims.{answer_to, answered_so, applied_of, left_out_of, names, one_up};
ghost use Rattle.server_tables.specs.Claims.{taking_one, ups_of};
ghost use Rattle.server_tables.specs.Judging.{first_ripe, forgotten, gave_up, has_all, has_taken, is_here};
ghost use Rattle.server_tables.specs.Judging.{nothing_recovered};

use crate::same::is_same_claim;
use crate::tables::{LastGive, is_of};
use base_types::{FilesetId, HostId, Items, NoMemory, Plain, ServerId};
use message_types::{AppliedGive, Outstanding, Reclaim, Reclaimed};
use std::alloc::Global;
use token_types::TokenId;

/// A claim that waits for give-backs.
#[derive(Drop)]
pub struct Claimed {
    pub host: HostId,
    pub claim: Reclaim,
}

/// The answer to a host's claim.
#[derive(Drop)]
pub struct Answered {
    pub host: HostId,
    pub answer: Reclaimed,
}

/// A token that a host gave up in this epoch.
#[derive(Clone, Copy)]
pub struct GaveUp {
    pub host: HostId,
    pub id: TokenId,
}

/// What claims are judged by. All of it is of this epoch.
#[derive(Drop)]
pub struct Recovering {
    /// The claims that wait, of hosts that haven't reclaimed.
    pub claims: Items<Claimed>,
    /// The give-backs that were taken of hosts that haven't reclaimed.
    pub taken: Items<LastGive>,
    /// The tokens that these gave up.
    pub given_up: Items<GaveUp>,
    /// What was answered to those that have reclaimed.
    pub answers: Items<Answered>,
}

impl Recovering {
    /// Nothing so far. It takes no memory.
    pub(crate) fn new(alloc: Global) -> Recovering
        ensures { result ≡ nothing_recovered }
    {
        Recovering {
            claims: Items::new(alloc),
            taken: Items::new(alloc),
            given_up: Items::new(alloc),
            answers: Items::new(alloc),
        }
    }

    /// Whether a host gave up a token.
    pub fn gave_up(&self, host: HostId, id: TokenId) -> bool
        ensures { result ≡ gave_up self.now.given_up host id }
    {
        self.given_up
            .as_slice()
            .iter()
            .any(|gave| gave.host == host && gave.id == id)
    }

    /// Whether a give-back of a host was taken.
    fn has_taken(&self, host: HostId, fileset: FilesetId, number: u64) -> bool
        ensures { result ≡ has_taken self.now.taken host fileset number }
    {
        self.taken.as_slice().iter().any(|taken| {
            taken.host == host && taken.give.fileset == fileset && taken.give.number == number
        })
    }

    /// Whether all give-backs of a claim that go to this server were taken.
    pub fn has_all(&self, server: ServerId, host: HostId, claim: &Reclaim) -> bool
        ensures { result ≡ has_all self.now.taken server host claim.now }
    {
        claim.numbers.as_slice().iter().all(|out| {
            out.give == 0 || !is_here(server, out) || self.has_taken(host, out.fileset, out.give)
        })
    }

    /// The first claim that waits whose give-backs were all taken.
    pub fn first_ripe(&self, server: ServerId) -> Option<&Claimed>
        ensures { option_copied result ≡ first_ripe self.now server }
    {
        self.claims.as_slice().iter().find(|claimed| self.has_all(
            server,
            claimed.host,
            &claimed.claim,
        ))
    }

    /// What was answered to a host's claim.
    pub fn answer_to(&self, host: HostId) -> Option<&Reclaimed>
        ensures { option_copied result ≡ answer_to self.now.answers host }
    {
        let answered = self
            .answers
            .as_slice()
            .iter()
            .find(|answered| answered.host == host)?;
        Some(&answered.answer)
    }

    /// Notes that a give-back of a host was taken.
    #[tactic(auto, unfolding(crate::specs::Claims::taking_one))]
    pub fn note_taken(&mut self, host: HostId, give: AppliedGive) -> Result<(), NoMemory>
        ensures { OnOk result (self.new ≡ record self.old { taken = taking_one self.old.taken host give }) }
    {
        if self.has_taken(host, give.fileset, give.number) {
            return Ok(());
        }
        self.taken.push(LastGive { host, give })
    }

    /// Notes that a host gave up tokens.
    pub fn note_given_up(&mut self, host: HostId, ids: &[TokenId]) -> Result<(), NoMemory>
        ensures { OnOk result (self.new ≡ record self.old { given_up = ups_of self.old.given_up host ids.now }) }
    {
        for id in ids {
            self.note_up(host, *id)?;
        }
        Ok(())
    }

    #[tactic(auto, unfolding(crate::specs::Claims::one_up))]
    fn note_up(&mut self, host: HostId, id: TokenId) -> Result<(), NoMemory>
        ensures { OnOk result (self.new ≡ record self.old { given_up = one_up self.old.given_up host id }) }
    {
        if self.gave_up(host, id) {
            return Ok(());
        }
        self.given_up.push(GaveUp { host, id })
    }

    /// A claim waits from now on; where the same waits already, nothing changes.
    pub fn note_claim(&mut self, host: HostId, claim: &Reclaim) -> Result<(), NoMemory>
        ensures waits { In (record { host = host; claim = claim.now }) self.old.claims → self.new ≡ self.old }
        ensures new { (In (record { host = host; claim = claim.now }) self.old.claims → ⊥) → OnOk result
            (self.new ≡ record self.old {
              claims = self.old.claims ++ record { host = host; claim = claim.now } ∷ [];
            }) }
        ensures either { OnOk result
            ((In (record { host = host; claim = claim.now }) self.old.claims × (self.new ≡ self.old))
            ⊎ (self.new ≡ record self.old {
              claims = self.old.claims ++ record { host = host; claim = claim.now } ∷ [];
            })) }
    {
        if self.is_claimed(host, claim) {
            return Ok(());
        }
        self.claims.push(Claimed {
            host,
            claim: claim.copy()?,
        })
    }

    /// Whether a claim of a host waits.
    fn is_claimed(&self, host: HostId, claim: &Reclaim) -> bool
        ensures { IsTrue result ↔ In (record { host = host; claim = claim.now }) self.now.claims }
    {
        for claimed in self.claims.as_slice() {
            if claimed.host == host && is_same_claim(&claimed.claim, claim) {
                return true;
            }
        }
        false
    }

    /// Notes what was answered to a host, in the place of what was answered before.
    pub fn note_answer(&mut self, host: HostId, answer: Reclaimed) -> Result<(), NoMemory>
        ensures { OnOk result (self.new ≡ record self.old { answers = answered_so self.old.answers host answer }) }
    {
        drop_answer(&mut self.answers, host);
        self.answers.push(Answered { host, answer })
    }

    /// Forgets what a host's claims are judged by: it has reclaimed, or it is away. It takes no memory.
    pub(crate) fn forget_host(&mut self, host: HostId)
        ensures { self.new ≡ forgotten self.old host }
    {
        drop_claims(&mut self.claims, host);
        drop_taken(&mut self.taken, host);
        drop_given_up(&mut self.given_up, host);
    }

    /// Of the outstanding give-backs of a claim those that were taken.
    pub fn applied(&self, host: HostId, claim: &Reclaim) -> Result<Items<AppliedGive>, NoMemory>
        ensures { IfOk result (λ applied. applied ≡ applied_of self.now.taken host claim.now.numbers) }
    {
        let mut applied = Items::new(self.taken.alloc());
        for out in claim.numbers.as_slice() {
            if self.has_taken(host, out.fileset, out.give) {
                applied.push(AppliedGive {
                    fileset: out.fileset,
                    number: out.give,
                })?;
            }
        }
        Ok(applied)
    }

    /// Of the tokens of a claim those that the host gave up.
    pub fn left_out(&self, host: HostId, claim: &Reclaim) -> Result<Items<TokenId>, NoMemory>
        ensures { IfOk result (λ ids. ids ≡ left_out_of self.now.given_up host claim.now.tokens) }
    {
        let mut left_out = Items::new(self.given_up.alloc());
        for token in claim.tokens.as_slice() {
            if self.gave_up(host, token.id) {
                left_out.push(token.id)?;
            }
        }
        Ok(left_out)
    }
}

fn drop_answer(answers: &mut Items<Answered>, host: HostId)
    ensures { answers.new ≡ filter (λ a. not (a.host.0 == host.0)) answers.old }
{
    answers.retain(|answered| answered.host != host);
}

fn drop_claims(claims: &mut Items<Claimed>, host: HostId)
    ensures { claims.new ≡ filter (λ claimed. not (claimed.host.0 == host.0)) claims.old }
{
    claims.retain(|claimed| claimed.host != host);
}

fn drop_taken(takens: &mut Items<LastGive>, host: HostId)
    ensures { takens.new ≡ filter (λ taken. not (taken.host.0 == host.0)) takens.old }
{
    takens.retain(|taken| taken.host != host);
}

fn drop_given_up(ups: &mut Items<GaveUp>, host: HostId)
    ensures { ups.new ≡ filter (λ gave. not (gave.host.0 == host.0)) ups.old }
{
    ups.retain(|gave| gave.host != host);
}

/// Whether what is outstanding is at a fileset that is here.
fn is_here(server: ServerId, out: &Outstanding) -> bool
    ensures { result ≡ is_here server out.now }
{
    out.moves == 0 && is_of(server, out.fileset)
}

impl Claimed {
    /// Whether the claim names a fileset that is here.
    pub fn names(&self, server: ServerId, fileset: FilesetId) -> bool
        ensures { result ≡ names self.now.claim server fileset }
    {
        self.claim
            .numbers
            .as_slice()
            .iter()
            .any(|out| out.fileset == fileset && is_here(server, out))
    }
}
