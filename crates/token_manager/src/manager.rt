ghost use Rattle.std.specs.Prelude.{◌≡◌, ◌≤◌, ◌<◌, ◌^◌, None, [], length, ◌↔◌, IsTrue, IfSome, OnOk, OnErr, IfOk, All};
ghost use Rattle.std.specs.List.{find};
ghost use Rattle.std.specs.Option.{option_copied, option_map};
ghost use Rattle.token_table.specs.Tables.{of_file, of_host, has_id};
ghost use Rattle.token_table.specs.Marks.{is_pinned, is_revoked};
ghost use Rattle.token_manager.specs.Grants.{holds, can_keep, CanClaim};
ghost use Rattle.token_manager.specs.Wants.{wants_in};
ghost use Rattle.token_manager.specs.Grants.{last_id};
ghost use Rattle.token_manager.specs.Managers.{Manager, new_manager, ask_answer, after_ask, can_decide, ready_answer};
ghost use Rattle.token_manager.specs.Managers.{after_ready, after_returned, after_kept, after_down, after_given_up};
ghost use Rattle.token_manager.specs.Managers.{first_ready, wanted, after_revoked, after_admit};
ghost use Rattle.token_manager.specs.Managers.{after_drop_fileset, is_later, after_forget};
ghost use Rattle.token_manager.specs.Managers.{after_decide, after_enqueue, decide_answer};
ghost use Rattle.token_manager.specs.Managers.{is_ready_at, outlook_of, ready_at};
ghost use Rattle.token_manager.specs.Laws.{KeepsLaws};

use crate::grants::Grants;
use crate::want::{
    Asked, Outlook, Ready, Want, Wanted, drop_want, drop_wants_in, drop_wants_of, first_ahead,
    wants_in,
};
use crate::wanted::wanted;
use base_types::{Fid, FilesetId, HostId, Items, NEEDS_MAX, NoMemory, ServerId};
use std::alloc::Global;
use std::marker::Model;
use token_types::{Token, TokenId};

/// The tokens that a server has granted, and the wants that wait for tokens, in the order in which they were asked. A
/// want waits for the tokens of other hosts and for the earlier wants that conflict with it, so that none passes an
/// earlier one; as only tokens on one object conflict, wants of two filesets never wait for each other. A token that
/// its host keeps, because it is in use, is pinned until it is returned. No call makes granted tokens of two hosts
/// conflict.
#[derive(Drop)]
pub struct TokenManager {
    grants: Grants,
    queue: Items<Want>,
    asked: u64,
    latest: Option<u64>,
}

impl Model for TokenManager {
    ghost use Rattle.token_manager.specs.Managers.{Manager};
    ghost use Rattle.token_manager.specs.Laws.{IsLawful, HasRoom};
    ghost use Rattle.token_table.specs.contracts.notes.Notes as notes;
    ghost use Rattle.std.specs.Coded.{codes};

    ghost Value = { Manager };

    ghost coded = { Prim.hlevel (codes, notes.the_row.coded) };

    ghost view = { λ m. record { grants = m.grants; queue = m.queue; asked = m.asked; latest = m.latest } };

    ghost invariant = { λ m. IsLawful m.grants m.queue m.latest × HasRoom m.grants.table.last m.asked m.queue };
}

impl TokenManager {
    /// A manager that has granted nothing, for a server in an epoch. It takes no memory.
    pub fn new(alloc: Global, server: ServerId, epoch: u64) -> TokenManager
        ensures { result ≡ new_manager server epoch }
    {
        TokenManager {
            grants: Grants::new(alloc, server, epoch),
            queue: Items::new(alloc),
            asked: 0,
            latest: None,
        }
    }

    /// What holds of every token manager: each granted token has a number of its own that won't be given again, and a
    /// note; none was granted past an earlier queued want that conflicts; and the numbers of the queued wants rise. It
    /// does nothing.
    #[tactic(auto, unfolding(crate::specs::Laws::KeepsLaws))]
    pub fn laws(&self)
        ensures { KeepsLaws self.now }
    {
        let _asked = &self.asked;
    }

    /// The number of the last token that was granted in this epoch; its sequence number is 0 where there was none. It
    /// takes no memory.
    pub fn last_id(&self) -> TokenId
        ensures { result ≡ last_id self.now.grants.table }
    {
        self.grants.table.last_id()
    }

    /// How many wants were asked. It takes no memory.
    pub fn asked(&self) -> u64
        ensures { result ≡ self.now.asked }
    {
        self.asked
    }

    /// The number of the last want that was asked; None where none was. It takes no memory.
    pub fn latest(&self) -> Option<u64>
        ensures { result ≡ self.now.latest }
    {
        self.latest
    }

    /// The wants that aren't decided, in the order in which they were asked. It takes no memory.
    pub fn queue(&self) -> &[Want]
        ensures { result.now ≡ self.now.queue }
    {
        self.queue.as_slice()
    }

    /// The granted tokens of a file, in the order of the table's list; empty where there is none. It takes no memory.
    pub fn of_file(&self, fid: Fid) -> &[Token]
        ensures { result.now ≡ of_file self.now.grants.table.tokens fid }
    {
        self.grants.table.of_file(fid)
    }

    /// The granted tokens of a host.
    pub fn of_host(&self, host: HostId) -> Result<Items<Token>, NoMemory>
        ensures { IfOk result (λ tokens. tokens ≡ of_host self.now.grants.table.tokens host) }
    {
        self.grants.table.of_host(host)
    }

    /// Whether a host has the token with this number. It takes no memory.
    pub fn holds(&self, host: HostId, id: TokenId) -> bool
        ensures { result ≡ holds self.now.grants host id }
    {
        self.grants.holds(host, id)
    }

    /// Whether a token with this number is granted. It takes no memory.
    pub fn is_granted(&self, id: TokenId) -> bool
        ensures { result ≡ has_id self.now.grants.table.tokens id }
    {
        self.grants.is_granted(id)
    }

    /// Whether the token with this number is granted and pinned. It takes no memory.
    pub fn is_pinned(&self, id: TokenId) -> bool
        ensures { result ≡ is_pinned self.now.grants.notes id }
    {
        self.grants.notes.is_pinned(id)
    }

    /// Whether the token with this number is granted and was asked back. It takes no memory.
    pub fn is_revoked(&self, id: TokenId) -> bool
        ensures { result ≡ is_revoked self.now.grants.notes id }
    {
        self.grants.notes.is_revoked(id)
    }

    /// The number of the first queued want that can be decided: the one that `next_ready` decides. None where there is
    /// none. It takes no memory.
    pub fn first_ready(&self) -> Option<u64>
        ensures { result ≡ option_map (λ want. want.number) (first_ready self.now) }
    {
        first_ready(&self.grants, self.queue.as_slice()).map(|want| want.number)
    }

    /// What can become of the queued want with this number as things are. A want that isn't queued waits. It takes no
    /// memory.
    pub fn outlook(&self, number: u64) -> Outlook
        ensures { result ≡ outlook_of self.now.grants (ready_at self.now number) }
    {
        match ready_at(&self.grants, self.queue.as_slice(), number) {
            Some(want) => self.grants.outlook(want),
            None => Outlook::Waits,
        }
    }

    /// The granted tokens that queued wants ask back: those that are in the way of a queued want, but for those that
    /// are pinned and the server's own. Each comes once, want by want.
    pub fn wanted(&self) -> Result<Items<Wanted>, NoMemory>
        ensures { IfOk result (λ tokens. tokens ≡ wanted self.now) }
    {
        wanted(&self.grants, &self.queue)
    }
}

impl TokenManager {
    /// Takes a want. It waits exactly where a granted token of another host or an earlier queued want conflicts with
    /// it; else it is granted. On an error nothing changes.
    #[tactic(auto, unfolding(crate::specs::Managers::ask_answer, crate::specs::Managers::grants_asked, crate::specs::Managers::queue_asked))]
    pub fn ask(&mut self, want: Want) -> Result<Asked, NoMemory>
        requires count { self.old.asked < 2 ^ 44 }
        requires rising { IfSome self.old.latest (λ latest. latest < want.number) }
        requires needs { length want.needs ≤ NEEDS_MAX }
        ensures answer { IfOk result (λ asked. asked ≡ ask_answer self.old want) }
        ensures after { OnOk result (self.new ≡ after_ask self.old want) }
        ensures err { OnErr result (self.new ≡ self.old) }
    {
        let number = want.number;
        let behind = first_ahead(self.queue.as_slice(), &want).map(|other| other.number);
        let asked = if behind.is_some() || self.grants.is_blocked(&want) {
            let revoke = self.grants.to_revoke(&want)?;
            self.queue.push(want)?;
            Asked::Waits { revoke, behind }
        } else {
            Asked::Granted(self.grants.grant(&want)?)
        };
        self.asked += 1;
        self.latest = Some(number);
        Ok(asked)
    }

    /// Puts a want behind all that are queued, whatever is in its way: it is decided by `decide`, or by `next_ready`.
    /// On an error nothing changes.
    pub fn enqueue(&mut self, want: Want) -> Result<(), NoMemory>
        requires count { self.old.asked < 2 ^ 44 }
        requires rising { IfSome self.old.latest (λ latest. latest < want.number) }
        requires needs { length want.needs ≤ NEEDS_MAX }
        ensures after { OnOk result (self.new ≡ after_enqueue self.old want) }
        ensures err { OnErr result (self.new ≡ self.old) }
    {
        let number = want.number;
        self.queue.push(want)?;
        self.asked += 1;
        self.latest = Some(number);
        Ok(())
    }

    /// Decides the queued want with this number, if that can be decided: it is refused where a pinned token is in its
    /// way, and else granted. It answers None where it has to wait, or isn't queued. On an error nothing changes.
    #[tactic(auto, unfolding(crate::specs::Managers::decide_answer, crate::specs::Managers::grants_decided, crate::specs::Managers::queue_decided))]
    pub fn decide(&mut self, number: u64) -> Result<Option<Ready>, NoMemory>
        ensures answer { IfOk result (λ ready. ready ≡ decide_answer self.old number) }
        ensures after { OnOk result (self.new ≡ after_decide self.old number) }
        ensures err { OnErr result (self.new ≡ self.old) }
    {
        let Some(want) = ready_at(&self.grants, self.queue.as_slice(), number) else {
            return Ok(None);
        };
        let number = want.number;
        let ready = match self.grants.pinned_in_the_way(want).copied() {
            Some(token) => Ready::Refused(number, token),
            None => Ready::Granted(number, self.grants.grant(want)?),
        };
        drop_want(&mut self.queue, number);
        Ok(Some(ready))
    }

    /// Decides the first queued want that can be decided: one with which no earlier one conflicts, and with which no
    /// granted token of another host conflicts, or one that is pinned. It answers None where there is none. On an error
    /// nothing changes.
    #[tactic(auto, unfolding(crate::specs::Managers::ready_answer, crate::specs::Managers::grants_ready, crate::specs::Managers::queue_ready))]
    pub fn next_ready(&mut self) -> Result<Option<Ready>, NoMemory>
        ensures answer { IfOk result (λ ready. ready ≡ ready_answer self.old) }
        ensures after { OnOk result (self.new ≡ after_ready self.old) }
        ensures err { OnErr result (self.new ≡ self.old) }
    {
        let Some(want) = first_ready(&self.grants, self.queue.as_slice()) else {
            return Ok(None);
        };
        let number = want.number;
        let ready = match self.grants.pinned_in_the_way(want).copied() {
            Some(token) => Ready::Refused(number, token),
            None => Ready::Granted(number, self.grants.grant(want)?),
        };
        drop_want(&mut self.queue, number);
        Ok(Some(ready))
    }

    /// A host gave a token back. It answers false where the host has no such token; then nothing changes. It takes no
    /// memory.
    #[tactic(auto, unfolding(crate::specs::Managers::grants_returned))]
    pub fn returned(&mut self, host: HostId, id: TokenId) -> bool
        ensures answer { result ≡ holds self.old.grants host id }
        ensures after { self.new ≡ after_returned self.old host id }
    {
        let holds = self.grants.holds(host, id);
        if holds {
            self.grants.drop_token(id);
        }
        holds
    }

    /// A host keeps a token, because it is in use: it is pinned from then on. It answers false where the host has no
    /// such lock or open token; then nothing changes. It takes no memory.
    #[tactic(auto, unfolding(crate::specs::Managers::grants_kept))]
    pub fn kept(&mut self, host: HostId, id: TokenId) -> bool
        ensures answer { result ≡ can_keep self.old.grants host id }
        ensures after { self.new ≡ after_kept self.old host id }
    {
        let can_keep = self.grants.can_keep(host, id);
        if can_keep {
            self.grants.pin(id);
        }
        can_keep
    }

    /// The host of a token was asked to give it back. It answers false where no token with this number is granted; then
    /// nothing changes. It takes no memory.
    pub fn set_revoked(&mut self, id: TokenId) -> bool
        ensures answer { result ≡ has_id self.old.grants.table.tokens id }
        ensures after { self.new ≡ after_revoked self.old id }
    {
        let granted = self.grants.is_granted(id);
        self.grants.set_revoked(id);
        granted
    }

    /// Whether `admit` may be called with these tokens: each number is of another server, of an earlier epoch, or
    /// granted already. It takes no memory.
    pub fn can_admit(&self, tokens: &[Token]) -> bool
        ensures { IsTrue result ↔ All (CanClaim self.now.grants) tokens.now }
    {
        for token in tokens {
            if !self.grants.can_claim(token) {
                return false;
            }
        }
        true
    }

    /// Makes each of the tokens granted as it is and not pinned, but for those whose number is granted already: a host
    /// claims after a restart what it had. Numbers of the server are of an earlier epoch, or granted already. On an
    /// error nothing changes.
    pub fn admit(&mut self, tokens: &[Token]) -> Result<(), NoMemory>
        requires { All (CanClaim self.old.grants) tokens.now }
        ensures after { OnOk result (self.new ≡ after_admit self.old tokens.now) }
        ensures err { OnErr result (self.new ≡ self.old) }
    {
        self.grants.admit(tokens)?;
        Ok(())
    }

    /// A host is down, or has ended: its tokens and its queued wants are gone. It takes no memory.
    pub fn host_down(&mut self, host: HostId)
        ensures { self.new ≡ after_down self.old host }
    {
        self.grants.drop_host(host);
        drop_wants_of(&mut self.queue, host);
    }

    /// Takes the want of this number out of the queue, where it is there. It takes no memory.
    pub fn give_up(&mut self, number: u64)
        ensures { self.new ≡ after_given_up self.old number }
    {
        drop_want(&mut self.queue, number);
    }

    /// Takes the queued wants of a fileset out, in the order in which they were asked: it has left the server. On an
    /// error nothing changes.
    pub fn drop_fileset(&mut self, fileset: FilesetId) -> Result<Items<Want>, NoMemory>
        ensures wants { IfOk result (λ wants. wants ≡ wants_in self.old.queue fileset) }
        ensures after { OnOk result (self.new ≡ after_drop_fileset self.old fileset) }
        ensures err { OnErr result (self.new ≡ self.old) }
    {
        let wants = wants_in(&self.queue, fileset)?;
        drop_wants_in(&mut self.queue, fileset);
        Ok(wants)
    }

    /// The server has restarted, in a later epoch: its tokens, its pins and its queued wants are gone, and sequence
    /// numbers begin at 1 again. How many wants were asked stays, and the number of the last one. It answers false
    /// where the epoch isn't later than that of the manager; then nothing changes. It takes no memory.
    #[tactic(auto, unfolding(crate::specs::Managers::grants_forgotten, crate::specs::Managers::queue_forgotten))]
    pub fn forget(&mut self, epoch: u64) -> bool
        ensures answer { result ≡ is_later self.old epoch }
        ensures after { self.new ≡ after_forget self.old epoch }
    {
        let last = self.last_id();
        let is_later = last.epoch < epoch;
        if is_later {
            let alloc = self.queue.alloc();
            self.grants = Grants::new(alloc, last.server, epoch);
            self.queue = Items::new(alloc);
        }
        is_later
    }
}

/// The queued want with a number, if it can be decided.
fn ready_at<'a>(grants: &Grants, queue: &'a [Want], number: u64) -> Option<&'a Want>
    ensures { option_copied result ≡ find (is_ready_at grants.now queue.now number) queue.now }
{
    queue.iter().find(|want| want.number == number && can_decide(grants, queue, want))
}

/// The first of the queued wants that can be decided.
fn first_ready<'a>(grants: &Grants, queue: &'a [Want]) -> Option<&'a Want>
    ensures { option_copied result ≡ find (can_decide grants.now queue.now) queue.now }
{
    queue.iter().find(|want| can_decide(grants, queue, want))
}

fn can_decide(grants: &Grants, queue: &[Want], want: &Want) -> bool
    ensures { result ≡ can_decide grants.now queue.now want.now }
{
    first_ahead(queue, want).is_none()
        && (!grants.is_blocked(want) || grants.pinned_in_the_way(want).is_some())
}
