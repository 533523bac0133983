//! The wants that wait, and when they are asked at the token manager.
ghost use Rattle.std.specs.Prelude.{◌≡◌, ◌<◌, ◌≤◌, ◌^◌, length, slice_index_or, IfOk, OnOk};
ghost use Rattle.base_types.specs.declared.limits.TheConstants.{NEEDS_MAX};
ghost use Rattle.server_tables.specs.Counting.{AreCounted, CanAskAll, IsCounted};
ghost use Rattle.server_tables.specs.Standing.{want_for};
ghost use Rattle.server_tables.specs.Updates.{all_enqueued, enqueued, gone_away, opened, reclaimed_by, tokens_enqueued};
ghost use Rattle.server_tables.specs.Updates.{tokens_left, unqueued, wants_left, without_its, without_one};

use crate::pending::{Pending, asker};
use crate::tables::Tables;
use base_types::{HostId, Items, NEEDS_MAX, NoMemory, Plain};
use run_rules::Wanted;
use token_manager::{TokenManager, Want};

/// How many wants can be made.
const WANTS_MAX: u64 = 1 << 44;

impl Tables {
    /// A want waits behind all others, in a grace period or at the token manager. It answers its number. An error comes
    /// where it has more than `NEEDS_MAX` needs or no number is left, too.
    pub fn enqueue(&mut self, wanted: Wanted) -> Result<u64, NoMemory>
        requires counted { IsCounted self.old }
        ensures number { IfOk result (λ number. number ≡ self.old.next) }
        ensures after { OnOk result (self.new ≡ enqueued self.old wanted) }
        ensures counted { OnOk result (IsCounted self.new) }
    {
        let number = self.next;
        let pending = Pending { number, wanted };
        let asked = self.ask(&pending);
        let pushed = self.pending.push(pending);
        asked?;
        pushed?;
        self.next += 1;
        Ok(number)
    }

    /// Asks a new want at the token manager, out of a grace period.
    #[tactic(auto, unfolding(crate::specs::Updates::tokens_enqueued))]
    fn ask(&mut self, pending: &Pending) -> Result<(), NoMemory>
        requires counted { IsCounted self.old }
        requires number { pending.now.number ≡ self.old.next }
        ensures after { OnOk result (self.new ≡ record self.old { tokens = tokens_enqueued self.old pending.now }) }
        ensures left { OnOk result (self.old.next < 2 ^ 44) }
        ensures small { OnOk result (length pending.now.wanted.needs ≤ NEEDS_MAX) }
    {
        if self.next >= WANTS_MAX || pending.wanted.needs.len() > NEEDS_MAX {
            return Err(NoMemory);
        }
        if !self.hosts.no_grace() {
            return Ok(());
        }
        self.tokens.enqueue(want_for(pending)?)?;
        Ok(())
    }

    /// Takes a want out, by its place among those that wait. It takes no memory.
    pub fn unqueue(&mut self, at: usize) -> Pending
        requires place { at < length self.old.pending }
        requires counted { IsCounted self.old }
        ensures value { result ≡ slice_index_or self.old.pending at result }
        ensures after { self.new ≡ unqueued self.old at result.number }
        ensures counted { IsCounted self.new }
    {
        let pending = self.pending.remove(at);
        self.tokens.give_up(pending.number);
        pending
    }

    /// A host is down, or has ended: its tokens, its wants and its claims are gone. Where it was the last that a grace
    /// period waited for, the wants stand in the queue from now on.
    pub fn go_away(&mut self, host: HostId) -> Result<(), NoMemory>
        requires counted { IsCounted self.old }
        ensures after { OnOk result (self.new ≡ gone_away self.old host) }
        ensures counted { OnOk result (IsCounted self.new) }
    {
        let over = self.hosts.no_grace();
        self.hosts.leave(host)?;
        self.drop_wants(host);
        self.recovering.forget_host(host);
        self.open_queue(over)?;
        Ok(())
    }

    /// A host has reclaimed: what its claims are judged by is forgotten. Where it was the last that a grace period
    /// waited for, the wants stand in the queue from now on.
    pub fn reclaim(&mut self, host: HostId) -> Result<(), NoMemory>
        requires counted { IsCounted self.old }
        ensures after { OnOk result (self.new ≡ reclaimed_by self.old host) }
        ensures counted { OnOk result (IsCounted self.new) }
    {
        let over = self.hosts.no_grace();
        self.hosts.reclaim(host)?;
        self.recovering.forget_host(host);
        self.open_queue(over)?;
        Ok(())
    }

    /// Asks all wants that wait at the token manager where a grace period has ended, which it hadn't before.
    #[tactic(auto, unfolding(crate::specs::Updates::tokens_opened))]
    fn open_queue(&mut self, over: bool) -> Result<(), NoMemory>
        requires { AreCounted over self.old.tokens.asked self.old.tokens.latest self.old.pending self.old.next }
        ensures { OnOk result (self.new ≡ opened over self.old) }
    {
        if over || !self.hosts.no_grace() {
            return Ok(());
        }
        enqueue_all(&mut self.tokens, self.pending.as_slice())
    }

    /// The tokens and the wants of a host are gone.
    fn drop_wants(&mut self, host: HostId)
        ensures { self.new ≡ record self.old {
          tokens = tokens_left self.old host;
          pending = wants_left self.old.pending host;
        } }
    {
        self.tokens.host_down(host);
        give_up_all(&mut self.tokens, self.pending.as_slice(), host);
        drop_pending(&mut self.pending, host);
    }
}

/// Takes out the wants of a host.
fn drop_pending(pendings: &mut Items<Pending>, host: HostId)
    ensures { pendings.new ≡ wants_left pendings.old host }
{
    pendings.retain(|pending| pending.wanted.host != host);
}

/// Asks wants at the token manager, one after the other.
fn enqueue_all(tokens: &mut TokenManager, pendings: &[Pending]) -> Result<(), NoMemory>
    requires { CanAskAll tokens.old.asked tokens.old.latest pendings.now }
    ensures { OnOk result (tokens.new ≡ all_enqueued tokens.old pendings.now) }
{
    for pending in pendings {
        tokens.enqueue(want_for(pending)?)?;
    }
    Ok(())
}

/// Takes those of the wants that are of a host out of the token manager's queue.
fn give_up_all(tokens: &mut TokenManager, pendings: &[Pending], host: HostId)
    ensures { tokens.new ≡ without_its tokens.old host pendings.now }
{
    for pending in pendings {
        give_up_of(tokens, pending, host);
    }
}

#[tactic(auto, unfolding(crate::specs::Updates::without_one))]
fn give_up_of(tokens: &mut TokenManager, pending: &Pending, host: HostId)
    ensures { tokens.new ≡ without_one tokens.old host pending.now }
{
    if pending.wanted.host == host {
        tokens.give_up(pending.number);
    }
}

/// The want of a want that waits, at the token manager.
fn want_for(pending: &Pending) -> Result<Want, NoMemory>
    ensures { IfOk result (λ want. want ≡ want_for pending.now) }
{
    Ok(Want {
        number: pending.number,
        host: asker(&pending.wanted),
        needs: pending.wanted.needs.copy()?,
    })
}
