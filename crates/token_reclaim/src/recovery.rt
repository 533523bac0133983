ghost use Rattle.std.specs.Prelude.{◌≡◌, ◌==◌, ◌<◌, ◌↔◌, IsTrue, IfOk, OnOk, OnErr, length, not};
ghost use Rattle.std.specs.List.{list_any, filter};
ghost use Rattle.token_reclaim.specs.Recoveries.{is_among, to_admit, without, GraceLasts};

use base_types::{HostId, Items, NoMemory};
use std::alloc::Global;
use std::marker::Model;
use token_types::{Token, TokenId};

/// The grace period of a server in an epoch, after a restart. Contracts see the epoch, and the hosts that are
/// awaited: those of the server's host list when it restarted that haven't claimed their tokens again since, haven't
/// ended and aren't down.
#[derive(Drop)]
pub struct Recovery {
    epoch: u64,
    awaited: Items<HostId>,
}

impl Model for Recovery {
    ghost use Rattle.token_reclaim.specs.Recoveries.{Recovering};

    ghost Value = { Recovering };

    ghost view = { λ r. record { epoch = r.epoch; awaited = r.awaited } };
}

impl Recovery {
    /// The grace period of an epoch that begins with these hosts on the host list. The only error is that memory ran
    /// out.
    pub fn new(alloc: Global, epoch: u64, hosts: &[HostId]) -> Result<Recovery, NoMemory>
        ensures { IfOk result (λ recovery. recovery ≡ record { epoch = epoch; awaited = hosts.now }) }
    {
        Ok(Recovery {
            epoch,
            awaited: Items::from_slice(alloc, hosts)?,
        })
    }

    /// The epoch whose grace period this is. It takes no memory.
    pub fn epoch(&self) -> u64
        ensures { result ≡ self.now.epoch }
    {
        self.epoch
    }

    /// Takes a claim of a host, which has reclaimed by its first one: it is awaited no longer. It answers the tokens
    /// to be admitted: all that the claim names but for those that a give-back or a return of the host names which
    /// was taken in this epoch before the claim, and whose numbers are handed in. So a claim that is asked again with
    /// the same numbers is answered the same. A host that isn't awaited may claim, too. The only error is that memory
    /// ran out; then nothing changes.
    pub fn claim(
        &mut self,
        host: HostId,
        tokens: &[Token],
        given_up: &[TokenId],
    ) -> Result<Items<Token>, NoMemory>
        ensures admitted { IfOk result (λ admitted. admitted ≡ to_admit given_up.now tokens.now) }
        ensures after { OnOk result (self.new ≡ without self.old host) }
        ensures err { OnErr result (self.new ≡ self.old) }
    {
        let mut admitted = Items::from_slice(self.awaited.alloc(), tokens)?;
        leave_out(&mut admitted, given_up);
        drop_host(&mut self.awaited, host);
        Ok(admitted)
    }

    /// A host has ended or is down: it is awaited no longer. It takes no memory.
    pub fn host_gone(&mut self, host: HostId)
        ensures { self.new ≡ without self.old host }
    {
        drop_host(&mut self.awaited, host);
    }

    /// Whether the grace period lasts still: exactly while a host is awaited. It takes no memory.
    pub fn is_grace(&self) -> bool
        ensures { IsTrue result ↔ (0 < length self.now.awaited) }
    {
        self.awaited.len() > 0
    }

    /// Whether a host is awaited. It takes no memory.
    pub fn is_awaited(&self, host: HostId) -> bool
        ensures { result ≡ list_any (λ other. other.0 == host.0) self.now.awaited }
    {
        self.awaited.as_slice().iter().any(|other| *other == host)
    }
}

/// A law of the grace period: whatever the order in which hosts claim, end and go down, a host is awaited exactly
/// while it was on the list that the period began with and none of these has been of it.
#[tactic(auto, using(crate::proofs::Waiting::grace_lasts_lem))]
pub fn grace_lasts()
    ensures { GraceLasts }
{}

// Takes the tokens with these numbers out.
fn leave_out(tokens: &mut Items<Token>, given_up: &[TokenId])
    ensures { tokens.new ≡ to_admit given_up.now tokens.old }
{
    tokens.retain(|token| !is_among(given_up, token.id));
}

fn is_among(ids: &[TokenId], id: TokenId) -> bool
    ensures { result ≡ is_among ids.now id }
{
    ids.iter().any(|other| *other == id)
}

fn drop_host(hosts: &mut Items<HostId>, host: HostId)
    ensures { hosts.new ≡ filter (λ other. not (other.0 == host.0)) hosts.old }
{
    hosts.retain(|other| *other != host);
}
