ghost use Rattle.std.specs.Prelude.{◌≡◌, ◌<◌, ◌^◌, ◌-◌, OnOk};
ghost use Rattle.server_tables.specs.Greetings.{listing};
ghost use Rattle.server_tables.specs.Listing.{has_host, is_alone, is_live, leaving, next_epoch, no_grace, no_hosts};
ghost use Rattle.server_tables.specs.Listing.{reclaiming, stopping};

use base_types::{HostId, Items, NoMemory};
use std::alloc::Global;

/// What a server knows of hosts. All but the epoch and the two lists of the present epoch outlives a restart.
#[derive(Drop)]
pub struct Hosts {
    pub epoch: u64,
    /// The hosts that came on the list.
    pub listed: Items<HostId>,
    pub down: Items<HostId>,
    /// The hosts that are down or have ended.
    pub away: Items<HostId>,
    /// Those that came on the list in this epoch.
    pub listed_now: Items<HostId>,
    /// Those that have reclaimed in this epoch, or came on the list in it.
    pub reclaimed: Items<HostId>,
}

impl Hosts {
    /// No hosts, in an epoch. It takes no memory.
    pub(crate) fn new(alloc: Global, epoch: u64) -> Hosts
        ensures { result ≡ no_hosts epoch }
    {
        Hosts {
            epoch,
            listed: Items::new(alloc),
            down: Items::new(alloc),
            away: Items::new(alloc),
            listed_now: Items::new(alloc),
            reclaimed: Items::new(alloc),
        }
    }

    /// Whether a host came on the list.
    pub fn is_listed(&self, host: HostId) -> bool
        ensures { result ≡ has_host self.now.listed host }
    {
        has_host(&self.listed, host)
    }

    /// Whether a host has stopped.
    pub fn is_down(&self, host: HostId) -> bool
        ensures { result ≡ has_host self.now.down host }
    {
        has_host(&self.down, host)
    }

    /// Whether a host is on the list, and neither down nor ended.
    pub fn is_live(&self, host: HostId) -> bool
        ensures { result ≡ is_live self.now host }
    {
        self.is_listed(host) && !has_host(&self.away, host)
    }

    /// Whether a host came on the list in this epoch.
    pub fn is_listed_now(&self, host: HostId) -> bool
        ensures { result ≡ has_host self.now.listed_now host }
    {
        has_host(&self.listed_now, host)
    }

    /// Whether a host has reclaimed in this epoch, or came on the list in it.
    pub fn has_reclaimed(&self, host: HostId) -> bool
        ensures { result ≡ has_host self.now.reclaimed host }
    {
        has_host(&self.reclaimed, host)
    }

    /// Whether no grace period lasts: each live host has reclaimed.
    pub fn no_grace(&self) -> bool
        ensures { result ≡ no_grace self.now }
    {
        self.listed.as_slice().iter().all(|host| has_host(&self.away, *host)
            || has_host(&self.reclaimed, *host))
    }

    /// Whether no listed host is live.
    pub fn is_alone(&self) -> bool
        ensures { result ≡ is_alone self.now }
    {
        self.listed
            .as_slice()
            .iter()
            .all(|host| has_host(&self.away, *host))
    }

    /// A host comes on the list, in this epoch.
    pub(crate) fn list(&mut self, host: HostId) -> Result<(), NoMemory>
        ensures { OnOk result (self.new ≡ listing self.old host) }
    {
        self.listed.push(host)?;
        self.listed_now.push(host)?;
        self.reclaimed.push(host)
    }

    /// A host has reclaimed.
    pub(crate) fn reclaim(&mut self, host: HostId) -> Result<(), NoMemory>
        ensures { OnOk result (self.new ≡ reclaiming self.old host) }
    {
        self.reclaimed.push(host)
    }

    /// A host is down or has ended.
    #[tactic(auto, unfolding(crate::specs::Listing::leaving))]
    pub(crate) fn leave(&mut self, host: HostId) -> Result<(), NoMemory>
        ensures { OnOk result (self.new ≡ leaving self.old host) }
    {
        if has_host(&self.away, host) {
            return Ok(());
        }
        self.away.push(host)
    }

    /// A host has stopped.
    pub fn stop(&mut self, host: HostId) -> Result<(), NoMemory>
        ensures { OnOk result (self.new ≡ stopping self.old host) }
    {
        self.down.push(host)
    }

    /// The next epoch begins. It takes no memory.
    pub(crate) fn begin(&mut self)
        requires { self.old.epoch < 2 ^ 64 - 1 }
        ensures { self.new ≡ next_epoch self.old }
    {
        self.epoch += 1;
        self.listed_now.truncate(0);
        self.reclaimed.truncate(0);
    }
}

/// Whether a host is among some.
fn has_host(hosts: &Items<HostId>, host: HostId) -> bool
    ensures { result ≡ has_host hosts.now host }
{
    hosts.as_slice().iter().any(|other| *other == host)
}
