ghost use Rattle.std.specs.Prelude.{◌≡◌};
ghost use Rattle.host_tables.specs.Tables.{site_at};

use crate::calls::{Home, Request};
use crate::files::Floor;
use crate::numbers::{Changed, Fetched};
use crate::sites::{Site, site_at};
use base_types::{Fid, HostId, Items, ServerId, User};
use host_cache::Cache;
use host_dirty::Dirty;
use host_gives::{Gives, Leavings};
use host_labels::Uses;
use host_lengths::Lengths;
use run_rules::{Asked, Labelled};
use std::alloc::Global;

/// What a host has, and what it knows of itself.
#[derive(Drop)]
pub struct Tables {
    pub alloc: Global,
    pub host: HostId,
    /// The user for whom it acts.
    pub user: User,
    /// How many tokens it caches that aren't in use, at most.
    pub limit: u32,
    /// The tokens that it holds, and what they show.
    pub cache: Cache,
    /// The bytes that it has changed and not given back. Lengths are in a table of their own.
    pub dirty: Dirty,
    pub lengths: Lengths,
    /// The labels in use.
    pub uses: Uses,
    /// The give-backs that it made and doesn't know as applied.
    pub gives: Gives,
    /// The tokens that they name.
    pub leaving: Leavings,
    /// The label whose use one of them ends.
    pub ending: Option<Labelled>,
    pub floors: Items<Floor>,
    /// Of each server, from the first on.
    pub sites: Items<Site>,
    /// The one request that is outstanding.
    pub request: Option<Request>,
    pub fetched: Items<Fetched>,
    pub changed: Items<Changed>,
    pub homes: Items<Home>,
    /// The files whose last token of the status a Revoke took since the call was begun.
    pub lost: Items<Fid>,
    /// The open call.
    pub call: Option<Asked>,
    /// How many calls were begun.
    pub begun: u32,
}

impl Tables {
    /// What the host knows of a server.
    pub fn site(&self, server: ServerId) -> Site
        ensures { result ≡ site_at self.now.sites server }
    {
        site_at(self.sites.as_slice(), server)
    }
}
