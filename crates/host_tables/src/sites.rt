ghost use Rattle.std.specs.Prelude.{◌≡◌, IfOk, option_copied};
ghost use Rattle.std.specs.List.{find, position};
ghost use Rattle.host_tables.specs.Tables.{fresh_site, site_at};
ghost use Rattle.host_tables.specs.Updates.{fresh_sites, home_at, is_site, with_site};

use base_types::{FilesetId, Items, NoMemory, ServerId};
use std::alloc::Global;

/// What a host knows of a server, and has told it.
#[derive(Clone, Copy)]
pub struct Site {
    pub server: ServerId,
    /// The present epoch, 0 at first.
    pub epoch: u64,
    pub greeted: bool,
    pub welcome: bool,
    /// Whether a claim of the present epoch waits.
    pub claimed: bool,
    pub said_bye: bool,
    pub has_bye: bool,
}

/// Servers that the host knows nothing of, from the first on. The only error is that memory ran out.
pub fn new_sites(alloc: Global, servers: u8) -> Result<Items<Site>, NoMemory>
    ensures { IfOk result (λ sites. sites ≡ fresh_sites servers) }
{
    let mut sites = Items::new(alloc);
    for index in 0..servers {
        sites.push(unknown(ServerId(index.saturating_add(1))))?;
    }
    Ok(sites)
}

fn unknown(server: ServerId) -> Site
    ensures { result ≡ fresh_site server }
{
    Site {
        server,
        epoch: 0,
        greeted: false,
        welcome: false,
        claimed: false,
        said_bye: false,
        has_bye: false,
    }
}

/// What the host knows of a server.
pub fn site_at(sites: &[Site], server: ServerId) -> Site
    ensures { result ≡ site_at sites.now server }
{
    match known_at(sites, server) {
        Some(site) => *site,
        None => unknown(server),
    }
}

fn known_at(sites: &[Site], server: ServerId) -> Option<&Site>
    ensures { option_copied result ≡ find (is_site server) sites.now }
{
    sites.iter().find(|site| site.server == server)
}

/// Makes this what the host knows of a server; nothing changes where the server isn't declared.
pub fn put_site(sites: &mut Items<Site>, site: Site)
    ensures { sites.new ≡ with_site site sites.old }
{
    if let Some(place) = place_of(sites.as_slice(), site.server) {
        sites.put(place, site);
    }
}

fn place_of(sites: &[Site], server: ServerId) -> Option<usize>
    ensures { result ≡ position (is_site server) sites.now }
{
    sites.iter().position(|site| site.server == server)
}

/// The server at which a fileset was made.
pub fn home(fileset: FilesetId) -> ServerId
    ensures { result ≡ home_at fileset }
{
    ServerId((fileset.0 / 65_536 % 256) as u8)
}
