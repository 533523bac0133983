// The page of a server.
ghost use Rattle.std.specs.Prelude.{◌≡◌};
ghost use Rattle.disk_pages.specs.Server.{is_server_page, server_of};
ghost use Rattle.disk_pages.specs.Sound.{are_facts};

use crate::fields::{put_byte, put_taken};
use crate::server::ServerFacts;
use disk_layout::{PAGE, put_bytes, put_u32, put_u64};

// Where parts of the page stand, in bytes.
const NEXT_AT: usize = 8;

const HOSTS_AT: usize = 12;

const FORMAT_AT: usize = 29;

const SHIP_AT: usize = 32;

/// The page of a server that says these facts, in format 2. It is a server's page exactly where they are sound: the
/// next fileset number is 1 to 65,536, the states of hosts are at most 3, and the codes of replies at most 21.
pub fn server_page(facts: &ServerFacts) -> [u8; PAGE]
    requires { facts.now.format ≡ 2 }
    ensures facts { server_of result ≡ facts.now }
    ensures page { is_server_page result ≡ are_facts facts.now }
{
    let mut page = [0; PAGE];
    put_u64(&mut page, 0, facts.epoch);
    put_u32(&mut page, NEXT_AT, facts.next);
    put_bytes(&mut page, HOSTS_AT, &facts.hosts);
    put_byte(&mut page, FORMAT_AT, facts.format);
    put_u64(&mut page, SHIP_AT, facts.ship);
    put_taken(&mut page, 40, facts.taken[0]);
    put_taken(&mut page, 56, facts.taken[1]);
    put_taken(&mut page, 72, facts.taken[2]);
    put_taken(&mut page, 88, facts.taken[3]);
    page
}
