// The page of a server.
ghost use Rattle.std.specs.Prelude.{◌≡◌, ◌≤◌, ◌+◌, ◌&&◌, nat_le, ℕ};
ghost use Rattle.std.specs.List.{list_all};
ghost use Rattle.base_types.specs.Image.{byte_at, bytes_from};
ghost use Rattle.disk_pages.specs.Server.{
  is_code,
  is_taken,
  is_rest,
  is_server_page as is_server,
  taken_at,
  server_of as facts_in,
};

use crate::words::{are_zero, piece};
use disk_layout::{PAGE, u32_at, u64_at};

// The last code of a reply: those of refusals are 1 to 21.
const CODE_MAX: u8 = 21;

const HOST_STATE_MAX: u8 = 3;

// Where parts of the page stand, in bytes.
const NEXT_AT: usize = 8;

const HOSTS_AT: usize = 12;

const FORMAT_AT: usize = 29;

const SHIP_AT: usize = 32;

/// Hosts of which a server keeps the state: the setup host and 16 more.
pub const HOSTS: usize = 17;

/// What a server took last from another one.
#[derive(Clone, Copy)]
pub struct TakenShip {
    /// The ship number.
    pub ship: u64,
    /// The code of its reply, 0 where it was taken in, at most 21.
    pub code: u8,
}

/// What the page of a server says.
#[derive(Clone, Copy)]
pub struct ServerFacts {
    /// The epoch, which counts the server's starts.
    pub epoch: u64,
    /// The number of the next fileset that the server makes, 1 to 65,536.
    pub next: u32,
    /// The states of hosts 0 to 16: 0 unknown, 1 live, 2 down, 3 ended.
    pub hosts: [u8; HOSTS],
    /// 2 for format 2, and 0 for format 1.
    pub format: u8,
    /// The last ship number that the server gave.
    pub ship: u64,
    /// What was taken last from each server, 1 to 4.
    pub taken: [TakenShip; 4],
}

// Whether a code is that of a reply.
pub fn is_code(code: u8) -> bool
    ensures { result ≡ is_code code }
{
    code <= CODE_MAX
}

#[tactic(auto, unfolding(crate::specs::Server::is_taken))]
fn is_taken(page: &[u8; PAGE], at: usize) -> bool
    requires { at + 16 ≤ 512 }
    ensures { result ≡ is_taken at page.now }
{
    is_code(page[at + 8]) && are_zero(page, at + 9, 7)
}

fn are_taken(page: &[u8; PAGE]) -> bool
    ensures { result ≡ (is_taken 40 page.now && is_taken 56 page.now && is_taken 72 page.now
        && is_taken 88 page.now) }
{
    is_taken(page, 40) && is_taken(page, 56) && is_taken(page, 72) && is_taken(page, 88)
}

fn is_rest(page: &[u8; PAGE]) -> bool
    ensures { result ≡ is_rest page.now }
{
    if page[FORMAT_AT] == 0 {
        return are_zero(page, 30, 482);
    }
    page[FORMAT_AT] == 2 && are_zero(page, 30, 2) && are_taken(page) && are_zero(page, 104, 408)
}

fn are_hosts(page: &[u8; PAGE]) -> bool
    ensures { result ≡ list_all (λ (state : ℕ). nat_le state 3) (bytes_from page.now 12 17) }
{
    piece(page, HOSTS_AT, HOSTS)
        .iter()
        .all(|state| *state <= HOST_STATE_MAX)
}

/// Whether a page is that of a server.
#[tactic(auto, unfolding(crate::specs::Server::is_server_page))]
pub fn is_server_page(page: &[u8; PAGE]) -> bool
    ensures { result ≡ is_server page.now }
{
    let next = u32_at(page, NEXT_AT);
    1 <= next && next <= 65_536 && are_hosts(page) && is_rest(page)
}

fn taken_at(page: &[u8; PAGE], at: usize) -> TakenShip
    requires { at + 16 ≤ 512 }
    ensures { result ≡ taken_at at page.now }
{
    TakenShip {
        ship: u64_at(page, at),
        code: page[at + 8],
    }
}

fn hosts_in(page: &[u8; PAGE]) -> [u8; HOSTS]
    ensures { result ≡ bytes_from page.now 12 17 }
{
    let mut hosts = [0; HOSTS];
    hosts.copy_from_slice(piece(page, HOSTS_AT, HOSTS));
    hosts
}

/// What the page of a server says.
#[tactic(auto, unfolding(crate::specs::Server::server_of))]
pub fn server_of(page: &[u8; PAGE]) -> ServerFacts
    ensures { result ≡ facts_in page.now }
{
    ServerFacts {
        epoch: u64_at(page, 0),
        next: u32_at(page, NEXT_AT),
        hosts: hosts_in(page),
        format: page[FORMAT_AT],
        ship: u64_at(page, SHIP_AT),
        taken: [
            taken_at(page, 40),
            taken_at(page, 56),
            taken_at(page, 72),
            taken_at(page, 88),
        ],
    }
}
