// Pages of call numbers.
ghost use Rattle.std.specs.Prelude.{◌≡◌, ◌≤◌, ◌<◌, ◌+◌, ◌*◌, ℕ};
ghost use Rattle.disk_pages.specs.Words.{each_below};
ghost use Rattle.disk_pages.specs.Numbers.{is_record, is_numbers_page as is_numbers, record_at as record_there};

use crate::server::{HOSTS, is_code};
use crate::words::are_zero;
use disk_layout::{PAGE, u64_at};
use tree_calls::Record;

// Bytes of what is kept of one host.
const RECORD: usize = 24;

const CODE_AT: usize = 16;

const RIGHT_AT: usize = 17;

#[tactic(auto, unfolding(crate::specs::Numbers::is_record))]
fn is_record(page: &[u8; PAGE], at: usize) -> bool
    requires { at + 24 ≤ 512 }
    ensures { result ≡ is_record at page.now }
{
    is_code(page[at + CODE_AT]) && page[at + RIGHT_AT] < 64 && are_zero(page, at + 18, 6)
}

fn are_records(page: &[u8; PAGE]) -> bool
    ensures { result ≡ each_below (λ (host : ℕ). is_record (24 * host) page.now) 17 }
{
    for host in 0..HOSTS {
        if !is_record(page, RECORD * host) {
            return false;
        }
    }
    true
}

/// Whether a page holds call numbers.
#[tactic(auto, unfolding(crate::specs::Numbers::is_numbers_page))]
pub fn is_numbers_page(page: &[u8; PAGE]) -> bool
    ensures { result ≡ is_numbers page.now }
{
    are_records(page) && are_zero(page, RECORD * HOSTS, 104)
}

/// What a page of call numbers keeps of a host's requests.
pub fn record_at(page: &[u8; PAGE], host: u8) -> Record
    requires { host < 17 }
    ensures { result ≡ record_there (24 * host) page.now }
{
    let at = RECORD * host as usize;
    Record {
        change: u64_at(page, at),
        give: u64_at(page, at + 8),
        code: page[at + CODE_AT],
        right: page[at + RIGHT_AT],
    }
}
