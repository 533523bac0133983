// What the server's pages say.
ghost use Rattle.std.specs.Prelude.{◌≡◌, ◌≤◌, ◌<◌, ◌*◌, length, map, take, IfOk};
ghost use Rattle.disk_image.specs.Image.{records_of};
ghost use Rattle.disk_records.specs.Record.{host_known, ship_taken};

use base_types::{Items, NoMemory};
use disk_layout::PAGE;
use disk_pages::{HOSTS, ServerFacts, record_at};
use std::alloc::Global;
use store_state::{HostState, TakenShip};
use tree_calls::Record;

/// What a page of call numbers keeps of all hosts.
pub(crate) fn records_in(alloc: Global, page: &[u8; PAGE]) -> Result<Items<Record>, NoMemory>
    ensures { IfOk result (λ records. records ≡ records_of page.now) }
{
    let mut records = Items::new(alloc);
    for host in 0..HOSTS as u8 {
        records.push(record_at(page, host))?;
    }
    Ok(records)
}

fn known_host(number: u8) -> HostState
    ensures { result ≡ host_known number }
{
    match number {
        0 => HostState::Unknown,
        1 => HostState::Live,
        2 => HostState::IsDown,
        _ => HostState::Ended,
    }
}

/// What is known of hosts.
pub(crate) fn hosts_in(alloc: Global, facts: &ServerFacts) -> Result<Items<HostState>, NoMemory>
    ensures { IfOk result (λ hosts. hosts ≡ map host_known facts.now.hosts) }
{
    let mut hosts = Items::new(alloc);
    for number in &facts.hosts {
        hosts.push(known_host(*number))?;
    }
    Ok(hosts)
}

/// What was taken from each server.
pub(crate) fn ships_in(
    alloc: Global,
    all: &[disk_pages::TakenShip],
) -> Result<Items<TakenShip>, NoMemory>
    ensures { IfOk result (λ ships. ships ≡ map ship_taken all.now) }
{
    let mut ships = Items::new(alloc);
    for taken in all {
        ships.push(TakenShip {
            ship: taken.ship,
            code: taken.code,
        })?;
    }
    Ok(ships)
}
