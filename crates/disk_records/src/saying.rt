// Values of pages, made of a store's record, and back.
ghost use Rattle.std.specs.Prelude.{◌≡◌, IfOk, length, map};
ghost use Rattle.disk_records.specs.Record.{stay_of as stay_in};
ghost use Rattle.disk_records.specs.Said.{stay_said, header_said, host_said, taken_said, facts_said};

use base_types::{NoMemory, Plain, ServerId};
use disk_pages::{HOSTS, ServerFacts, SlotHeader, SlotState, TakenShip};
use store_state::{Holding, HostState, Stay, StoreState};

/// How a fileset stays, by the header of its slot; of a slot without a fileset that it is gone.
pub fn stay_of(header: &SlotHeader) -> Stay
    ensures { result ≡ stay_in header.now }
{
    let other = ServerId(header.other);
    match header.state {
        SlotState::Writable => Stay::Writable,
        SlotState::Clone => Stay::Clone,
        SlotState::Leaving => Stay::Leaving {
            to: other,
            ship: header.ship,
        },
        SlotState::Arriving => Stay::Arriving {
            from: other,
            ship: header.ship,
            parts: header.parts,
        },
        SlotState::Gone | SlotState::Free | SlotState::Unknown => Stay::Gone { to: other },
    }
}

// What a header says of a stay: the slot's state, the other server, the ship, and how many parts were taken.
struct Said {
    state: SlotState,
    other: u8,
    ship: u64,
    parts: u32,
}

fn said_of(stay: Stay) -> Said
    ensures state { result.state ≡ (stay_said stay).state }
    ensures other { result.other ≡ (stay_said stay).other }
    ensures ship { result.ship ≡ (stay_said stay).ship }
    ensures parts { result.parts ≡ (stay_said stay).parts }
{
    let (state, other, ship, parts) = match stay {
        Stay::Writable => (SlotState::Writable, 0, 0, 0),
        Stay::Clone => (SlotState::Clone, 0, 0, 0),
        Stay::Leaving { to, ship } => (SlotState::Leaving, to.0, ship, 0),
        Stay::Arriving { from, ship, parts } => (SlotState::Arriving, from.0, ship, parts),
        Stay::Gone { to } => (SlotState::Gone, to.0, 0, 0),
    };
    Said {
        state,
        other,
        ship,
        parts,
    }
}

/// The header of a slot with this holding. `NoMemory` comes where memory runs out.
pub fn header_of(holding: &Holding) -> Result<SlotHeader, NoMemory>
    ensures { IfOk result (λ header. header ≡ header_said holding.now) }
{
    let Said {
        state,
        other,
        ship,
        parts,
    } = said_of(holding.stay);
    Ok(SlotHeader {
        state,
        id: holding.fileset.id,
        objects: holding.fileset.objects,
        name: holding.fileset.name.copy()?,
        other,
        moves: holding.fileset.moves,
        ship,
        parts,
    })
}

// The number of what is known of a host.
fn host_number(known: HostState) -> u8
    ensures { result ≡ host_said known }
{
    match known {
        HostState::Unknown => 0,
        HostState::Live => 1,
        HostState::IsDown => 2,
        HostState::Ended => 3,
    }
}

// Those of all hosts.
fn host_numbers(hosts: &[HostState]) -> [u8; HOSTS]
    requires { length hosts.now ≡ 17 }
    ensures { result ≡ map host_said hosts.now }
{
    let mut numbers = [0; HOSTS];
    for (host, known) in hosts.iter().enumerate() {
        numbers[host] = host_number(*known);
    }
    numbers
}

fn taken_of(taken: store_state::TakenShip) -> TakenShip
    ensures { result ≡ taken_said taken }
{
    TakenShip {
        ship: taken.ship,
        code: taken.code,
    }
}

/// The facts on the server's page, in format 2. A record of a store tells of 17 hosts and of 4 servers.
pub fn facts_of(state: &StoreState) -> ServerFacts
    requires hosts { length state.now.hosts ≡ 17 }
    requires taken { length state.now.taken ≡ 4 }
    ensures { result ≡ facts_said state.now }
{
    ServerFacts {
        epoch: state.epoch,
        next: state.next,
        hosts: host_numbers(state.hosts.as_slice()),
        format: 2,
        ship: state.ship,
        taken: [
            taken_of(*state.taken.get(0)),
            taken_of(*state.taken.get(1)),
            taken_of(*state.taken.get(2)),
            taken_of(*state.taken.get(3)),
        ],
    }
}
