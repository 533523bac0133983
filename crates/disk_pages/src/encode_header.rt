// Headers of filesets' slots.
ghost use Rattle.std.specs.Prelude.{◌≡◌, ℕ, List, true, IfOk};
ghost use Rattle.base_types.specs.Image.{byte_at};
ghost use Rattle.disk_pages.specs.Words.{is_name_at};
ghost use Rattle.disk_pages.specs.Header.{state_for, is_header, header_of};
ghost use Rattle.disk_pages.specs.Server.{server_of};
ghost use Rattle.disk_pages.specs.Sound.{is_sound_header};

use crate::fields::{put_byte, put_name};
use crate::header::{SlotHeader, SlotState, state_of};
use crate::words::name_at;
use base_types::{FilesetId, Name, NoMemory};
use disk_layout::{PAGE, put_u32, put_u64, u32_at, u64_at};
use std::alloc::Global;

// Where parts of the page stand, in bytes.
const ID_AT: usize = 4;

const OBJECTS_AT: usize = 8;

const NAME_AT: usize = 12;

const OTHER_AT: usize = 73;

const MOVES_AT: usize = 76;

const SHIP_AT: usize = 80;

const PARTS_AT: usize = 88;

// The byte of a state.
fn state_byte(state: SlotState) -> u8
    ensures { state_for 2 result ≡ state }
{
    match state {
        SlotState::Free => 0,
        SlotState::Writable => 1,
        SlotState::Clone => 2,
        SlotState::Leaving => 3,
        SlotState::Arriving => 4,
        SlotState::Gone => 5,
        SlotState::Unknown => 6,
    }
}

/// The page of a slot's header, in format 2. It is the header of a fileset at a server of that format exactly where it
/// is sound there: the state is that of a fileset, the id is one of a server 1 to 4 and was given where that is this
/// server, its objects are 1 to 64, and what it says of moves fits the state.
pub fn header_page(header: &SlotHeader) -> [u8; PAGE]
    ensures header { (server : List ℕ) → byte_at server 29 ≡ 2 → header_of server result ≡ header.now }
    ensures page { (home : ℕ) (server : List ℕ) → byte_at server 29 ≡ 2
        → is_header home server result ≡ is_sound_header home (server_of server) header.now }
{
    let mut page = [0; PAGE];
    put_byte(&mut page, 0, state_byte(header.state));
    put_u32(&mut page, ID_AT, header.id.0);
    put_u32(&mut page, OBJECTS_AT, header.objects);
    put_name(&mut page, NAME_AT, &header.name);
    put_byte(&mut page, OTHER_AT, header.other);
    put_u32(&mut page, MOVES_AT, header.moves);
    put_u64(&mut page, SHIP_AT, header.ship);
    put_u32(&mut page, PARTS_AT, header.parts);
    page
}

/// What the header of a slot says, by the page of its server. A name stands in it, as in each header of a fileset.
pub fn read_header(
    alloc: Global,
    server: &[u8; PAGE],
    page: &[u8; PAGE],
) -> Result<SlotHeader, NoMemory>
    requires { is_name_at 12 page.now ≡ true }
    ensures { IfOk result (λ header. header ≡ header_of server.now page.now) }
{
    let Ok(name) = Name::new(alloc, name_at(page, NAME_AT)) else {
        return Err(NoMemory);
    };
    Ok(SlotHeader {
        state: state_of(server, page),
        id: FilesetId(u32_at(page, ID_AT)),
        objects: u32_at(page, OBJECTS_AT),
        name,
        other: page[OTHER_AT],
        moves: u32_at(page, MOVES_AT),
        ship: u64_at(page, SHIP_AT),
        parts: u32_at(page, PARTS_AT),
    })
}
