// Headers of filesets' slots.
ghost use Rattle.std.specs.Prelude.{◌≡◌, ◌≤◌, ◌+◌, ℕ, Bool};
ghost use Rattle.base_types.specs.Image.{byte_at};
ghost use Rattle.disk_pages.specs.Header.{
  state_for,
  state_of as state_in,
  is_taken_slot,
  is_limit,
  is_id,
  is_other,
  are_moves,
  is_behind,
  is_header as is_header_page,
};

use crate::words::{are_zero, is_name_at};
use base_types::{FilesetId, Name, OBJECTS_MAX};
use disk_layout::{PAGE, u32_at, u64_at};

/// The state of a slot.
#[derive(Clone, Copy, PartialEq, Eq)]
pub enum SlotState {
    /// It has no fileset.
    Free,
    /// A writable fileset.
    Writable,
    /// A clone.
    Clone,
    /// A fileset that is on its way to another server.
    Leaving,
    /// A fileset that comes from another server, of which some parts have come.
    Arriving,
    /// A fileset that left for another server.
    Gone,
    /// No state of this format.
    Unknown,
}

/// What the header of a slot says.
#[derive(Drop)]
pub struct SlotHeader {
    /// The state.
    pub state: SlotState,
    /// The fileset.
    pub id: FilesetId,
    /// How many objects the fileset may have.
    pub objects: u32,
    /// The name.
    pub name: Name,
    /// The other server of a fileset that leaves, arrives or is gone, else 0.
    pub other: u8,
    /// How often it moved.
    pub moves: u32,
    /// The ship number of one that leaves or arrives, else 0.
    pub ship: u64,
    /// How many parts were taken of one that arrives, else 0.
    pub parts: u32,
}

// Where parts of the page stand, in bytes.
const ID_AT: usize = 4;

const OBJECTS_AT: usize = 8;

const NAME_AT: usize = 12;

const OTHER_AT: usize = 73;

const SHIP_AT: usize = 80;

const PARTS_AT: usize = 88;

// Where the format and ship numbers stand in the server's page.
const FORMAT_AT: usize = 29;

const GIVEN_AT: usize = 32;

const NEXT_AT: usize = 8;

// Numbers of filesets of one server, and one.
const NUMBERS: u32 = 65_536;

// The state of a slot, by its byte and the format's.
fn state_for(format: u8, byte: u8) -> SlotState
    ensures { result ≡ state_for format byte }
{
    match byte {
        0 => SlotState::Free,
        1 => SlotState::Writable,
        2 => SlotState::Clone,
        _ if format == 0 => SlotState::Unknown,
        3 => SlotState::Leaving,
        4 => SlotState::Arriving,
        5 => SlotState::Gone,
        _ => SlotState::Unknown,
    }
}

/// The state of a slot with this header, by the page of its server.
pub fn state_of(server: &[u8; PAGE], page: &[u8; PAGE]) -> SlotState
    ensures { result ≡ state_in server.now page.now }
{
    state_for(server[FORMAT_AT], page[0])
}

/// Whether a slot in this state has a fileset, which may be on its way or gone.
pub fn is_taken_slot(state: SlotState) -> bool
    ensures { result ≡ is_taken_slot state }
{
    !matches!(state, SlotState::Free | SlotState::Unknown)
}

/// Whether a fileset may have so many objects.
pub fn is_limit(objects: u32) -> bool
    ensures { result ≡ is_limit objects }
{
    1 <= objects && objects <= OBJECTS_MAX
}

fn is_id(home: u8, next: u32, id: u32) -> bool
    ensures { result ≡ is_id home next id }
{
    let server = id / NUMBERS;
    let number = id % NUMBERS;
    1 <= server && server <= 4 && 1 <= number && (server != u32::from(home) || number < next)
}

fn is_other(home: u8, other: u8) -> bool
    ensures { result ≡ is_other home other }
{
    1 <= other && other <= 4 && other != home
}

fn are_moves(home: u8, server: &[u8; PAGE], page: &[u8; PAGE], state: SlotState) -> bool
    ensures { result ≡ are_moves home server.now page.now state }
{
    let other = page[OTHER_AT];
    let parts = u32_at(page, PARTS_AT);
    match state {
        SlotState::Leaving => {
            is_other(home, other)
                && u64_at(page, SHIP_AT) <= u64_at(server, GIVEN_AT)
                && are_zero(page, PARTS_AT, 4)
        }
        SlotState::Arriving => {
            is_other(home, other) && 1 <= parts && parts <= u32_at(page, OBJECTS_AT)
        }
        SlotState::Gone => is_other(home, other) && are_zero(page, SHIP_AT, 12),
        SlotState::Free | SlotState::Writable | SlotState::Clone | SlotState::Unknown => {
            are_zero(page, OTHER_AT, 1) && are_zero(page, SHIP_AT, 12)
        }
    }
}

fn is_behind(home: u8, server: &[u8; PAGE], page: &[u8; PAGE]) -> bool
    ensures { result ≡ is_behind home server.now page.now }
{
    if server[FORMAT_AT] == 0 {
        return are_zero(page, OTHER_AT, 439);
    }
    are_zero(page, 74, 2)
        && are_moves(home, server, page, state_of(server, page))
        && are_zero(page, 92, 420)
}

/// Whether a page is the header of a fileset at a server, by the server's page.
#[tactic(auto, unfolding(crate::specs::Header::is_header))]
pub fn is_header(home: u8, server: &[u8; PAGE], page: &[u8; PAGE]) -> bool
    ensures { result ≡ is_header_page home server.now page.now }
{
    is_taken_slot(state_of(server, page))
        && are_zero(page, 1, 3)
        && is_id(home, u32_at(server, NEXT_AT), u32_at(page, ID_AT))
        && is_limit(u32_at(page, OBJECTS_AT))
        && is_name_at(page, NAME_AT)
        && is_behind(home, server, page)
}
