ghost use Rattle.std.specs.Prelude.{◌≡◌, ◌≤◌, ◌++◌, length, OnOk, IfOk};
ghost use Rattle.message_parts.specs.Reading.{Gives};
ghost use Rattle.message_parts.specs.Objects.{spell_lists, spell_pieces, piece_in_at, pieces_from, pieces_at};
ghost use Rattle.message_parts.specs.Reading.{items_at};
ghost use Rattle.message_parts.specs.Access.{access_at};

use crate::name::{bytes_at, write_bytes};
use crate::number::whole_at;
use crate::part::{Part, Stopped, items_at, items_in, write_items, write_short};
use base_types::{AccessList, FILE_BYTES_MAX, Items, Name, NoMemory};
use std::alloc::Global;
use tree_calls::{DirEntry, Piece, Status};

/// Reads a piece of at most so many bytes.
#[tactic(auto, unfolding(crate::specs::Objects::piece_in_at))]
fn piece_in_at(alloc: Global, bytes: &[u8], room: u32) -> Result<(Piece, &[u8]), Stopped>
    ensures piece { Gives (λ x. (x.0, x.1.now)) result (piece_in_at room bytes.now) }
    ensures room { IfOk result (λ x. length x.0.bytes ≤ room) }
{
    let (from, rest) = u32::read(alloc, bytes)?;
    let (bytes, rest) = bytes_at(alloc, rest, room)?;
    Ok((Piece { from, bytes }, rest))
}

impl Part for Piece {
    const BYTES_MIN: usize = 8;

    ghost use Rattle.message_parts.specs.Objects.{spell_piece, piece_at};

    ghost spelled = { spell_piece };

    ghost reading = { piece_at };

    #[tactic(auto, unfolding(crate::specs::Objects::spell_piece_in))]
    fn write(&self, out: &mut Items<u8>) -> Result<(), NoMemory> {
        self.from.write(out)?;
        write_bytes(&self.bytes, out)
    }

    fn read(alloc: Global, bytes: &[u8]) -> Result<(Piece, &[u8]), Stopped> {
        piece_in_at(alloc, bytes, FILE_BYTES_MAX)
    }
}

/// Writes pieces behind their count of two bytes.
#[tactic(auto, unfolding(crate::specs::Objects::spell_pieces))]
pub fn write_pieces(pieces: &Items<Piece>, out: &mut Items<u8>) -> Result<(), NoMemory>
    ensures { OnOk result (out.new ≡ out.old ++ (spell_pieces pieces.now).bytes) }
{
    write_short(pieces, out)
}

/// Reads pieces behind their count of two bytes. Together they have at most as many bytes as a file can have.
#[tactic(auto, unfolding(crate::specs::Objects::pieces_at))]
pub fn pieces_at(alloc: Global, bytes: &[u8]) -> Result<(Items<Piece>, &[u8]), Stopped>
    ensures { Gives (λ x. (x.0, x.1.now)) result (pieces_at bytes.now) }
{
    let (count, rest) = whole_at(bytes, 2)?;
    pieces_from(alloc, FILE_BYTES_MAX, count, rest)
}

/// Reads so many pieces, which together have at most so many bytes.
fn pieces_from(
    alloc: Global,
    room: u32,
    count: u64,
    bytes: &[u8],
) -> Result<(Items<Piece>, &[u8]), Stopped>
    ensures { Gives (λ x. (x.0, x.1.now)) result (pieces_from room count bytes.now) }
{
    let mut pieces = items_in(alloc, count, bytes)?;
    let mut left = room;
    let mut rest = bytes;
    for _ in 0..count {
        let (piece, behind) = piece_in_at(alloc, rest, left)?;
        left -= piece.bytes.len() as u32;
        pieces.push(piece)?;
        rest = behind;
    }
    Ok((pieces, rest))
}

impl Part for DirEntry {
    const BYTES_MIN: usize = 10;

    ghost use Rattle.message_parts.specs.Objects.{spell_entry, entry_at};

    ghost spelled = { spell_entry };

    ghost reading = { entry_at };

    #[tactic(auto, unfolding(crate::specs::Objects::spell_entry))]
    fn write(&self, out: &mut Items<u8>) -> Result<(), NoMemory> {
        self.name.write(out)?;
        self.anode.write(out)?;
        self.unique.write(out)
    }

    #[tactic(auto, unfolding(crate::specs::Objects::entry_at))]
    fn read(alloc: Global, bytes: &[u8]) -> Result<(DirEntry, &[u8]), Stopped> {
        let (name, rest) = Name::read(alloc, bytes)?;
        let (anode, rest) = u32::read(alloc, rest)?;
        let (unique, rest) = u32::read(alloc, rest)?;
        Ok((
            DirEntry {
                name,
                anode,
                unique,
            },
            rest,
        ))
    }
}

impl Part for Status {
    const BYTES_MIN: usize = 17;

    ghost use Rattle.message_parts.specs.Objects.{spell_status, status_at};

    ghost spelled = { spell_status };

    ghost reading = { status_at };

    #[tactic(auto, unfolding(crate::specs::Objects::spell_status, crate::specs::Objects::spell_lists))]
    fn write(&self, out: &mut Items<u8>) -> Result<(), NoMemory> {
        self.dir.write(out)?;
        self.read_only.write(out)?;
        self.length.write(out)?;
        self.owner.write(out)?;
        self.group.write(out)?;
        write_items(self.lists.as_slice(), out)
    }

    #[tactic(auto, unfolding(crate::specs::Objects::status_at))]
    fn read(alloc: Global, bytes: &[u8]) -> Result<(Status, &[u8]), Stopped> {
        let (dir, rest) = bool::read(alloc, bytes)?;
        let (read_only, rest) = bool::read(alloc, rest)?;
        let (length, rest) = u32::read(alloc, rest)?;
        let (owner, rest) = Name::read(alloc, rest)?;
        let (group, rest) = Name::read(alloc, rest)?;
        let (lists, rest) = items_at(alloc, if dir { 3 } else { 1 }, rest)?;
        Ok((
            Status {
                dir,
                read_only,
                length,
                owner,
                group,
                lists,
            },
            rest,
        ))
    }
}
