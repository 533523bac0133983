ghost use Rattle.std.specs.Prelude.{◌≡◌, ◌++◌, OnOk};
ghost use Rattle.message_parts.specs.Reading.{Gives};
ghost use Rattle.message_spelling.specs.Bodies.{spell_mover, part_tag, part_fields, spell_part, spell_shipped};
ghost use Rattle.message_spelling.specs.Readings.{mover_at, head_at, object_at, part_of, part_at, shipped_at};

use base_types::{HostId, Items, Name, NoMemory, ServerId};
use message_calls::{call_at, reply_at, write_call, write_reply};
use message_parts::{
    Part, Stopped, number_at, pieces_at, push_number, short_at, write_pieces, write_short,
};
use message_types::Shipped;
use std::alloc::Global;
use tree_calls::{Mover, ShipPart};

/// Writes whose call a fileset moves for.
#[tactic(auto, unfolding(crate::specs::Bodies::spell_mover))]
fn write_mover(mover: &Mover, out: &mut Items<u8>) -> Result<(), NoMemory>
    ensures { OnOk result (out.new ≡ out.old ++ (spell_mover mover.now).bytes) }
{
    mover.host.write(out)?;
    mover.number.write(out)?;
    mover.k.write(out)?;
    write_call(&mover.call, out)
}

/// Reads whose call a fileset moves for.
#[tactic(auto, unfolding(crate::specs::Readings::mover_at))]
fn mover_at(alloc: Global, bytes: &[u8]) -> Result<(Mover, &[u8]), Stopped>
    ensures { Gives (λ x. (x.0, x.1.now)) result (mover_at bytes.now) }
{
    let (host, rest) = HostId::read(alloc, bytes)?;
    let (number, rest) = u64::read(alloc, rest)?;
    let (k, rest) = u32::read(alloc, rest)?;
    let (call, rest) = call_at(alloc, rest)?;
    Ok((
        Mover {
            host,
            number,
            k,
            call,
        },
        rest,
    ))
}

/// The number of its kind.
fn part_tag(part: &ShipPart) -> u64
    ensures { result ≡ part_tag part.now }
{
    match part {
        ShipPart::Head { .. } => 0,
        ShipPart::Object { .. } => 1,
    }
}

/// Writes its fields at the end.
#[tactic(auto, unfolding(crate::specs::Bodies::part_fields))]
fn write_part_fields(part: &ShipPart, out: &mut Items<u8>) -> Result<(), NoMemory>
    ensures { OnOk result (out.new ≡ out.old ++ (part_fields part.now).bytes) }
{
    match part {
        ShipPart::Head {
            name,
            objects,
            records,
            mover,
        } => {
            name.write(out)?;
            objects.write(out)?;
            write_short(records, out)?;
            write_mover(mover, out)
        }
        ShipPart::Object {
            anode,
            unique,
            status,
            pieces,
            entries,
        } => {
            anode.write(out)?;
            unique.write(out)?;
            status.write(out)?;
            write_pieces(pieces, out)?;
            write_short(entries, out)
        }
    }
}

/// Writes a part of a fileset that moves.
#[tactic(auto, unfolding(crate::specs::Bodies::spell_part, message_parts::specs::Spelled::number))]
pub fn write_part(part: &ShipPart, out: &mut Items<u8>) -> Result<(), NoMemory>
    ensures { OnOk result (out.new ≡ out.old ++ (spell_part part.now).bytes) }
{
    push_number(out, 1, part_tag(part))?;
    write_part_fields(part, out)
}

#[tactic(auto, unfolding(crate::specs::Readings::head_at))]
fn head_at(alloc: Global, bytes: &[u8]) -> Result<(ShipPart, &[u8]), Stopped>
    ensures { Gives (λ x. (x.0, x.1.now)) result (head_at bytes.now) }
{
    let (name, rest) = Name::read(alloc, bytes)?;
    let (objects, rest) = u32::read(alloc, rest)?;
    let (records, rest) = short_at(alloc, rest)?;
    let (mover, rest) = mover_at(alloc, rest)?;
    Ok((
        ShipPart::Head {
            name,
            objects,
            records,
            mover,
        },
        rest,
    ))
}

#[tactic(auto, unfolding(crate::specs::Readings::object_at))]
fn object_at(alloc: Global, bytes: &[u8]) -> Result<(ShipPart, &[u8]), Stopped>
    ensures { Gives (λ x. (x.0, x.1.now)) result (object_at bytes.now) }
{
    let (anode, rest) = u32::read(alloc, bytes)?;
    let (unique, rest) = u32::read(alloc, rest)?;
    let (status, rest) = Option::read(alloc, rest)?;
    let (pieces, rest) = pieces_at(alloc, rest)?;
    let (entries, rest) = short_at(alloc, rest)?;
    Ok((
        ShipPart::Object {
            anode,
            unique,
            status,
            pieces,
            entries,
        },
        rest,
    ))
}

/// Reads the fields of the kind with this number.
#[tactic(auto, unfolding(crate::specs::Readings::part_of))]
fn part_of(alloc: Global, tag: u64, bytes: &[u8]) -> Result<(ShipPart, &[u8]), Stopped>
    ensures { Gives (λ x. (x.0, x.1.now)) result (part_of tag bytes.now) }
{
    match tag {
        0 => head_at(alloc, bytes),
        _ => object_at(alloc, bytes),
    }
}

/// Reads a part of a fileset that moves.
#[tactic(auto, unfolding(crate::specs::Readings::part_at))]
pub fn part_at(alloc: Global, bytes: &[u8]) -> Result<(ShipPart, &[u8]), Stopped>
    ensures { Gives (λ x. (x.0, x.1.now)) result (part_at bytes.now) }
{
    let (tag, rest) = number_at(bytes, 1, 0, 1)?;
    part_of(alloc, tag, rest)
}

/// Writes what became of a part.
#[tactic(auto, unfolding(crate::specs::Bodies::spell_shipped))]
pub fn write_shipped(shipped: &Shipped, out: &mut Items<u8>) -> Result<(), NoMemory>
    ensures { OnOk result (out.new ≡ out.old ++ (spell_shipped shipped.now).bytes) }
{
    shipped.to.write(out)?;
    shipped.ship.write(out)?;
    shipped.at.write(out)?;
    write_reply(&shipped.reply, out)
}

/// Reads what became of a part.
#[tactic(auto, unfolding(crate::specs::Readings::shipped_at))]
pub fn shipped_at(alloc: Global, bytes: &[u8]) -> Result<(Shipped, &[u8]), Stopped>
    ensures { Gives (λ x. (x.0, x.1.now)) result (shipped_at bytes.now) }
{
    let (to, rest) = ServerId::read(alloc, bytes)?;
    let (ship, rest) = u64::read(alloc, rest)?;
    let (at, rest) = u32::read(alloc, rest)?;
    let (reply, rest) = reply_at(alloc, rest)?;
    Ok((
        Shipped {
            to,
            ship,
            at,
            reply,
        },
        rest,
    ))
}
