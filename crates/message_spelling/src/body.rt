ghost use Rattle.std.specs.Prelude.{◌≡◌, ◌++◌, OnOk};
ghost use Rattle.message_parts.specs.Reading.{Gives};
ghost use Rattle.message_parts.specs.Spelled.{◌&◌};
ghost use Rattle.message_parts.specs.Words.{spell_u32};
ghost use Rattle.message_types.specs.declared.message.Body.TheVariants.{NotHere as IsAway, Ship as IsShip};
ghost use Rattle.message_spelling.specs.Bodies.{body_tag, body_fields};
ghost use Rattle.message_spelling.specs.Bodies.{spell_change, spell_done, spell_fetch, spell_give, spell_gone};
ghost use Rattle.message_spelling.specs.Bodies.{spell_grant, spell_named, spell_revoke};
ghost use Rattle.message_spelling.specs.Readings.{
  body_of,
  with_moves_at,
  moved_at,
  unmoved_at,
  not_here_at,
  ship_at,
  fetch_at,
  grant_at,
  change_at,
  done_at,
  revoke_at,
  named_at,
  give_at,
  gone_at,
  reclaim_at,
  reclaimed_at,
  shipped_at,
};

use crate::asking::{change_at, fetch_at, write_change, write_fetch};
use crate::giving::{
    give_at, gone_at, reclaim_at, reclaimed_at, write_give, write_gone, write_reclaim,
    write_reclaimed,
};
use crate::moving::{part_at, shipped_at, write_part, write_shipped};
use crate::telling::{done_at, grant_at, write_done, write_grant};
use crate::tokens::{named_at, revoke_at, write_named, write_revoke};
use base_types::{FilesetId, Items, NoMemory, ServerId};
use message_parts::{Part, Stopped};
use message_types::{
    AppliedGive, Body, Change, Done, Fetch, Give, Grant, Named, NotHere, Revoke, Ship,
};
use std::alloc::Global;

/// The number of its kind.
pub fn body_tag(body: &Body) -> u64
    ensures { result ≡ body_tag body.now }
{
    match body {
        Body::Hello => 1,
        Body::Fetch(_) => 2,
        Body::Grant(_) => 3,
        Body::Change(_) => 4,
        Body::Done(_) => 5,
        Body::Revoke(_) => 6,
        Body::Returned(_) => 7,
        Body::Kept(_) => 8,
        Body::GiveBack(_) => 9,
        Body::Gone(_) => 10,
        Body::Reclaim(_) => 11,
        Body::Reclaimed(_) => 12,
        Body::Restarted => 13,
        Body::Down => 14,
        Body::Bye => 15,
        Body::NotHere(_) => 16,
        Body::Ship(_) => 17,
        Body::Shipped(_) => 18,
    }
}

/// Writes the fields of a message whose fileset has moved so often.
#[tactic(auto, unfolding(crate::specs::Bodies::body_fields))]
pub fn write_body(moves: u32, body: &Body, out: &mut Items<u8>) -> Result<(), NoMemory>
    ensures { OnOk result (out.new ≡ out.old ++ (body_fields moves body.now).bytes) }
{
    match body {
        Body::Hello => Ok(()),
        Body::Fetch(fetch) => tell_fetch(moves, fetch, out),
        Body::Grant(grant) => tell_grant(moves, grant, out),
        Body::Change(change) => tell_change(moves, change, out),
        Body::Done(done) => tell_done(moves, done, out),
        Body::Revoke(revoke) => tell_revoke(moves, revoke, out),
        Body::Returned(named) => tell_named(moves, named, out),
        Body::Kept(named) => tell_named(moves, named, out),
        Body::GiveBack(give) => tell_give(moves, give, out),
        Body::Gone(gone) => tell_gone(moves, gone, out),
        Body::Reclaim(reclaim) => write_reclaim(reclaim, out),
        Body::Reclaimed(reclaimed) => write_reclaimed(reclaimed, out),
        Body::Restarted => Ok(()),
        Body::Down => Ok(()),
        Body::Bye => Ok(()),
        Body::NotHere(not_here) => tell_not_here(moves, not_here, out),
        Body::Ship(ship) => tell_ship(moves, ship, out),
        Body::Shipped(shipped) => write_shipped(shipped, out),
    }
}

fn tell_fetch(moves: u32, fetch: &Fetch, out: &mut Items<u8>) -> Result<(), NoMemory>
    ensures { OnOk result (out.new ≡ out.old ++ (spell_fetch fetch.now & spell_u32 moves).bytes) }
{
    write_fetch(fetch, out)?;
    moves.write(out)
}

fn tell_grant(moves: u32, grant: &Grant, out: &mut Items<u8>) -> Result<(), NoMemory>
    ensures { OnOk result (out.new ≡ out.old ++ (spell_grant grant.now & spell_u32 moves).bytes) }
{
    write_grant(grant, out)?;
    moves.write(out)
}

fn tell_change(moves: u32, change: &Change, out: &mut Items<u8>) -> Result<(), NoMemory>
    ensures { OnOk result (out.new ≡ out.old ++ (spell_change change.now & spell_u32 moves).bytes) }
{
    write_change(change, out)?;
    moves.write(out)
}

fn tell_done(moves: u32, done: &Done, out: &mut Items<u8>) -> Result<(), NoMemory>
    ensures { OnOk result (out.new ≡ out.old ++ (spell_done done.now & spell_u32 moves).bytes) }
{
    write_done(done, out)?;
    moves.write(out)
}

fn tell_revoke(moves: u32, revoke: &Revoke, out: &mut Items<u8>) -> Result<(), NoMemory>
    ensures { OnOk result (out.new ≡ out.old ++ (spell_revoke revoke.now & spell_u32 moves).bytes) }
{
    write_revoke(revoke, out)?;
    moves.write(out)
}

fn tell_named(moves: u32, named: &Named, out: &mut Items<u8>) -> Result<(), NoMemory>
    ensures { OnOk result (out.new ≡ out.old ++ (spell_named named.now & spell_u32 moves).bytes) }
{
    write_named(named, out)?;
    moves.write(out)
}

fn tell_give(moves: u32, give: &Give, out: &mut Items<u8>) -> Result<(), NoMemory>
    ensures { OnOk result (out.new ≡ out.old ++ (spell_give give.now & spell_u32 moves).bytes) }
{
    write_give(give, out)?;
    moves.write(out)
}

fn tell_gone(moves: u32, gone: &AppliedGive, out: &mut Items<u8>) -> Result<(), NoMemory>
    ensures { OnOk result (out.new ≡ out.old ++ (spell_gone gone.now & spell_u32 moves).bytes) }
{
    write_gone(gone, out)?;
    moves.write(out)
}

#[tactic(auto, unfolding(crate::specs::Bodies::body_fields))]
fn tell_not_here(moves: u32, not_here: &NotHere, out: &mut Items<u8>) -> Result<(), NoMemory>
    ensures { OnOk result (out.new ≡ out.old ++ (body_fields moves (IsAway not_here.now)).bytes) }
{
    not_here.fileset.write(out)?;
    moves.write(out)?;
    not_here.to.write(out)
}

#[tactic(auto, unfolding(crate::specs::Bodies::body_fields))]
fn tell_ship(moves: u32, ship: &Ship, out: &mut Items<u8>) -> Result<(), NoMemory>
    ensures { OnOk result (out.new ≡ out.old ++ (body_fields moves (IsShip ship.now)).bytes) }
{
    ship.to.write(out)?;
    ship.ship.write(out)?;
    ship.fileset.write(out)?;
    moves.write(out)?;
    ship.at.write(out)?;
    write_part(&ship.part, out)
}

/// Reads the moves that stand behind what was read.
fn with_moves<T: Drop>(alloc: Global, value: T, bytes: &[u8]) -> Result<((u32, T), &[u8]), Stopped>
    ensures { Gives (λ x. (x.0, x.1.now)) result (with_moves_at value bytes.now) }
{
    let (moves, rest) = u32::read(alloc, bytes)?;
    Ok(((moves, value), rest))
}

fn fetch_told_at(alloc: Global, bytes: &[u8]) -> Result<((u32, Body), &[u8]), Stopped>
    ensures { Gives (λ x. (x.0, x.1.now)) result (moved_at fetch_at Body.Fetch bytes.now) }
{
    let (fetch, rest) = fetch_at(alloc, bytes)?;
    with_moves(alloc, Body::Fetch(fetch), rest)
}

fn grant_told_at(alloc: Global, bytes: &[u8]) -> Result<((u32, Body), &[u8]), Stopped>
    ensures { Gives (λ x. (x.0, x.1.now)) result (moved_at grant_at Body.Grant bytes.now) }
{
    let (grant, rest) = grant_at(alloc, bytes)?;
    with_moves(alloc, Body::Grant(grant), rest)
}

fn change_told_at(alloc: Global, bytes: &[u8]) -> Result<((u32, Body), &[u8]), Stopped>
    ensures { Gives (λ x. (x.0, x.1.now)) result (moved_at change_at Body.Change bytes.now) }
{
    let (change, rest) = change_at(alloc, bytes)?;
    with_moves(alloc, Body::Change(change), rest)
}

fn done_told_at(alloc: Global, bytes: &[u8]) -> Result<((u32, Body), &[u8]), Stopped>
    ensures { Gives (λ x. (x.0, x.1.now)) result (moved_at done_at Body.Done bytes.now) }
{
    let (done, rest) = done_at(alloc, bytes)?;
    with_moves(alloc, Body::Done(done), rest)
}

fn revoke_told_at(alloc: Global, bytes: &[u8]) -> Result<((u32, Body), &[u8]), Stopped>
    ensures { Gives (λ x. (x.0, x.1.now)) result (moved_at revoke_at Body.Revoke bytes.now) }
{
    let (revoke, rest) = revoke_at(alloc, bytes)?;
    with_moves(alloc, Body::Revoke(revoke), rest)
}

fn returned_told_at(alloc: Global, bytes: &[u8]) -> Result<((u32, Body), &[u8]), Stopped>
    ensures { Gives (λ x. (x.0, x.1.now)) result (moved_at named_at Body.Returned bytes.now) }
{
    let (named, rest) = named_at(alloc, bytes)?;
    with_moves(alloc, Body::Returned(named), rest)
}

fn kept_told_at(alloc: Global, bytes: &[u8]) -> Result<((u32, Body), &[u8]), Stopped>
    ensures { Gives (λ x. (x.0, x.1.now)) result (moved_at named_at Body.Kept bytes.now) }
{
    let (named, rest) = named_at(alloc, bytes)?;
    with_moves(alloc, Body::Kept(named), rest)
}

fn give_back_told_at(alloc: Global, bytes: &[u8]) -> Result<((u32, Body), &[u8]), Stopped>
    ensures { Gives (λ x. (x.0, x.1.now)) result (moved_at give_at Body.GiveBack bytes.now) }
{
    let (give, rest) = give_at(alloc, bytes)?;
    with_moves(alloc, Body::GiveBack(give), rest)
}

fn gone_told_at(alloc: Global, bytes: &[u8]) -> Result<((u32, Body), &[u8]), Stopped>
    ensures { Gives (λ x. (x.0, x.1.now)) result (moved_at gone_at Body.Gone bytes.now) }
{
    let (gone, rest) = gone_at(alloc, bytes)?;
    with_moves(alloc, Body::Gone(gone), rest)
}

fn reclaim_told_at(alloc: Global, bytes: &[u8]) -> Result<((u32, Body), &[u8]), Stopped>
    ensures { Gives (λ x. (x.0, x.1.now)) result (unmoved_at reclaim_at Body.Reclaim bytes.now) }
{
    let (reclaim, rest) = reclaim_at(alloc, bytes)?;
    Ok(((0, Body::Reclaim(reclaim)), rest))
}

fn reclaimed_told_at(alloc: Global, bytes: &[u8]) -> Result<((u32, Body), &[u8]), Stopped>
    ensures { Gives (λ x. (x.0, x.1.now)) result (unmoved_at reclaimed_at Body.Reclaimed bytes.now) }
{
    let (reclaimed, rest) = reclaimed_at(alloc, bytes)?;
    Ok(((0, Body::Reclaimed(reclaimed)), rest))
}

fn shipped_told_at(alloc: Global, bytes: &[u8]) -> Result<((u32, Body), &[u8]), Stopped>
    ensures { Gives (λ x. (x.0, x.1.now)) result (unmoved_at shipped_at Body.Shipped bytes.now) }
{
    let (shipped, rest) = shipped_at(alloc, bytes)?;
    Ok(((0, Body::Shipped(shipped)), rest))
}

#[tactic(auto, unfolding(crate::specs::Readings::not_here_at))]
fn not_here_told_at(alloc: Global, bytes: &[u8]) -> Result<((u32, Body), &[u8]), Stopped>
    ensures { Gives (λ x. (x.0, x.1.now)) result (not_here_at bytes.now) }
{
    let (fileset, rest) = FilesetId::read(alloc, bytes)?;
    let (moves, rest) = u32::read(alloc, rest)?;
    let (to, rest) = ServerId::read(alloc, rest)?;
    Ok(((moves, Body::NotHere(NotHere { fileset, to })), rest))
}

#[tactic(auto, unfolding(crate::specs::Readings::ship_at))]
fn ship_told_at(alloc: Global, bytes: &[u8]) -> Result<((u32, Body), &[u8]), Stopped>
    ensures { Gives (λ x. (x.0, x.1.now)) result (ship_at bytes.now) }
{
    let (to, rest) = ServerId::read(alloc, bytes)?;
    let (ship, rest) = u64::read(alloc, rest)?;
    let (fileset, rest) = FilesetId::read(alloc, rest)?;
    let (moves, rest) = u32::read(alloc, rest)?;
    let (at, rest) = u32::read(alloc, rest)?;
    let (part, rest) = part_at(alloc, rest)?;
    let ship = Ship {
        to,
        ship,
        fileset,
        at,
        part,
    };
    Ok(((moves, Body::Ship(ship)), rest))
}

/// Reads the fields of the kind with this number, and the moves of the fileset that they speak of, or 0.
#[tactic(auto, unfolding(crate::specs::Readings::body_of))]
pub fn body_of(alloc: Global, tag: u64, bytes: &[u8]) -> Result<((u32, Body), &[u8]), Stopped>
    ensures { Gives (λ x. (x.0, x.1.now)) result (body_of tag bytes.now) }
{
    match tag {
        1 => Ok(((0, Body::Hello), bytes)),
        2 => fetch_told_at(alloc, bytes),
        3 => grant_told_at(alloc, bytes),
        4 => change_told_at(alloc, bytes),
        5 => done_told_at(alloc, bytes),
        6 => revoke_told_at(alloc, bytes),
        7 => returned_told_at(alloc, bytes),
        8 => kept_told_at(alloc, bytes),
        9 => give_back_told_at(alloc, bytes),
        10 => gone_told_at(alloc, bytes),
        11 => reclaim_told_at(alloc, bytes),
        12 => reclaimed_told_at(alloc, bytes),
        13 => Ok(((0, Body::Restarted), bytes)),
        14 => Ok(((0, Body::Down), bytes)),
        15 => Ok(((0, Body::Bye), bytes)),
        16 => not_here_told_at(alloc, bytes),
        17 => ship_told_at(alloc, bytes),
        _ => shipped_told_at(alloc, bytes),
    }
}
