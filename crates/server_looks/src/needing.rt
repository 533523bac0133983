ghost use Rattle.std.specs.Prelude.{◌≡◌, ◌+◌, ◌++◌, ◌∷◌, [], true, false, if◌then◌else◌, IfOk, OnOk};
ghost use Rattle.std.specs.List.{filter, flat_map};
ghost use Rattle.need_server.specs.Wants.{all_of, every_use_of};
ghost use Rattle.server_keeps.specs.Wanting.{all_and_uses_of, directory_of, wanted_of};
ghost use Rattle.server_keeps.specs.Asking.{is_file_told, needs_told, whole_of};
ghost use Rattle.store_memory.specs.Reading.{looked_up};
ghost use Rattle.tree_objects.specs.Spans.{span_between, whole};
ghost use Rattle.server_looks.specs.Keepers.{HasAsked, IsFit};
ghost use Rattle.server_looks.specs.Needs.{clone_needs, is_file, move_needs};

use crate::fault::ExporterFault;
use crate::keeper::Keeper;
use base_types::{FILE_BYTES_MAX, Fid, Items, Name, NoMemory, OpenKind, Plain, Span, User};
use std::alloc::Global;
use store_memory::{Looked, Store};
use token_types::{Kind, Need};
use tree_calls::{Call, Place, Status};
use tree_objects::span_between;

/// What a call of a user needs that isn't refused.
pub(crate) fn needs_of<S: Store>(
    alloc: Global,
    keeper: &mut Keeper<S>,
    user: &User,
    call: &Call,
) -> Result<Items<Need>, ExporterFault>
    requires fit { IsFit (S.view keeper.old.store) keeper.old.left }
    ensures needs { S.tells
        → IfOk result (λ needs. needs ≡ needs_told (S.view keeper.old.store).state user.now call.now) }
    ensures asked { HasAsked S.tells result (S.view keeper.old.store) (S.view keeper.new.store) keeper.new.left }
{
    match call {
        Call::Create { place } => parent_needs(alloc, keeper, user, place),
        Call::MakeDir { place } => parent_needs(alloc, keeper, user, place),
        Call::Remove { place } => removed_needs(alloc, keeper, user, place),
        Call::Rename { from, to } => renamed_needs(alloc, keeper, user, from, to),
        Call::Truncate { place, .. } => object_needs(alloc, keeper, user, place),
        Call::SetAcl { place, .. } => kind_needs(
            alloc,
            keeper,
            user,
            place,
            Kind::Status { update: true },
        ),
        Call::CloneFileset { fileset, .. } => clone_needs(alloc, keeper, fileset),
        Call::MoveFileset { fileset, .. } => move_needs(alloc, keeper, fileset),
        Call::Lock {
            place,
            writing,
            from,
            len,
            ..
        } => kind_needs(alloc, keeper, user, place, locked(*writing, *from, *len)),
        Call::OpenFile { place, kind, .. } => {
            kind_needs(alloc, keeper, user, place, Kind::Opening(*kind))
        }
        _ => Ok(Items::new(alloc)),
    }
}

/// What a lock needs of its file.
fn locked(writing: bool, from: u32, len: u32) -> Kind
    ensures { result ≡ Kind.Lock writing (span_between from (from + len)) }
{
    let from = u64::from(from);
    Kind::Lock {
        writing,
        span: span_between(from, from + u64::from(len)),
    }
}

/// All of the directory that a place is in, for update.
fn parent_needs<S: Store>(
    alloc: Global,
    keeper: &mut Keeper<S>,
    user: &User,
    place: &Place,
) -> Result<Items<Need>, ExporterFault>
    requires fit { IsFit (S.view keeper.old.store) keeper.old.left }
    ensures needs { S.tells → IfOk result (λ needs. needs
        ≡ wanted_of (looked_up (S.view keeper.old.store).state user.now (directory_of place.now)) (all_of true)) }
    ensures asked { HasAsked S.tells result (S.view keeper.old.store) (S.view keeper.new.store) keeper.new.left }
{
    let parent = directory_of(place)?;
    object_needs(alloc, keeper, user, &parent)
}

/// The place of the directory that a place is in.
fn directory_of(place: &Place) -> Result<Place, NoMemory>
    ensures { IfOk result (λ parent. parent ≡ directory_of place.now) }
{
    let mut parent = place.copy()?;
    parent.path.truncate(place.path.len().saturating_sub(1));
    Ok(parent)
}

/// What a Remove needs: the directory, and the object with every use of it.
fn removed_needs<S: Store>(
    alloc: Global,
    keeper: &mut Keeper<S>,
    user: &User,
    place: &Place,
) -> Result<Items<Need>, ExporterFault>
    requires fit { IsFit (S.view keeper.old.store) keeper.old.left }
    ensures needs { S.tells → IfOk result (λ needs. needs
        ≡ wanted_of (looked_up (S.view keeper.old.store).state user.now (directory_of place.now)) (all_of true)
        ++ wanted_of (looked_up (S.view keeper.old.store).state user.now place.now) all_and_uses_of) }
    ensures asked { HasAsked S.tells result (S.view keeper.old.store) (S.view keeper.new.store) keeper.new.left }
{
    let mut needs = parent_needs(alloc, keeper, user, place)?;
    let more = gone_needs(alloc, keeper, user, place)?;
    needs.append(more)?;
    Ok(needs)
}

/// All of an object that goes, with every use of it.
fn gone_needs<S: Store>(
    alloc: Global,
    keeper: &mut Keeper<S>,
    user: &User,
    place: &Place,
) -> Result<Items<Need>, ExporterFault>
    requires fit { IsFit (S.view keeper.old.store) keeper.old.left }
    ensures needs { S.tells → IfOk result (λ needs. needs
        ≡ wanted_of (looked_up (S.view keeper.old.store).state user.now place.now) all_and_uses_of) }
    ensures asked { HasAsked S.tells result (S.view keeper.old.store) (S.view keeper.new.store) keeper.new.left }
{
    match keeper.walk(user, place)? {
        Looked::Found(fid) => Ok(whole_needs(alloc, fid)?),
        Looked::Refused(_) => Ok(Items::new(alloc)),
    }
}

/// What a Rename needs: both directories.
fn renamed_needs<S: Store>(
    alloc: Global,
    keeper: &mut Keeper<S>,
    user: &User,
    from: &Place,
    to: &Place,
) -> Result<Items<Need>, ExporterFault>
    requires fit { IsFit (S.view keeper.old.store) keeper.old.left }
    ensures needs { S.tells → IfOk result (λ needs. needs
        ≡ wanted_of (looked_up (S.view keeper.old.store).state user.now (directory_of from.now)) (all_of true)
        ++ wanted_of (looked_up (S.view keeper.old.store).state user.now (directory_of to.now)) (all_of true)) }
    ensures asked { HasAsked S.tells result (S.view keeper.old.store) (S.view keeper.new.store) keeper.new.left }
{
    let mut needs = parent_needs(alloc, keeper, user, from)?;
    let more = parent_needs(alloc, keeper, user, to)?;
    needs.append(more)?;
    Ok(needs)
}

/// All of the object at a place, for update.
fn object_needs<S: Store>(
    alloc: Global,
    keeper: &mut Keeper<S>,
    user: &User,
    place: &Place,
) -> Result<Items<Need>, ExporterFault>
    requires fit { IsFit (S.view keeper.old.store) keeper.old.left }
    ensures needs { S.tells → IfOk result (λ needs. needs
        ≡ wanted_of (looked_up (S.view keeper.old.store).state user.now place.now) (all_of true)) }
    ensures asked { HasAsked S.tells result (S.view keeper.old.store) (S.view keeper.new.store) keeper.new.left }
{
    match keeper.walk(user, place)? {
        Looked::Found(fid) => Ok(all_needs(alloc, fid)?),
        Looked::Refused(_) => Ok(Items::new(alloc)),
    }
}

/// This of the object at a place.
fn kind_needs<S: Store>(
    alloc: Global,
    keeper: &mut Keeper<S>,
    user: &User,
    place: &Place,
    kind: Kind,
) -> Result<Items<Need>, ExporterFault>
    requires fit { IsFit (S.view keeper.old.store) keeper.old.left }
    ensures needs { S.tells → IfOk result (λ needs. needs
        ≡ wanted_of (looked_up (S.view keeper.old.store).state user.now place.now)
        (λ fid. record { fid = fid; kind = kind } ∷ [])) }
    ensures asked { HasAsked S.tells result (S.view keeper.old.store) (S.view keeper.new.store) keeper.new.left }
{
    match keeper.walk(user, place)? {
        Looked::Found(fid) => Ok(kind_need(alloc, fid, kind)?),
        Looked::Refused(_) => Ok(Items::new(alloc)),
    }
}

/// Each file of a fileset, for reading.
fn clone_needs<S: Store>(
    alloc: Global,
    keeper: &mut Keeper<S>,
    name: &Name,
) -> Result<Items<Need>, ExporterFault>
    requires fit { IsFit (S.view keeper.old.store) keeper.old.left }
    ensures needs { S.tells → IfOk result (λ needs. needs ≡ clone_needs (S.view keeper.old.store).state name.now) }
    ensures asked { HasAsked S.tells result (S.view keeper.old.store) (S.view keeper.new.store) keeper.new.left }
{
    let Some(fileset) = keeper.find(name)? else {
        return Ok(Items::new(alloc));
    };
    let files = keeper.files(fileset)?;
    read_needs(alloc, keeper, files.as_slice())
}

/// What of some objects is a file, for reading.
fn read_needs<S: Store>(
    alloc: Global,
    keeper: &mut Keeper<S>,
    fids: &[Fid],
) -> Result<Items<Need>, ExporterFault>
    requires fit { IsFit (S.view keeper.old.store) keeper.old.left }
    ensures needs { S.tells → IfOk result (λ needs. needs
        ≡ flat_map (all_of false) (filter (is_file_told (S.view keeper.old.store).state) fids.now)) }
    ensures asked { HasAsked S.tells result (S.view keeper.old.store) (S.view keeper.new.store) keeper.new.left }
{
    let mut needs = Items::new(alloc);
    for fid in fids {
        push_file(&mut needs, keeper, *fid)?;
    }
    Ok(needs)
}

/// Adds an object for reading, if it is a file.
fn push_file<S: Store>(
    needs: &mut Items<Need>,
    keeper: &mut Keeper<S>,
    fid: Fid,
) -> Result<(), ExporterFault>
    requires fit { IsFit (S.view keeper.old.store) keeper.old.left }
    ensures needs { S.tells → OnOk result (needs.new ≡ needs.old
        ++ (if is_file_told (S.view keeper.old.store).state fid then all_of false fid else [])) }
    ensures asked { HasAsked S.tells result (S.view keeper.old.store) (S.view keeper.new.store) keeper.new.left }
{
    if !is_file(&keeper.status(fid)?) {
        return Ok(());
    }
    push_all(needs, fid, false)?;
    Ok(())
}

fn is_file(status: &Option<Status>) -> bool
    ensures { result ≡ is_file status.now }
{
    match status {
        Some(status) => !status.dir,
        None => false,
    }
}

/// Each object of a fileset, with every use of it.
fn move_needs<S: Store>(
    alloc: Global,
    keeper: &mut Keeper<S>,
    name: &Name,
) -> Result<Items<Need>, ExporterFault>
    requires fit { IsFit (S.view keeper.old.store) keeper.old.left }
    ensures needs { S.tells → IfOk result (λ needs. needs ≡ move_needs (S.view keeper.old.store).state name.now) }
    ensures asked { HasAsked S.tells result (S.view keeper.old.store) (S.view keeper.new.store) keeper.new.left }
{
    let Some(fileset) = keeper.find(name)? else {
        return Ok(Items::new(alloc));
    };
    let files = keeper.files(fileset)?;
    Ok(moved_needs(alloc, files.as_slice())?)
}

/// All of some objects, with every use of them.
fn moved_needs(alloc: Global, fids: &[Fid]) -> Result<Items<Need>, NoMemory>
    ensures { IfOk result (λ needs. needs ≡ flat_map whole_of fids.now) }
{
    let mut needs = Items::new(alloc);
    for fid in fids {
        push_whole(&mut needs, *fid)?;
    }
    Ok(needs)
}

fn kind_need(alloc: Global, fid: Fid, kind: Kind) -> Result<Items<Need>, NoMemory>
    ensures { IfOk result (λ needs. needs ≡ record { fid = fid; kind = kind } ∷ []) }
{
    let mut needs = Items::new(alloc);
    needs.push(Need { fid, kind })?;
    Ok(needs)
}

fn all_needs(alloc: Global, fid: Fid) -> Result<Items<Need>, NoMemory>
    ensures { IfOk result (λ needs. needs ≡ all_of true fid) }
{
    let mut needs = Items::new(alloc);
    push_all(&mut needs, fid, true)?;
    Ok(needs)
}

fn whole_needs(alloc: Global, fid: Fid) -> Result<Items<Need>, NoMemory>
    ensures { IfOk result (λ needs. needs ≡ all_and_uses_of fid) }
{
    let mut needs = Items::new(alloc);
    push_whole(&mut needs, fid)?;
    Ok(needs)
}

/// Adds all of an object with every use of it.
fn push_whole(needs: &mut Items<Need>, fid: Fid) -> Result<(), NoMemory>
    ensures { OnOk result (needs.new ≡ needs.old ++ whole_of fid) }
{
    push_all(needs, fid, true)?;
    push_uses(needs, fid)
}

/// All positions of a file.
fn whole() -> Span
    ensures { result ≡ whole }
{
    span_between(0, FILE_BYTES_MAX as u64)
}

/// Adds the status and all bytes of a file, or the status and the entries of a directory.
fn push_all(needs: &mut Items<Need>, fid: Fid, update: bool) -> Result<(), NoMemory>
    ensures { OnOk result (needs.new ≡ needs.old ++ all_of update fid) }
{
    let span = whole();
    needs.push(Need {
        fid,
        kind: Kind::Status { update },
    })?;
    needs.push(Need {
        fid,
        kind: Kind::Bytes { update, span },
    })
}

/// Adds what no lock and no open file goes with.
fn push_uses(needs: &mut Items<Need>, fid: Fid) -> Result<(), NoMemory>
    ensures { OnOk result (needs.new ≡ needs.old ++ every_use_of fid) }
{
    let span = whole();
    needs.push(Need {
        fid,
        kind: Kind::Lock {
            writing: true,
            span,
        },
    })?;
    needs.push(Need {
        fid,
        kind: Kind::Opening(OpenKind::Exclusive),
    })
}
