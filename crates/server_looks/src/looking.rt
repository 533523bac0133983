ghost use Rattle.std.specs.Prelude.{◌≡◌, Some, None, [], is_none, if◌then◌else◌, IfOk};
ghost use Rattle.base_types.specs.declared.user.User.{User};
ghost use Rattle.message_types.specs.Soundness.{IsCall, IsHost};
ghost use Rattle.need_host.specs.Questions.{fileset_of};
ghost use Rattle.tree_calls.specs.Rosters.{user_of};
ghost use Rattle.tree_calls.specs.declared.reply.Refusal.TheVariants.{NoFileset};
ghost use Rattle.server_keeps.specs.Asking.{
  change_needs,
  change_refused,
  entered_told,
  is_own,
  needs_some,
  needs_told,
  refusal_told,
  server_of,
};
ghost use Rattle.std.specs.Option.{option_copied, option_map};
ghost use Rattle.server_looks.specs.Keepers.{HasAsked, IsFit};

use crate::fault::ExporterFault;
use crate::keeper::Keeper;
use crate::needing::needs_of;
use crate::refusing::refusal_on;
use base_types::{FilesetId, HostId, Items, Name, ServerId};
use message_types::Change;
use store_memory::Store;
use token_types::Need;
use tree_calls::{Call, Refusal, Roster};

/// What a Change finds at the server: why it is refused, or else what it needs.
#[derive(Drop)]
pub struct Found {
    pub refusal: Option<Refusal>,
    pub needs: Items<Need>,
}

/// What a Change of a host finds. A store knows filesets by name alone, so it is asked only about the server's own.
pub fn found_by<S: Store>(
    server: ServerId,
    roster: &Roster,
    keeper: &mut Keeper<S>,
    host: HostId,
    change: &Change,
) -> Result<Found, ExporterFault>
    requires of { (S.view keeper.old.store).state.server ≡ server }
    requires host { IsHost (S.view keeper.old.store).state.roster host }
    requires call { IsCall (S.view keeper.old.store).state.roster change.now.call }
    requires fit { IsFit (S.view keeper.old.store) keeper.old.left }
    ensures refusal { S.tells → (user : User) → user_of roster.now host ≡ Some user → IfOk result (λ found.
        found.refusal ≡ change_refused (S.view keeper.old.store).state host user change.now) }
    ensures needs { S.tells → (user : User) → user_of roster.now host ≡ Some user → IfOk result (λ found.
        found.needs ≡ change_needs (S.view keeper.old.store).state host user change.now) }
    ensures asked { HasAsked S.tells result (S.view keeper.old.store) (S.view keeper.new.store) keeper.new.left }
{
    if change.enter {
        found_entering(server, roster, keeper, &change.call)
    } else {
        found_calling(server, roster, keeper, host, &change.call)
    }
}

/// What a host finds that enters a fileset.
fn found_entering<S: Store>(
    server: ServerId,
    roster: &Roster,
    keeper: &mut Keeper<S>,
    call: &Call,
) -> Result<Found, ExporterFault>
    requires of { (S.view keeper.old.store).state.server ≡ server }
    requires fit { IsFit (S.view keeper.old.store) keeper.old.left }
    ensures refusal { S.tells → IfOk result (λ found. found.refusal
        ≡ (if is_none (entered_told (S.view keeper.old.store).state call.now) then Some NoFileset else None)) }
    ensures needs { IfOk result (λ found. found.needs ≡ []) }
    ensures asked { HasAsked S.tells result (S.view keeper.old.store) (S.view keeper.new.store) keeper.new.left }
{
    let refusal = match fileset_entered(server, keeper, call)? {
        Some(_) => None,
        None => Some(Refusal::NoFileset),
    };
    Ok(Found {
        refusal,
        needs: Items::new(roster.users.alloc()),
    })
}

/// What a host finds that asks for a call.
fn found_calling<S: Store>(
    server: ServerId,
    roster: &Roster,
    keeper: &mut Keeper<S>,
    host: HostId,
    call: &Call,
) -> Result<Found, ExporterFault>
    requires of { (S.view keeper.old.store).state.server ≡ server }
    requires host { IsHost (S.view keeper.old.store).state.roster host }
    requires call { IsCall (S.view keeper.old.store).state.roster call.now }
    requires fit { IsFit (S.view keeper.old.store) keeper.old.left }
    ensures refusal { S.tells → (user : User) → user_of roster.now host ≡ Some user → IfOk result (λ found.
        found.refusal ≡ refusal_told (S.view keeper.old.store).state host user call.now) }
    ensures needs { S.tells → (user : User) → user_of roster.now host ≡ Some user → IfOk result (λ found.
        found.needs ≡ (if needs_some call.now (refusal_told (S.view keeper.old.store).state host user call.now)
        then needs_told (S.view keeper.old.store).state user call.now else [])) }
    ensures asked { HasAsked S.tells result (S.view keeper.old.store) (S.view keeper.new.store) keeper.new.left }
{
    let refusal = refusal_on(server, roster, keeper, host, call)?;
    let needs = needs_where(roster, keeper, host, call, &refusal)?;
    Ok(Found { refusal, needs })
}

/// What a call needs where it is refused so.
fn needs_where<S: Store>(
    roster: &Roster,
    keeper: &mut Keeper<S>,
    host: HostId,
    call: &Call,
    refusal: &Option<Refusal>,
) -> Result<Items<Need>, ExporterFault>
    requires fit { IsFit (S.view keeper.old.store) keeper.old.left }
    ensures needs { S.tells → (user : User) → user_of roster.now host ≡ Some user → IfOk result (λ needs.
        needs ≡ (if needs_some call.now refusal.now
        then needs_told (S.view keeper.old.store).state user call.now else [])) }
    ensures asked { HasAsked S.tells result (S.view keeper.old.store) (S.view keeper.new.store) keeper.new.left }
{
    if !needs_some(call, refusal) {
        return Ok(Items::new(roster.users.alloc()));
    }
    let Some(user) = roster.user_of(host)? else {
        return Ok(Items::new(roster.users.alloc()));
    };
    needs_of(roster.users.alloc(), keeper, &user, call)
}

/// Whether a call needs something where it is refused so: one that isn't refused does, and a clone or a move whose
/// source is there and may be taken.
fn needs_some(call: &Call, refusal: &Option<Refusal>) -> bool
    ensures { result ≡ needs_some call.now refusal.now }
{
    match refusal {
        None => true,
        Some(Refusal::NoFileset | Refusal::ReadOnly | Refusal::Denied(_)) => false,
        Some(_) => matches!(call, Call::CloneFileset { .. } | Call::MoveFileset { .. }),
    }
}

/// The fileset that a call names, where the server has it.
pub fn fileset_entered<S: Store>(
    server: ServerId,
    keeper: &mut Keeper<S>,
    call: &Call,
) -> Result<Option<FilesetId>, ExporterFault>
    requires of { (S.view keeper.old.store).state.server ≡ server }
    requires fit { IsFit (S.view keeper.old.store) keeper.old.left }
    ensures entered { S.tells → IfOk result (λ found. found ≡ entered_told (S.view keeper.old.store).state call.now) }
    ensures asked { HasAsked S.tells result (S.view keeper.old.store) (S.view keeper.new.store) keeper.new.left }
{
    if !is_own(server, server_named(call)) {
        return Ok(None);
    }
    match name_in(call) {
        Some(name) => keeper.find(name),
        None => Ok(None),
    }
}

/// Whether a server is this one.
fn is_own(server: ServerId, named: Option<ServerId>) -> bool
    ensures { result ≡ is_own server named }
{
    match named {
        Some(other) => other == server,
        None => false,
    }
}

/// The server by which a call says its fileset.
fn server_named(call: &Call) -> Option<ServerId>
    ensures { result ≡ option_map (λ place. place.0) (fileset_of call.now) }
{
    match call {
        Call::Create { place }
        | Call::MakeDir { place }
        | Call::Remove { place }
        | Call::Truncate { place, .. }
        | Call::SetAcl { place, .. }
        | Call::Read { place, .. }
        | Call::Write { place, .. }
        | Call::List { place }
        | Call::Stat { place }
        | Call::GetAcl { place, .. }
        | Call::Sync { place }
        | Call::Lock { place, .. }
        | Call::OpenFile { place, .. } => Some(place.server),
        Call::Rename { from, .. } => Some(from.server),
        Call::MoveFileset { server, .. } => Some(*server),
        Call::NewFileset { .. }
        | Call::CloneFileset { .. }
        | Call::Unlock { .. }
        | Call::CloseFile { .. } => None,
    }
}

/// The name by which a call says its fileset.
fn name_in(call: &Call) -> Option<&Name>
    ensures { option_copied result ≡ option_map (λ place. place.1) (fileset_of call.now) }
{
    match call {
        Call::Create { place }
        | Call::MakeDir { place }
        | Call::Remove { place }
        | Call::Truncate { place, .. }
        | Call::SetAcl { place, .. }
        | Call::Read { place, .. }
        | Call::Write { place, .. }
        | Call::List { place }
        | Call::Stat { place }
        | Call::GetAcl { place, .. }
        | Call::Sync { place }
        | Call::Lock { place, .. }
        | Call::OpenFile { place, .. } => Some(&place.fileset),
        Call::Rename { from, .. } => Some(&from.fileset),
        Call::MoveFileset { fileset, .. } => Some(fileset),
        Call::NewFileset { .. }
        | Call::CloneFileset { .. }
        | Call::Unlock { .. }
        | Call::CloseFile { .. } => None,
    }
}

/// Whether a call is about filesets of this server.
pub(crate) fn is_of_server(server: ServerId, call: &Call) -> bool
    ensures { result ≡ is_own server (server_of call.now) }
{
    match call {
        Call::NewFileset { server: at, .. } | Call::CloneFileset { server: at, .. } => {
            *at == server
        }
        _ => is_own(server, server_named(call)),
    }
}
