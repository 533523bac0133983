ghost use Rattle.std.specs.Prelude.{◌≡◌, Some, IfOk};
ghost use Rattle.base_types.specs.declared.user.User.{User};
ghost use Rattle.message_types.specs.Soundness.{IsCall, IsHost, IsMove};
ghost use Rattle.need_host.specs.Walks.{root_of};
ghost use Rattle.store_acts.specs.Sound.{IsFor};
ghost use Rattle.store_state.specs.Rows.{answer_to};
ghost use Rattle.tree_calls.specs.Rosters.{user_of};
ghost use Rattle.server_keeps.specs.Asking.{has_right, move_refused, move_told, refusal_in, refusal_told};
ghost use Rattle.server_looks.specs.Keepers.{HasAsked, IsFit};

use crate::fault::ExporterFault;
use crate::keeper::Keeper;
use crate::looking::is_of_server;
use base_types::{Fid, FilesetId, HostId, Name, Plain, Rights, ServerId, User, rights_of};
use store_memory::Store;
use tree_calls::{Call, Refusal, Reply, Roster, Status};

/// Why a call of a host is refused on what is kept.
pub(crate) fn refusal_on<S: Store>(
    server: ServerId,
    roster: &Roster,
    keeper: &mut Keeper<S>,
    host: HostId,
    call: &Call,
) -> Result<Option<Refusal>, ExporterFault>
    requires of { (S.view keeper.old.store).state.server ≡ server }
    requires host { IsHost (S.view keeper.old.store).state.roster host }
    requires call { IsCall (S.view keeper.old.store).state.roster call.now }
    requires fit { IsFit (S.view keeper.old.store) keeper.old.left }
    ensures refusal { S.tells → (user : User) → user_of roster.now host ≡ Some user
        → IfOk result (λ refusal. refusal ≡ refusal_told (S.view keeper.old.store).state host user call.now) }
    ensures asked { HasAsked S.tells result (S.view keeper.old.store) (S.view keeper.new.store) keeper.new.left }
{
    if !is_of_server(server, call) {
        return Ok(Some(Refusal::NoFileset));
    }
    match call {
        Call::MoveFileset { fileset, to, .. } => move_refusal(
            server, roster, keeper, host, fileset, *to,
        ),
        _ => own_refusal(keeper, host, call),
    }
}

/// Why a call about the server's own filesets is refused, but a move.
fn own_refusal<S: Store>(
    keeper: &mut Keeper<S>,
    host: HostId,
    call: &Call,
) -> Result<Option<Refusal>, ExporterFault>
    requires host { IsHost (S.view keeper.old.store).state.roster host }
    requires call { IsCall (S.view keeper.old.store).state.roster call.now }
    requires own { IsFor (S.view keeper.old.store).state.server call.now }
    requires stays { IsMove call.now → ⊥ }
    requires fit { IsFit (S.view keeper.old.store) keeper.old.left }
    ensures refusal { S.tells → IfOk result (λ refusal.
        refusal ≡ refusal_in (answer_to (S.view keeper.old.store).state host call.now).reply) }
    ensures asked { HasAsked S.tells result (S.view keeper.old.store) (S.view keeper.new.store) keeper.new.left }
{
    Ok(refusal_in(&keeper.would(host, call)?))
}

fn refusal_in(reply: &Reply) -> Option<Refusal>
    ensures { result ≡ refusal_in reply.now }
{
    match reply {
        Reply::Refused(refusal) => Some(*refusal),
        _ => None,
    }
}

/// Why a fileset can't be moved, as far as this server can tell: whether the other one has room for it, it can't.
fn move_refusal<S: Store>(
    server: ServerId,
    roster: &Roster,
    keeper: &mut Keeper<S>,
    host: HostId,
    name: &Name,
    to: ServerId,
) -> Result<Option<Refusal>, ExporterFault>
    requires of { (S.view keeper.old.store).state.server ≡ server }
    requires fit { IsFit (S.view keeper.old.store) keeper.old.left }
    ensures refusal { S.tells → (user : User) → user_of roster.now host ≡ Some user
        → IfOk result (λ refusal. refusal ≡ move_told (S.view keeper.old.store).state user name.now to) }
    ensures asked { HasAsked S.tells result (S.view keeper.old.store) (S.view keeper.new.store) keeper.new.left }
{
    let Some(fileset) = keeper.find(name)? else {
        return Ok(Some(Refusal::NoFileset));
    };
    let Some(user) = roster.user_of(host)? else {
        return Ok(Some(Refusal::NoFileset));
    };
    let status = keeper.status(root_of(fileset))?;
    Ok(move_refused(server, &user, to, &status))
}

/// Why a fileset of a server can't be moved by a user, of whose root this is told.
fn move_refused(
    server: ServerId,
    user: &User,
    to: ServerId,
    status: &Option<Status>,
) -> Option<Refusal>
    ensures { result ≡ move_refused server user.now to status.now }
{
    let Some(status) = status else {
        return Some(Refusal::NoFileset);
    };
    if status.read_only {
        Some(Refusal::ReadOnly)
    } else if !has_right(status, user, Rights::CONTROL) {
        Some(Refusal::Denied(Rights::CONTROL))
    } else if to == server {
        Some(Refusal::Exists)
    } else {
        None
    }
}

/// Whether a user has a right on an object.
fn has_right(status: &Status, user: &User, right: Rights) -> bool
    ensures { result ≡ has_right status.now user.now right }
{
    match status.lists.at(0) {
        Some(list) => rights_of(list, &status.owner, &status.group, user).allows(right),
        None => false,
    }
}

fn root_of(fileset: FilesetId) -> Fid
    ensures { result ≡ root_of fileset }
{
    Fid {
        fileset,
        anode: 1,
        unique: 1,
    }
}
