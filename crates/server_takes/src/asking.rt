ghost use Rattle.std.specs.Prelude.{◌≡◌, Some, OnOk, IfOk};
ghost use Rattle.base_types.specs.declared.user.User.{User};
ghost use Rattle.message_types.specs.Soundness.{IsCall, IsHost};
ghost use Rattle.run_rules.specs.declared.applied.Applied.TheVariants.{Wants};
ghost use Rattle.run_rules.specs.declared.applied.Request.TheVariants.{Change as Changes, Fetch as Asks};
ghost use Rattle.server_looks.specs.Asking.{change_needs};
ghost use Rattle.server_looks.specs.Keepers.{HasAsked, IsFit};
ghost use Rattle.server_tables.specs.Answers.{answer_again};
ghost use Rattle.server_tables.specs.Counting.{IsCounted};
ghost use Rattle.server_takes.specs.Drafts.{applying};
ghost use Rattle.server_takes.specs.Messages.{IsHeardBy};
ghost use Rattle.server_takes.specs.Taking.{IsMadeOf, change_made, fetch_made, is_decided_here, may_wait, repeated};
ghost use Rattle.server_takes.specs.Taking.{takes_fetch, want_made, wanted_for};
ghost use Rattle.tree_calls.specs.Rosters.{user_of};

use crate::draft::Draft;
use base_types::{HostId, Items, NoMemory, Plain};
use message_types::{Body, Change, Fetch};
use run_rules::{Applied, Request, Wanted};
use server_looks::{ExporterFault, Found, Keeper, found_by};
use server_tables::{Tables, is_meant_so};
use store_memory::Store;
use token_types::Need;

/// A host asks for tokens on an object: its want waits from now on. Where one of its number waits, nothing happens.
pub(crate) fn take_fetch(
    tables: &mut Tables,
    draft: &mut Draft,
    host: HostId,
    fetch: &Fetch,
) -> Result<(), NoMemory>
    requires counted { IsCounted tables.old }
    ensures tables { OnOk result (tables.new ≡ (fetch_made tables.old draft.old host fetch.now).tables) }
    ensures draft { OnOk result (draft.new ≡ (fetch_made tables.old draft.old host fetch.now).draft) }
    ensures counted { OnOk result (IsCounted tables.new) }
{
    if !takes_fetch(tables, host, fetch)? {
        return Ok(());
    }
    want_fetch(tables, draft, host, fetch)
}

/// Whether a Fetch is on a file that is here, and none of its number waits.
fn takes_fetch(tables: &Tables, host: HostId, fetch: &Fetch) -> Result<bool, NoMemory>
    ensures { IfOk result (λ takes. takes ≡ takes_fetch tables.now host fetch.now) }
{
    let request = Request::Fetch(fetch.copy()?);
    Ok(tables.is_here(fetch.fid.fileset) && !tables.is_waiting(host, &request))
}

/// The want of a Fetch is made.
fn want_fetch(
    tables: &mut Tables,
    draft: &mut Draft,
    host: HostId,
    fetch: &Fetch,
) -> Result<(), NoMemory>
    requires counted { IsCounted tables.old }
    ensures tables { OnOk result (tables.new ≡ (want_made tables.old draft.old
        (wanted_for host (Asks fetch.now) fetch.now.needs)).tables) }
    ensures draft { OnOk result (draft.new ≡ (want_made tables.old draft.old
        (wanted_for host (Asks fetch.now) fetch.now.needs)).draft) }
    ensures counted { OnOk result (IsCounted tables.new) }
{
    let needs = fetch.needs.copy()?;
    let fetch = fetch.copy()?;
    enqueue(tables, draft, host, Request::Fetch(fetch), needs)
}

/// A host asks for a Change. One that is old is answered as before, if it was the last; where another one of the
/// fileset waits, or no server can answer it, nothing happens; else its want waits from now on.
pub(crate) fn take_change<S: Store>(
    tables: &mut Tables,
    keeper: &mut Keeper<S>,
    draft: &mut Draft,
    host: HostId,
    change: &Change,
) -> Result<(), ExporterFault>
    requires counted { IsCounted tables.old }
    requires of { (S.view keeper.old.store).state.server ≡ tables.old.server }
    requires host { IsHost (S.view keeper.old.store).state.roster host }
    requires call { IsCall (S.view keeper.old.store).state.roster change.now.call }
    requires fit { IsFit (S.view keeper.old.store) keeper.old.left }
    ensures made { S.tells → (user : User) → user_of tables.old.roster host ≡ Some user → OnOk result
        (IsMadeOf tables.old draft.old tables.new draft.new (change_made tables.old draft.old host change.now
        (change_needs (S.view keeper.old.store).state host user change.now))) }
    ensures heard { OnOk result (IsHeardBy (λ needs told.
        IsMadeOf tables.old draft.old tables.new draft.new (change_made tables.old draft.old host change.now needs))) }
    ensures counted { OnOk result (IsCounted tables.new) }
    ensures asked { HasAsked S.tells result (S.view keeper.old.store) (S.view keeper.new.store) keeper.new.left }
{
    if !is_decided_here(tables, change) {
        return Ok(());
    }
    if tables.is_old(host, change) {
        return Ok(repeat(tables, draft, host, change)?);
    }
    if !may_wait(tables, host, change)? {
        return Ok(());
    }
    want_change(tables, keeper, draft, host, change)
}

/// Whether a Change can be answered, and no other one of its fileset waits.
fn may_wait(tables: &Tables, host: HostId, change: &Change) -> Result<bool, NoMemory>
    ensures { IfOk result (λ may. may ≡ may_wait tables.now host change.now) }
{
    let request = Request::Change(change.copy()?);
    Ok(is_meant_so(change) && !tables.is_waiting(host, &request))
}

/// Whether a Change is of filesets themselves, or of one that is here.
fn is_decided_here(tables: &Tables, change: &Change) -> bool
    ensures { result ≡ is_decided_here tables.now change.now }
{
    change.fileset.0 == 0 || tables.is_here(change.fileset)
}

/// The want of a Change is made, of what it needs.
fn want_change<S: Store>(
    tables: &mut Tables,
    keeper: &mut Keeper<S>,
    draft: &mut Draft,
    host: HostId,
    change: &Change,
) -> Result<(), ExporterFault>
    requires counted { IsCounted tables.old }
    requires of { (S.view keeper.old.store).state.server ≡ tables.old.server }
    requires host { IsHost (S.view keeper.old.store).state.roster host }
    requires call { IsCall (S.view keeper.old.store).state.roster change.now.call }
    requires fit { IsFit (S.view keeper.old.store) keeper.old.left }
    ensures made { S.tells → (user : User) → user_of tables.old.roster host ≡ Some user → OnOk result
        (IsMadeOf tables.old draft.old tables.new draft.new (want_made tables.old draft.old (wanted_for host
        (Changes change.now) (change_needs (S.view keeper.old.store).state host user change.now)))) }
    ensures heard { OnOk result (IsHeardBy (λ needs told. IsMadeOf tables.old draft.old tables.new draft.new
        (want_made tables.old draft.old (wanted_for host (Changes change.now) needs)))) }
    ensures counted { OnOk result (IsCounted tables.new) }
    ensures asked { HasAsked S.tells result (S.view keeper.old.store) (S.view keeper.new.store) keeper.new.left }
{
    let needs = needs_of(tables, keeper, host, change)?;
    want_change_of(tables, draft, host, change, needs)?;
    Ok(())
}

/// What a Change needs by the store.
fn needs_of<S: Store>(
    tables: &Tables,
    keeper: &mut Keeper<S>,
    host: HostId,
    change: &Change,
) -> Result<Items<Need>, ExporterFault>
    requires of { (S.view keeper.old.store).state.server ≡ tables.now.server }
    requires host { IsHost (S.view keeper.old.store).state.roster host }
    requires call { IsCall (S.view keeper.old.store).state.roster change.now.call }
    requires fit { IsFit (S.view keeper.old.store) keeper.old.left }
    ensures needs { S.tells → (user : User) → user_of tables.now.roster host ≡ Some user → IfOk result
        (λ needs. needs ≡ change_needs (S.view keeper.old.store).state host user change.now) }
    ensures asked { HasAsked S.tells result (S.view keeper.old.store) (S.view keeper.new.store) keeper.new.left }
{
    let Found { needs, .. } = found_by(tables.server, &tables.roster, keeper, host, change)?;
    Ok(needs)
}

/// The want of a Change is made, of these needs.
fn want_change_of(
    tables: &mut Tables,
    draft: &mut Draft,
    host: HostId,
    change: &Change,
    needs: Items<Need>,
) -> Result<(), NoMemory>
    requires counted { IsCounted tables.old }
    ensures tables { OnOk result (tables.new ≡ (want_made tables.old draft.old
        (wanted_for host (Changes change.now) needs)).tables) }
    ensures draft { OnOk result (draft.new ≡ (want_made tables.old draft.old
        (wanted_for host (Changes change.now) needs)).draft) }
    ensures counted { OnOk result (IsCounted tables.new) }
{
    let change = change.copy()?;
    enqueue(tables, draft, host, Request::Change(change), needs)
}

/// Answers a Change that is old.
fn repeat(tables: &Tables, draft: &mut Draft, host: HostId, change: &Change) -> Result<(), NoMemory>
    ensures { OnOk result
        (draft.new ≡ repeated tables.now draft.old host (answer_again tables.now host change.now)) }
{
    match tables.answer_again(host, change)? {
        Some(done) => draft.say(tables, host, Body::Done(done)),
        None => Ok(()),
    }
}

/// A request of a host wants this from now on, behind all that wait.
pub fn enqueue(
    tables: &mut Tables,
    draft: &mut Draft,
    host: HostId,
    request: Request,
    needs: Items<Need>,
) -> Result<(), NoMemory>
    requires counted { IsCounted tables.old }
    ensures tables { OnOk result
        (tables.new ≡ (want_made tables.old draft.old (wanted_for host request needs)).tables) }
    ensures draft { OnOk result (draft.new ≡ (want_made tables.old draft.old (wanted_for host request needs)).draft) }
    ensures counted { OnOk result (IsCounted tables.new) }
{
    let wanted = Wanted {
        host,
        request,
        moves: 0,
        needs,
    };
    let noted = note_want(draft, &wanted);
    let made = tables.enqueue(wanted);
    noted?;
    draft.fresh = Some(made?);
    Ok(())
}

fn note_want(draft: &mut Draft, wanted: &Wanted) -> Result<(), NoMemory>
    ensures { OnOk result (draft.new ≡ applying draft.old (Wants wanted.now)) }
{
    let copy = copy_of(wanted)?;
    draft.applied.push(Applied::Wants(copy))
}

fn copy_of(wanted: &Wanted) -> Result<Wanted, NoMemory>
    ensures { IfOk result (λ copy. copy ≡ wanted.now) }
{
    let needs = wanted.needs.copy()?;
    let Ok(request) = request_of(&wanted.request) else {
        return Err(NoMemory);
    };
    Ok(Wanted {
        host: wanted.host,
        needs,
        moves: wanted.moves,
        request,
    })
}

fn request_of(request: &Request) -> Result<Request, NoMemory>
    ensures { IfOk result (λ copy. copy ≡ request.now) }
{
    match request {
        Request::Fetch(fetch) => {
            let fetch = fetch.copy()?;
            Ok(Request::Fetch(fetch))
        }
        Request::Change(change) => {
            let change = change.copy()?;
            Ok(Request::Change(change))
        }
    }
}
