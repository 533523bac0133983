ghost use Rattle.std.specs.Prelude.{◌≡◌, ◌<◌, ◌≤◌, ◌↔◌, Some, IfSome, IsTrue, IfOk, OnOk, List, length};
ghost use Rattle.std.specs.List.{list_all};
ghost use Rattle.base_types.specs.Ids.{same_fid};
ghost use Rattle.message_types.specs.declared.message.Message.{Message as MessageOf};
ghost use Rattle.run_rules.specs.ServerDecides.{refusal_of};
ghost use Rattle.run_rules.specs.Wants.{body_of};
ghost use Rattle.run_rules.specs.declared.applied.Request.TheVariants.{Change as Changes};
ghost use Rattle.server_decides.specs.Deciding.{Decides, HasEffect, IsDecided, IsDecision, IsDoing, IsDueOf};
ghost use Rattle.server_decides.specs.Deciding.{IsDueSo, IsMadeBy, IsNextDue, IsRefusing, MayBeDone, NoneDue};
ghost use Rattle.server_decides.specs.Deciding.{accepted_by, anew_made, decision_by, due_by, is_fresh, is_of_row};
ghost use Rattle.server_decides.specs.Deciding.{is_passed, is_waiting, still_fresh};
ghost use Rattle.server_decides.specs.Saying.{SaysOn};
ghost use Rattle.server_decides.specs.Serving.{AreBrought, CameSo, IsServed};
ghost use Rattle.server_decides.specs.Running.{making};
ghost use Rattle.server_says.specs.Running.{GoesTo};
ghost use Rattle.server_says.specs.Keepers.{GoesOn, HasAsked, HasBrought, HasTried, IsFit};
ghost use Rattle.server_tables.specs.Counting.{IsCounted};
ghost use Rattle.server_tables.specs.Sound.{AreSound};
ghost use Rattle.server_says.specs.Messages.{IsStoreOf};

use base_types::{Fid, Items, NoMemory};
use message_types::Change;
use run_rules::{Request, Wanted};
use server_says::{
    Draft, ExporterFault, Found, Keeper, do_call, enqueue, found_by, refuse_call, write_down,
};
use server_tables::{Pending, Tables, are_same_needs, is_effect, is_use};
use store_memory::Store;
use token_manager::Outlook;
use token_types::Need;
use tree_calls::{Call, Refusal};

/// What is due of a Change that waits.
#[derive(Drop)]
pub enum Decision {
    /// It is refused.
    Refuse(Refusal),
    /// It needs something else than when its want was made: its want is made anew.
    Anew(Items<Need>),
    /// It is done.
    Do,
}

/// A Change that could be decided, by its place among the wants that wait.
#[derive(Drop)]
pub struct Due {
    pub at: usize,
    pub decision: Decision,
}

/// Decides each Change that can be decided: it is refused, done, or its want is made anew. Between two that are written
/// down each is made anew once at most; where a store tells now this and now that, memory counts as having run out.
pub(crate) fn decide_all<S: Store>(
    tables: &mut Tables,
    keeper: &mut Keeper<S>,
    draft: &mut Draft,
) -> Result<(), ExporterFault>
    requires served { IsServed tables.old (S.view keeper.old.store).state }
    requires fit { IsFit (S.view keeper.old.store) keeper.old.left }
    ensures goes { S.tells → OnOk result (GoesTo Decides
        (making tables.old draft.old (S.view keeper.old.store).state)
        (making tables.new draft.new (S.view keeper.new.store).state)) }
    ensures none { S.tells → OnOk result
        (NoneDue tables.new (S.view keeper.new.store).state draft.new.fresh tables.new.pending) }
    ensures says { AreSound tables.old → OnOk result (SaysOn tables.old draft.old tables.new draft.new) }
    ensures served { OnOk result (IsServed tables.new (S.view keeper.new.store).state) }
    ensures tried { HasTried result (S.view keeper.old.store) (S.view keeper.new.store) keeper.new.left }
    ensures went { S.tells → (came : List MessageOf) → AreBrought came tables.old.pending
        → GoesOn came (S.view keeper.old.store) (S.view keeper.new.store) }
{
    for _ in 0..rounds(tables.pending.len()) {
        let Some(due) = next_due(tables, keeper, draft.fresh)? else {
            return Ok(());
        };
        decide(tables, keeper, draft, due)?;
    }
    Err(ExporterFault::Memory)
}

/// More than how often one of so many wants can be decided or made anew.
fn rounds(wants: usize) -> usize
    ensures { wants ≤ result }
{
    let more = wants.saturating_add(1);
    more.saturating_mul(more)
}

/// The first Change that waits and could be decided. One that has just come may be refused even where it isn't its
/// turn.
pub(crate) fn next_due<S: Store>(
    tables: &Tables,
    keeper: &mut Keeper<S>,
    fresh: Option<u64>,
) -> Result<Option<Due>, ExporterFault>
    requires served { IsServed tables.now (S.view keeper.old.store).state }
    requires fit { IsFit (S.view keeper.old.store) keeper.old.left }
    ensures due { S.tells → IfOk result (IsNextDue tables.now (S.view keeper.old.store).state fresh) }
    ensures place { IfOk result (λ due. IfSome due (IsDueSo tables.now.pending)) }
    ensures asked { HasAsked S.tells result (S.view keeper.old.store) (S.view keeper.new.store) keeper.new.left }
{
    for (at, pending) in tables.pending.as_slice().iter().enumerate() {
        let is_fresh = is_fresh(fresh, pending.number);
        if let Some(decision) = decision_on(tables, keeper, pending, is_fresh)? {
            return Ok(Some(Due { at, decision }));
        }
    }
    Ok(None)
}

/// Whether a number is that of the want that the step's request made.
fn is_fresh(fresh: Option<u64>, number: u64) -> bool
    ensures { result ≡ is_fresh fresh number }
{
    match fresh {
        Some(fresh) => fresh == number,
        None => false,
    }
}

/// What is due of a want that waits.
fn decision_on<S: Store>(
    tables: &Tables,
    keeper: &mut Keeper<S>,
    pending: &Pending,
    is_fresh: bool,
) -> Result<Option<Decision>, ExporterFault>
    requires of { IsStoreOf tables.now (S.view keeper.old.store).state }
    requires came { CameSo tables.now.server tables.now.roster pending.now.wanted }
    requires fit { IsFit (S.view keeper.old.store) keeper.old.left }
    ensures due { S.tells → IfOk result (λ due. IsDueOf tables.now (S.view keeper.old.store).state pending.now is_fresh
        due pending.now.wanted.request) }
    ensures may { IfOk result (λ due. IfSome due (λ decision. MayBeDone decision pending.now.wanted.request)) }
    ensures asked { HasAsked S.tells result (S.view keeper.old.store) (S.view keeper.new.store) keeper.new.left }
{
    let Request::Change(change) = &pending.wanted.request else {
        return Ok(None);
    };
    if is_passed(tables, pending, is_fresh) {
        return Ok(None);
    }
    let found = found_by(
        tables.server,
        &tables.roster,
        keeper,
        pending.wanted.host,
        change,
    )?;
    let outlook = tables.tokens.outlook(pending.number);
    Ok(judged(change, &pending.wanted.needs, outlook, found))
}

/// Whether a want isn't looked at: it has to wait, and hasn't just come, or a grace period lasts.
fn is_passed(tables: &Tables, pending: &Pending, is_fresh: bool) -> bool
    ensures { result ≡ is_passed tables.now pending.now is_fresh }
{
    is_waiting(tables.tokens.outlook(pending.number)) && !(is_fresh && tables.hosts.no_grace())
}

pub(crate) fn is_waiting(outlook: Outlook) -> bool
    ensures { result ≡ is_waiting outlook }
{
    matches!(outlook, Outlook::Waits)
}

/// What is due of a Change that wanted these needs, by what it finds now.
fn judged(change: &Change, needs: &Items<Need>, outlook: Outlook, found: Found) -> Option<Decision>
    ensures due { IsDecision change.now needs.now outlook found result }
    ensures may { IfSome result (λ decision. MayBeDone decision (Changes change.now)) }
{
    let same = are_same_needs(found.needs.as_slice(), needs.as_slice());
    decision_by(change, needs, outlook, found, same)
}

fn decision_by(
    change: &Change,
    needs: &Items<Need>,
    outlook: Outlook,
    found: Found,
    same: bool,
) -> Option<Decision>
    ensures due { result ≡ decision_by change.now needs.now outlook found same }
    ensures may { IfSome result (λ decision. MayBeDone decision (Changes change.now)) }
{
    let Found {
        refusal,
        needs: finds,
    } = found;
    match refusal {
        Some(refusal) => Some(Decision::Refuse(refusal)),
        None => accepted_by(change, needs, outlook, finds, same),
    }
}

/// What is due of a Change that isn't refused, and needs this now.
fn accepted_by(
    change: &Change,
    needs: &Items<Need>,
    outlook: Outlook,
    finds: Items<Need>,
    same: bool,
) -> Option<Decision>
    ensures due { result ≡ accepted_by change.now needs.now outlook finds same }
    ensures may { IfSome result (λ decision. MayBeDone decision (Changes change.now)) }
{
    if is_waiting(outlook) || change.enter {
        return None;
    }
    if is_effect(change) && !same {
        return Some(Decision::Anew(finds));
    }
    if !is_of_row(change, needs, same) {
        return None;
    }
    due_by(change, outlook)
}

fn due_by(change: &Change, outlook: Outlook) -> Option<Decision>
    ensures due { result ≡ due_by change.now outlook }
    ensures may { IfSome result (λ decision. MayBeDone decision (Changes change.now)) }
{
    match outlook {
        Outlook::Refused(_) => Some(Decision::Refuse(refusal_of(&change.call))),
        _ if is_effect(change) => Some(Decision::Do),
        _ => None,
    }
}

/// Whether a Change wanted what it finds now, `same`; one of a lock or an open, that of the file which its host found.
pub(crate) fn is_of_row(change: &Change, needs: &Items<Need>, same: bool) -> bool
    ensures { result ≡ is_of_row change.now needs.now same }
{
    same && (!is_use(&change.call) || are_of(needs, change.fid))
}

fn are_of(needs: &Items<Need>, fid: Fid) -> bool
    ensures { result ≡ list_all (λ need. same_fid need.fid fid) needs.now }
{
    needs.as_slice().iter().all(|need| need.fid == fid)
}

/// Why a call is refused where a token in use is in its way.
fn refusal_of(call: &Call) -> Refusal
    ensures { result ≡ refusal_of call.now }
{
    match call {
        Call::Lock { .. } => Refusal::Locked,
        Call::OpenFile { .. } => Refusal::OpenConflict,
        _ => Refusal::InUse,
    }
}

/// What is due is made, of the want at its place.
fn decide<S: Store>(
    tables: &mut Tables,
    keeper: &mut Keeper<S>,
    draft: &mut Draft,
    due: Due,
) -> Result<(), ExporterFault>
    requires due { IsDueSo tables.old.pending due }
    requires served { IsServed tables.old (S.view keeper.old.store).state }
    requires fit { IsFit (S.view keeper.old.store) keeper.old.left }
    ensures decided { S.tells → OnOk result (IsDecided tables.old draft.old (S.view keeper.old.store).state due
        tables.new draft.new (S.view keeper.new.store).state) }
    ensures says { AreSound tables.old → OnOk result (SaysOn tables.old draft.old tables.new draft.new) }
    ensures served { OnOk result (IsServed tables.new (S.view keeper.new.store).state) }
    ensures tried { HasTried result (S.view keeper.old.store) (S.view keeper.new.store) keeper.new.left }
    ensures went { S.tells → (came : List MessageOf) → AreBrought came tables.old.pending
        → GoesOn came (S.view keeper.old.store) (S.view keeper.new.store) }
{
    let pending = tables.unqueue(due.at);
    make(tables, keeper, draft, pending, due.decision)
}

/// What is due is made, of a want that doesn't wait any more.
fn make<S: Store>(
    tables: &mut Tables,
    keeper: &mut Keeper<S>,
    draft: &mut Draft,
    pending: Pending,
    decision: Decision,
) -> Result<(), ExporterFault>
    requires may { MayBeDone decision pending.wanted.request }
    requires came { CameSo tables.old.server tables.old.roster pending.wanted }
    requires served { IsServed tables.old (S.view keeper.old.store).state }
    requires fit { IsFit (S.view keeper.old.store) keeper.old.left }
    ensures decided { S.tells → OnOk result (IsMadeBy tables.old draft.old (S.view keeper.old.store).state pending
        tables.new draft.new (S.view keeper.new.store).state decision) }
    ensures says { AreSound tables.old → OnOk result (SaysOn tables.old draft.old tables.new draft.new) }
    ensures served { OnOk result (IsServed tables.new (S.view keeper.new.store).state) }
    ensures tried { HasTried result (S.view keeper.old.store) (S.view keeper.new.store) keeper.new.left }
    ensures went { S.tells → (came : List MessageOf) → HasBrought came pending.wanted.host
        (body_of pending.wanted.request)
        → GoesOn came (S.view keeper.old.store) (S.view keeper.new.store) }
{
    match decision {
        Decision::Anew(needs) => Ok(make_anew(tables, draft, pending, needs)?),
        Decision::Refuse(refusal) => refuse_want(tables, keeper, draft, pending, refusal),
        Decision::Do => do_want(tables, keeper, draft, pending),
    }
}

/// What was asked is refused.
fn refuse_want<S: Store>(
    tables: &mut Tables,
    keeper: &mut Keeper<S>,
    draft: &mut Draft,
    pending: Pending,
    refusal: Refusal,
) -> Result<(), ExporterFault>
    requires came { CameSo tables.old.server tables.old.roster pending.wanted }
    requires served { IsServed tables.old (S.view keeper.old.store).state }
    requires fit { IsFit (S.view keeper.old.store) keeper.old.left }
    ensures refused { S.tells → OnOk result (IsRefusing tables.old draft.old (S.view keeper.old.store).state
        pending.wanted.host refusal tables.new draft.new (S.view keeper.new.store).state pending.wanted.request) }
    ensures says { AreSound tables.old → OnOk result (SaysOn tables.old draft.old tables.new draft.new) }
    ensures served { OnOk result (IsServed tables.new (S.view keeper.new.store).state) }
    ensures tried { HasTried result (S.view keeper.old.store) (S.view keeper.new.store) keeper.new.left }
    ensures went { S.tells → (came : List MessageOf) → HasBrought came pending.wanted.host
        (body_of pending.wanted.request)
        → GoesOn came (S.view keeper.old.store) (S.view keeper.new.store) }
{
    let refused = refuse(tables, keeper, draft, &pending.wanted, refusal);
    drop(pending);
    refused
}

/// What was asked has its effect.
fn do_want<S: Store>(
    tables: &mut Tables,
    keeper: &mut Keeper<S>,
    draft: &mut Draft,
    pending: Pending,
) -> Result<(), ExporterFault>
    requires may { HasEffect pending.wanted.request }
    requires came { CameSo tables.old.server tables.old.roster pending.wanted }
    requires served { IsServed tables.old (S.view keeper.old.store).state }
    requires fit { IsFit (S.view keeper.old.store) keeper.old.left }
    ensures done { S.tells → OnOk result (IsDoing tables.old draft.old (S.view keeper.old.store).state
        pending.wanted.host tables.new draft.new (S.view keeper.new.store).state pending.wanted.request) }
    ensures says { AreSound tables.old → OnOk result (SaysOn tables.old draft.old tables.new draft.new) }
    ensures served { OnOk result (IsServed tables.new (S.view keeper.new.store).state) }
    ensures tried { HasTried result (S.view keeper.old.store) (S.view keeper.new.store) keeper.new.left }
    ensures went { S.tells → (came : List MessageOf) → HasBrought came pending.wanted.host
        (body_of pending.wanted.request)
        → GoesOn came (S.view keeper.old.store) (S.view keeper.new.store) }
{
    let done = do_now(tables, keeper, draft, &pending.wanted);
    drop(pending);
    done
}

/// A request is refused; so is a Change alone.
fn refuse<S: Store>(
    tables: &mut Tables,
    keeper: &mut Keeper<S>,
    draft: &mut Draft,
    wanted: &Wanted,
    refusal: Refusal,
) -> Result<(), ExporterFault>
    requires came { CameSo tables.old.server tables.old.roster wanted.now }
    requires served { IsServed tables.old (S.view keeper.old.store).state }
    requires fit { IsFit (S.view keeper.old.store) keeper.old.left }
    ensures refused { S.tells → OnOk result (IsRefusing tables.old draft.old (S.view keeper.old.store).state
        wanted.now.host refusal tables.new draft.new (S.view keeper.new.store).state wanted.now.request) }
    ensures says { AreSound tables.old → OnOk result (SaysOn tables.old draft.old tables.new draft.new) }
    ensures served { OnOk result (IsServed tables.new (S.view keeper.new.store).state) }
    ensures tried { HasTried result (S.view keeper.old.store) (S.view keeper.new.store) keeper.new.left }
    ensures went { S.tells → (came : List MessageOf) → HasBrought came wanted.now.host (body_of wanted.now.request)
        → GoesOn came (S.view keeper.old.store) (S.view keeper.new.store) }
{
    let Request::Change(change) = &wanted.request else {
        return Ok(());
    };
    let reply = refuse_call(keeper, wanted.host, change.fileset, refusal)?;
    write_down(tables, draft, wanted.host, change, &reply)?;
    Ok(())
}

/// A Change has its effect.
fn do_now<S: Store>(
    tables: &mut Tables,
    keeper: &mut Keeper<S>,
    draft: &mut Draft,
    wanted: &Wanted,
) -> Result<(), ExporterFault>
    requires may { HasEffect wanted.now.request }
    requires came { CameSo tables.old.server tables.old.roster wanted.now }
    requires served { IsServed tables.old (S.view keeper.old.store).state }
    requires fit { IsFit (S.view keeper.old.store) keeper.old.left }
    ensures done { S.tells → OnOk result (IsDoing tables.old draft.old (S.view keeper.old.store).state
        wanted.now.host tables.new draft.new (S.view keeper.new.store).state wanted.now.request) }
    ensures says { AreSound tables.old → OnOk result (SaysOn tables.old draft.old tables.new draft.new) }
    ensures served { OnOk result (IsServed tables.new (S.view keeper.new.store).state) }
    ensures tried { HasTried result (S.view keeper.old.store) (S.view keeper.new.store) keeper.new.left }
    ensures went { S.tells → (came : List MessageOf) → HasBrought came wanted.now.host (body_of wanted.now.request)
        → GoesOn came (S.view keeper.old.store) (S.view keeper.new.store) }
{
    let Request::Change(change) = &wanted.request else {
        return Ok(());
    };
    let reply = do_call(keeper, wanted.host, &change.call)?;
    write_down(tables, draft, wanted.host, change, &reply)?;
    Ok(())
}

/// The want of a request is made anew. One that has just come is still the one that has.
fn make_anew(
    tables: &mut Tables,
    draft: &mut Draft,
    pending: Pending,
    needs: Items<Need>,
) -> Result<(), NoMemory>
    requires counted { IsCounted tables.old }
    ensures tables { OnOk result (tables.new ≡ (anew_made tables.old draft.old pending needs).tables) }
    ensures draft { OnOk result (draft.new ≡ (anew_made tables.old draft.old pending needs).draft) }
    ensures counted { OnOk result (IsCounted tables.new) }
{
    let fresh = draft.fresh;
    let number = pending.number;
    let wanted = pending.wanted;
    enqueue(tables, draft, wanted.host, wanted.into_request(), needs)?;
    keep_fresh(draft, fresh, number);
    Ok(())
}

/// The want that has just come is the one that was, unless its number was this.
fn keep_fresh(draft: &mut Draft, fresh: Option<u64>, number: u64)
    ensures { draft.new ≡ still_fresh fresh number draft.old }
{
    if !is_fresh(fresh, number) {
        draft.fresh = fresh;
    }
}
