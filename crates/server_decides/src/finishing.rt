ghost use Rattle.std.specs.List.{list_all};
ghost use Rattle.std.specs.Prelude.{◌≡◌, ◌<◌, true, [], length, IfOk, IsTrue, List, OnOk};
ghost use Rattle.message_types.specs.Soundness.{Each};
ghost use Rattle.message_types.specs.declared.message.Body.TheVariants.{GiveBack};
ghost use Rattle.message_types.specs.declared.message.Message.{Message as MessageOf};
ghost use Rattle.run_rules.specs.Past.{In};
ghost use Rattle.store_acts.specs.Acts.{state_after};
ghost use Rattle.store_state.specs.declared.state.StoreState.{StoreState};
ghost use Rattle.server_decides.specs.Deciding.{is_waiting, outlook_at};
ghost use Rattle.server_decides.specs.Gathering.{AreGives, IsIdle, IsStoredOrSame};
ghost use Rattle.server_decides.specs.declared.finishing.TheConstants.{GIVES_MAX};
ghost use Rattle.server_says.specs.Acts.{IsLimited};
ghost use Rattle.server_tables.specs.Counting.{IsCounted};
ghost use Rattle.server_decides.specs.Finishing.{IsFinished, IsTakenAndFinished};
ghost use Rattle.server_decides.specs.Saying.{SaysOn};
ghost use Rattle.server_decides.specs.Serving.{AreBrought, IsServed};
ghost use Rattle.server_says.specs.Keepers.{GoesOn, HasTried, IsDoneFor, IsFit};
ghost use Rattle.server_tables.specs.Sound.{AreSound};
ghost use Rattle.server_says.specs.Messages.{IsFor, is_request};

use crate::deciding::{decide_all, is_waiting, next_due};
use crate::sending::send_all;
use base_types::{Items, NoMemory};
use message_types::{Body, Give, Message};
use server_says::{
    Draft, ExporterFault, Keeper, admit_all, gather_message, give_all, is_request, revoke_all,
    take_message,
};
use server_tables::Tables;
use store_memory::{Act, Store};

/// How many acts of give-backs wait at most, to be stored at once.
pub const GIVES_MAX: usize = 8;

/// Takes a message that is addressed to the server and sound, and what each step ends with. What a give-back brings may
/// wait to be stored; before anything else is taken what waits is stored. It answers whether no Change is left that is
/// to be decided.
pub fn take_or_gather<S: Store>(
    tables: &mut Tables,
    keeper: &mut Keeper<S>,
    waiting: &mut Items<Act>,
    draft: &mut Draft,
    message: &Message,
) -> Result<bool, ExporterFault>
    requires given { IsFor tables.old.server tables.old.roster message.now }
    requires served { IsServed tables.old (S.view keeper.old.store).state }
    requires gives { AreGives (S.view keeper.old.store).state waiting.old }
    requires fit { IsFit (S.view keeper.old.store) keeper.old.left }
    ensures taken { S.tells → IsLimited (S.view keeper.old.store).state → IfOk result
        (IsTakenAndFinished tables.old draft.old message.now
        (state_after (S.view keeper.old.store).state waiting.old) tables.new draft.new
        (state_after (S.view keeper.new.store).state waiting.new)) }
    ensures gives { OnOk result (AreGives (S.view keeper.new.store).state waiting.new) }
    ensures stays { OnOk result
        (IsStoredOrSame S.tells (S.view keeper.old.store).state (S.view keeper.new.store).state waiting.new) }
    ensures says { AreSound tables.old → OnOk result (SaysOn tables.old draft.old tables.new draft.new) }
    ensures served { OnOk result (IsServed tables.new (S.view keeper.new.store).state) }
    ensures tried { HasTried result (S.view keeper.old.store) (S.view keeper.new.store) keeper.new.left }
    ensures went { S.tells → (came : List MessageOf) → In message.now came → AreBrought came tables.old.pending
        → Each (IsDoneFor came) waiting.old
        → GoesOn came (S.view keeper.old.store) (S.view keeper.new.store) }
    ensures brought { S.tells → (came : List MessageOf) → In message.now came → AreBrought came tables.old.pending
        → OnOk result (AreBrought came tables.new.pending) }
    ensures waits { (came : List MessageOf) → In message.now came → Each (IsDoneFor came) waiting.old
        → OnOk result (Each (IsDoneFor came) waiting.new) }
{
    if waiting.len() < GIVES_MAX && is_request(tables, message) {
        if let Body::GiveBack(give) = &message.body {
            return gather_and_finish(tables, keeper, waiting, draft, message, give);
        }
    }
    store_all(keeper, waiting)?;
    take_and_finish(tables, keeper, draft, message)
}

/// Takes a message that is addressed to the server and sound, and what each step ends with. It answers whether no
/// Change is left that is to be decided.
pub fn take_and_finish<S: Store>(
    tables: &mut Tables,
    keeper: &mut Keeper<S>,
    draft: &mut Draft,
    message: &Message,
) -> Result<bool, ExporterFault>
    requires given { IsFor tables.old.server tables.old.roster message.now }
    requires served { IsServed tables.old (S.view keeper.old.store).state }
    requires fit { IsFit (S.view keeper.old.store) keeper.old.left }
    ensures taken { S.tells → IfOk result (IsTakenAndFinished tables.old draft.old message.now
        (S.view keeper.old.store).state tables.new draft.new (S.view keeper.new.store).state) }
    ensures says { AreSound tables.old → OnOk result (SaysOn tables.old draft.old tables.new draft.new) }
    ensures served { OnOk result (IsServed tables.new (S.view keeper.new.store).state) }
    ensures tried { HasTried result (S.view keeper.old.store) (S.view keeper.new.store) keeper.new.left }
    ensures went { S.tells → (came : List MessageOf) → In message.now came → AreBrought came tables.old.pending
        → GoesOn came (S.view keeper.old.store) (S.view keeper.new.store) }
    ensures brought { S.tells → (came : List MessageOf) → In message.now came → AreBrought came tables.old.pending
        → OnOk result (AreBrought came tables.new.pending) }
{
    tables.tokens.laws();
    take_message(tables, keeper, draft, message)?;
    finish(tables, keeper, draft)
}

/// Takes a give-back that counts as a request, and what each step ends with. What it brings waits to be stored, behind
/// what waits already, as long as nothing can come of wants and claims; else all of it is stored. It answers whether no
/// Change is left that is to be decided.
fn gather_and_finish<S: Store>(
    tables: &mut Tables,
    keeper: &mut Keeper<S>,
    waiting: &mut Items<Act>,
    draft: &mut Draft,
    message: &Message,
    give: &Give,
) -> Result<bool, ExporterFault>
    requires given { IsFor tables.old.server tables.old.roster message.now }
    requires counts { is_request tables.old message.now ≡ true }
    requires body { message.now.body ≡ GiveBack give.now }
    requires served { IsServed tables.old (S.view keeper.old.store).state }
    requires gives { AreGives (S.view keeper.old.store).state waiting.old }
    requires room { length waiting.old < GIVES_MAX }
    requires fit { IsFit (S.view keeper.old.store) keeper.old.left }
    ensures taken { S.tells → IsLimited (S.view keeper.old.store).state → IfOk result
        (IsTakenAndFinished tables.old draft.old message.now
        (state_after (S.view keeper.old.store).state waiting.old) tables.new draft.new
        (state_after (S.view keeper.new.store).state waiting.new)) }
    ensures gives { OnOk result (AreGives (S.view keeper.new.store).state waiting.new) }
    ensures stays { OnOk result
        (IsStoredOrSame S.tells (S.view keeper.old.store).state (S.view keeper.new.store).state waiting.new) }
    ensures says { AreSound tables.old → OnOk result (SaysOn tables.old draft.old tables.new draft.new) }
    ensures served { OnOk result (IsServed tables.new (S.view keeper.new.store).state) }
    ensures tried { HasTried result (S.view keeper.old.store) (S.view keeper.new.store) keeper.new.left }
    ensures went { S.tells → (came : List MessageOf) → In message.now came → AreBrought came tables.old.pending
        → Each (IsDoneFor came) waiting.old
        → GoesOn came (S.view keeper.old.store) (S.view keeper.new.store) }
    ensures brought { S.tells → (came : List MessageOf) → In message.now came → AreBrought came tables.old.pending
        → OnOk result (AreBrought came tables.new.pending) }
    ensures waits { (came : List MessageOf) → In message.now came → Each (IsDoneFor came) waiting.old
        → OnOk result (Each (IsDoneFor came) waiting.new) }
{
    tables.tokens.laws();
    gather_message(tables, keeper, waiting, draft, message, give)?;
    if is_idle(tables, draft) {
        return Ok(finish_idle(tables, draft)?);
    }
    store_all(keeper, waiting)?;
    finish(tables, keeper, draft)
}

/// Stores what waits, and then nothing does.
pub fn store_all<S: Store>(
    keeper: &mut Keeper<S>,
    waiting: &mut Items<Act>,
) -> Result<(), ExporterFault>
    requires gives { AreGives (S.view keeper.old.store).state waiting.old }
    requires fit { IsFit (S.view keeper.old.store) keeper.old.left }
    ensures state { S.tells → IsLimited (S.view keeper.old.store).state → OnOk result
        ((S.view keeper.new.store).state ≡ state_after (S.view keeper.old.store).state waiting.old) }
    ensures none { OnOk result (waiting.new ≡ []) }
    ensures tried { HasTried result (S.view keeper.old.store) (S.view keeper.new.store) keeper.new.left }
    ensures went { S.tells → (came : List MessageOf) → Each (IsDoneFor came) waiting.old
        → GoesOn came (S.view keeper.old.store) (S.view keeper.new.store) }
{
    give_all(keeper, waiting.as_slice())?;
    waiting.truncate(0);
    Ok(())
}

/// Whether nothing can come of wants and claims: each want has to wait, none is new, and no claim can be granted.
fn is_idle(tables: &Tables, draft: &Draft) -> bool
    ensures { IsTrue result → IsIdle tables.now draft.now }
{
    draft.fresh.is_none()
        && tables.recovering.first_ripe(tables.server).is_none()
        && all_wait(tables)
}

fn all_wait(tables: &Tables) -> bool
    ensures { result ≡ list_all (λ pending. is_waiting (outlook_at tables.now pending.number)) tables.now.pending }
{
    tables.pending.as_slice().iter().all(|pending| is_waiting(
        tables.tokens.outlook(pending.number),
    ))
}

/// What a step ends with where nothing can come of wants and claims, whatever the store keeps: tokens are asked back.
/// It answers whether no Change is left that is to be decided.
fn finish_idle(tables: &mut Tables, draft: &mut Draft) -> Result<bool, NoMemory>
    requires idle { IsIdle tables.old draft.old }
    requires counted { IsCounted tables.old }
    ensures finished { (state : StoreState) → IsServed tables.old state → IfOk result (λ rested.
        IsFinished tables.old draft.old state tables.new draft.new state rested) }
    ensures says { AreSound tables.old → OnOk result (SaysOn tables.old draft.old tables.new draft.new) }
    ensures served { (state : StoreState) → IsServed tables.old state → OnOk result (IsServed tables.new state) }
{
    tables.tokens.laws();
    revoke_all(tables, draft)?;
    Ok(all_wait(tables))
}

/// What each step ends with, after its cause: Changes are decided, claims granted, requests answered, and tokens asked
/// back. It answers whether no Change is left that is to be decided.
pub fn finish<S: Store>(
    tables: &mut Tables,
    keeper: &mut Keeper<S>,
    draft: &mut Draft,
) -> Result<bool, ExporterFault>
    requires served { IsServed tables.old (S.view keeper.old.store).state }
    requires fit { IsFit (S.view keeper.old.store) keeper.old.left }
    ensures finished { S.tells → IfOk result (IsFinished tables.old draft.old (S.view keeper.old.store).state
        tables.new draft.new (S.view keeper.new.store).state) }
    ensures says { AreSound tables.old → OnOk result (SaysOn tables.old draft.old tables.new draft.new) }
    ensures served { OnOk result (IsServed tables.new (S.view keeper.new.store).state) }
    ensures tried { HasTried result (S.view keeper.old.store) (S.view keeper.new.store) keeper.new.left }
    ensures went { S.tells → (came : List MessageOf) → AreBrought came tables.old.pending
        → GoesOn came (S.view keeper.old.store) (S.view keeper.new.store) }
    ensures brought { S.tells → (came : List MessageOf) → AreBrought came tables.old.pending
        → OnOk result (AreBrought came tables.new.pending) }
{
    decide_all(tables, keeper, draft)?;
    admit_all(tables, draft)?;
    send_all(tables, keeper, draft)?;
    tables.tokens.laws();
    revoke_all(tables, draft)?;
    Ok(next_due(tables, keeper, None)?.is_none())
}
