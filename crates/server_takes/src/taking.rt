ghost use Rattle.std.specs.Prelude.{◌≡◌, true, false, [], List, Some, None, OnOk};
ghost use Rattle.base_types.specs.declared.user.User.{User};
ghost use Rattle.message_types.specs.Soundness.{Each};
ghost use Rattle.message_types.specs.declared.message.Body.TheVariants.{GiveBack};
ghost use Rattle.message_types.specs.declared.message.Message.{Message as MessageOf};
ghost use Rattle.run_rules.specs.Past.{In};
ghost use Rattle.server_looks.specs.Acts.{IsGive};
ghost use Rattle.server_looks.specs.Keepers.{GoesOn, HasAsked, HasTried, IsFit};
ghost use Rattle.server_tables.specs.Counting.{IsCounted};
ghost use Rattle.server_takes.specs.Messages.{IsFor, IsHeard, IsHeardBy, IsOneMore, IsStored, IsStoreOf, IsTakenOf};
ghost use Rattle.server_takes.specs.Messages.{asks_store, is_request, needs_by};
ghost use Rattle.server_takes.specs.Messages.{other_state, request_state, state_taken, told_by};
ghost use Rattle.server_takes.specs.Taking.{IsOtherTaken, IsRequestTaken};
ghost use Rattle.store_acts.specs.Acts.{state_after};
ghost use Rattle.tree_calls.specs.Rosters.{user_of};

use crate::asking::{take_change, take_fetch};
use crate::claiming::take_claim;
use crate::draft::Draft;
use crate::giving::{gather_give_back, take_give_back, take_kept, take_returned};
use crate::greeting::{take_bye, take_down, take_hello};
use base_types::{Items, NoMemory};
use message_types::{Body, Give, Message};
use server_looks::{ExporterFault, Keeper};
use server_tables::Tables;
use store_memory::{Act, Store};

/// What a message that came makes of the tables and of the store, and what is said to it at once. Nothing is taken of a
/// host that has stopped; of one that isn't live a greeting and a farewell alone; and what was sent in another epoch is
/// answered by the word that the server has restarted.
pub fn take_message<S: Store>(
    tables: &mut Tables,
    keeper: &mut Keeper<S>,
    draft: &mut Draft,
    message: &Message,
) -> Result<(), ExporterFault>
    requires counted { IsCounted tables.old }
    requires given { IsFor tables.old.server tables.old.roster message.now }
    requires of { IsStoreOf tables.old (S.view keeper.old.store).state }
    requires fit { IsFit (S.view keeper.old.store) keeper.old.left }
    ensures taken { S.tells → (user : User) → user_of tables.old.roster message.now.host ≡ Some user
        → OnOk result (IsTakenOf tables.old draft.old message.now user (S.view keeper.old.store).state
        tables.new draft.new) }
    ensures heard { OnOk result (IsHeard tables.old draft.old message.now tables.new draft.new) }
    ensures state { S.tells → IsStored message.now (S.view keeper.old.store).state message.now.body
        → OnOk result ((S.view keeper.new.store).state
        ≡ state_taken tables.old message.now (S.view keeper.old.store).state) }
    ensures counted { OnOk result (IsCounted tables.new) }
    ensures tried { HasTried result (S.view keeper.old.store) (S.view keeper.new.store) keeper.new.left }
    ensures went { S.tells → (came : List MessageOf) → In message.now came
        → GoesOn came (S.view keeper.old.store) (S.view keeper.new.store) }
{
    let host = message.host;
    if tables.hosts.is_down(host) {
        return Ok(());
    }
    match &message.body {
        Body::Down => take_down(tables, keeper, draft, host),
        Body::Hello => take_hello(tables, keeper, draft, host),
        Body::Bye => take_bye(tables, keeper, draft, host, message.epoch),
        _ => take_other(tables, keeper, draft, message),
    }
}

/// A message that is no greeting and no farewell.
fn take_other<S: Store>(
    tables: &mut Tables,
    keeper: &mut Keeper<S>,
    draft: &mut Draft,
    message: &Message,
) -> Result<(), ExporterFault>
    requires counted { IsCounted tables.old }
    requires given { IsFor tables.old.server tables.old.roster message.now }
    requires of { IsStoreOf tables.old (S.view keeper.old.store).state }
    requires fit { IsFit (S.view keeper.old.store) keeper.old.left }
    ensures taken { S.tells → (user : User) → user_of tables.old.roster message.now.host ≡ Some user
        → OnOk result (IsOtherTaken tables.old draft.old message.now
        (needs_by (S.view keeper.old.store).state message.now user message.now.body)
        (told_by (S.view keeper.old.store).state message.now.body) tables.new draft.new) }
    ensures heard { OnOk result (IsHeardBy (λ needs told.
        IsOtherTaken tables.old draft.old message.now needs told tables.new draft.new)) }
    ensures state { S.tells → IsStored message.now (S.view keeper.old.store).state message.now.body
        → OnOk result ((S.view keeper.new.store).state
        ≡ other_state tables.old message.now (S.view keeper.old.store).state message.now.body) }
    ensures counted { OnOk result (IsCounted tables.new) }
    ensures tried { HasTried result (S.view keeper.old.store) (S.view keeper.new.store) keeper.new.left }
    ensures went { S.tells → (came : List MessageOf) → In message.now came
        → GoesOn came (S.view keeper.old.store) (S.view keeper.new.store) }
{
    if !tables.hosts.is_live(message.host) {
        return Ok(());
    }
    if message.epoch != tables.hosts.epoch {
        return Ok(draft.say(tables, message.host, Body::Restarted)?);
    }
    if message.moves != 0 {
        return Ok(());
    }
    take_request(tables, keeper, draft, message)
}

/// A message of this epoch, from a live host, that is no greeting and no farewell.
fn take_request<S: Store>(
    tables: &mut Tables,
    keeper: &mut Keeper<S>,
    draft: &mut Draft,
    message: &Message,
) -> Result<(), ExporterFault>
    requires counted { IsCounted tables.old }
    requires given { IsFor tables.old.server tables.old.roster message.now }
    requires of { IsStoreOf tables.old (S.view keeper.old.store).state }
    requires fit { IsFit (S.view keeper.old.store) keeper.old.left }
    ensures taken { S.tells → (user : User) → user_of tables.old.roster message.now.host ≡ Some user
        → OnOk result (IsRequestTaken tables.old draft.old message.now.host
        (needs_by (S.view keeper.old.store).state message.now user message.now.body)
        (told_by (S.view keeper.old.store).state message.now.body) tables.new draft.new message.now.body) }
    ensures heard { OnOk result (IsHeardBy (λ needs told. IsRequestTaken tables.old draft.old
        message.now.host needs told tables.new draft.new message.now.body)) }
    ensures state { S.tells → IsStored message.now (S.view keeper.old.store).state message.now.body
        → OnOk result ((S.view keeper.new.store).state
        ≡ request_state tables.old message.now (S.view keeper.old.store).state message.now.body) }
    ensures counted { OnOk result (IsCounted tables.new) }
    ensures tried { HasTried result (S.view keeper.old.store) (S.view keeper.new.store) keeper.new.left }
    ensures went { S.tells → (came : List MessageOf) → In message.now came
        → GoesOn came (S.view keeper.old.store) (S.view keeper.new.store) }
{
    let host = message.host;
    match &message.body {
        Body::Change(change) => take_change(tables, keeper, draft, host, change),
        Body::GiveBack(give) => take_give_back(tables, keeper, draft, host, give),
        _ => Ok(take_alone(tables, draft, message)?),
    }
}

/// One that asks nothing of the store.
fn take_alone(tables: &mut Tables, draft: &mut Draft, message: &Message) -> Result<(), NoMemory>
    requires counted { IsCounted tables.old }
    ensures taken { asks_store message.now.body ≡ false → OnOk result (IsRequestTaken tables.old draft.old
        message.now.host [] None tables.new draft.new message.now.body) }
    ensures counted { OnOk result (IsCounted tables.new) }
{
    let host = message.host;
    match &message.body {
        Body::Fetch(fetch) => take_fetch(tables, draft, host, fetch),
        Body::Returned(named) => take_returned(tables, host, named),
        Body::Kept(named) => {
            take_kept(tables, host, named);
            Ok(())
        }
        Body::Reclaim(claim) => take_claim(tables, draft, host, claim),
        _ => Ok(()),
    }
}

/// Whether a message counts as a request: it is of this epoch, from a live host that hasn't stopped.
pub fn is_request(tables: &Tables, message: &Message) -> bool
    ensures { result ≡ is_request tables.now message.now }
{
    let host = message.host;
    !tables.hosts.is_down(host)
        && (tables.hosts.is_live(host)
            && (message.epoch == tables.hosts.epoch && message.moves == 0))
}

/// What a give-back that counts as a request makes of the tables, and what is said to it at once. What it brings waits
/// to be stored, behind what waits already.
pub fn gather_message<S: Store>(
    tables: &mut Tables,
    keeper: &mut Keeper<S>,
    waiting: &mut Items<Act>,
    draft: &mut Draft,
    message: &Message,
    give: &Give,
) -> Result<(), ExporterFault>
    requires counted { IsCounted tables.old }
    requires given { IsFor tables.old.server tables.old.roster message.now }
    requires counts { is_request tables.old message.now ≡ true }
    requires body { message.now.body ≡ GiveBack give.now }
    requires of { IsStoreOf tables.old (S.view keeper.old.store).state }
    requires gives { Each IsGive waiting.old }
    requires fit { IsFit (S.view keeper.old.store) keeper.old.left }
    ensures taken { S.tells → (user : User) → OnOk result (IsTakenOf tables.old draft.old message.now user
        (state_after (S.view keeper.old.store).state waiting.old) tables.new draft.new) }
    ensures heard { OnOk result (IsHeard tables.old draft.old message.now tables.new draft.new) }
    ensures state { S.tells → OnOk result (state_after (S.view keeper.new.store).state waiting.new
        ≡ state_taken tables.old message.now (state_after (S.view keeper.old.store).state waiting.old)) }
    ensures waits { OnOk result (IsOneMore message.now.host give.now waiting.old waiting.new) }
    ensures counted { OnOk result (IsCounted tables.new) }
    ensures asked { HasAsked S.tells result (S.view keeper.old.store) (S.view keeper.new.store) keeper.new.left }
    ensures went { S.tells → (came : List MessageOf)
        → GoesOn came (S.view keeper.old.store) (S.view keeper.new.store) }
{
    gather_give_back(tables, keeper, waiting, draft, message.host, give)
}
