ghost use Rattle.std.specs.Option.{option_copied};
ghost use Rattle.std.specs.Prelude.{◌≡◌, ◌≤◌, ◌⊎◌, ◌↔◌, ℕ, List, length, take, unwrap_or, IsTrue, IfOk, OnOk};
ghost use Rattle.std.specs.Prelude.{OnErr};
ghost use Rattle.store_state.specs.Rows.{itself, numbered_name};
ghost use Rattle.message_types.specs.Soundness.{Each, IsCall, IsHost, IsReply};
ghost use Rattle.message_types.specs.declared.asking.Change.{Change as ChangeOf};
ghost use Rattle.message_types.specs.declared.message.Body.TheVariants.{Change};
ghost use Rattle.message_types.specs.declared.message.Message.{Message as MessageOf};
ghost use Rattle.store_acts.specs.Acts.{act_done, dones_of, state_after};
ghost use Rattle.store_acts.specs.Sound.{AllFit, AreActs, Fits, HasName, IsAct, IsDecided, IsFor};
ghost use Rattle.store_state.specs.declared.state.StoreState.{StoreState};
ghost use Rattle.store_acts.specs.declared.act.Act.TheVariants.{Do};
ghost use Rattle.tree_calls.specs.declared.reply.Reply.TheVariants.{Refused};
ghost use Rattle.server_looks.specs.Acts.{AreRepeatable, IsGive, IsRepeatable, doing, epoch_begun, first_reply};
ghost use Rattle.server_looks.specs.Acts.{giving, host_noted, next_number, numbered_at, refusing};
ghost use Rattle.server_looks.specs.Keepers.{
  GoesOn,
  HasAsked,
  HasBrought,
  HasGiven,
  HasTried,
  HasWord,
  IsDoneFor,
  IsFit,
};

use crate::fault::ExporterFault;
use crate::keeper::Keeper;
use base_types::{FilesetId, HostId, Items, Name, NoMemory, Plain};
use message_types::Give;
use store_memory::{Act, Done, HostState, Store};
use tree_calls::{Call, Refusal, Reply};

/// The reply to the call of a host, which is done. It is numbered at the store behind those of the host that were done
/// before.
pub fn do_call<S: Store>(
    keeper: &mut Keeper<S>,
    host: HostId,
    call: &Call,
) -> Result<Reply, ExporterFault>
    requires host { IsHost (S.view keeper.old.store).state.roster host }
    requires call { IsCall (S.view keeper.old.store).state.roster call.now }
    requires decided { IsDecided call.now }
    requires own { IsFor (S.view keeper.old.store).state.server call.now }
    requires fit { IsFit (S.view keeper.old.store) keeper.old.left }
    ensures named { OnOk result (HasName call.now) }
    ensures sound { IfOk result IsReply }
    ensures reply { let state = (S.view keeper.old.store).state in let act = doing state host call.now in
        S.tells → IsRepeatable state act → IfOk result (λ reply. reply ≡ (act_done state act).done.reply) }
    ensures state { let state = (S.view keeper.old.store).state in let act = doing state host call.now in
        S.tells → IsRepeatable state act
        → OnOk result ((S.view keeper.new.store).state ≡ (act_done state act).state) }
    ensures tried { HasTried result (S.view keeper.old.store) (S.view keeper.new.store) keeper.new.left }
    ensures went { S.tells → (came : List MessageOf) → (c : ChangeOf) → HasBrought came host (Change c) → c.call
        ≡ call.now
        → GoesOn came (S.view keeper.old.store) (S.view keeper.new.store) }
{
    if !has_name(call) {
        return Err(ExporterFault::Memory);
    }
    let fileset = numbered_at(keeper, call)?;
    let number = next_number(keeper, host, fileset)?;
    let act = act_of_call(host, number, call)?;
    apply_one(keeper, act)
}

/// The reply to the call of a host, which is refused. It is noted under a fileset.
pub fn refuse_call<S: Store>(
    keeper: &mut Keeper<S>,
    host: HostId,
    fileset: FilesetId,
    refusal: Refusal,
) -> Result<Reply, ExporterFault>
    requires host { IsHost (S.view keeper.old.store).state.roster host }
    requires fit { IsFit (S.view keeper.old.store) keeper.old.left }
    ensures reply { IfOk result (λ reply. reply ≡ Refused refusal) }
    ensures state { let state = (S.view keeper.old.store).state in let act = refusing state host fileset refusal in
        S.tells → IsRepeatable state act
        → OnOk result ((S.view keeper.new.store).state ≡ (act_done state act).state) }
    ensures tried { HasTried result (S.view keeper.old.store) (S.view keeper.new.store) keeper.new.left }
    ensures went { S.tells → (came : List MessageOf) → (c : ChangeOf) → HasBrought came host (Change c) → c.fileset
        ≡ fileset
        → GoesOn came (S.view keeper.old.store) (S.view keeper.new.store) }
{
    let number = next_number(keeper, host, fileset)?;
    let act = Act::Refuse {
        host,
        fileset,
        number,
        refusal,
    };
    drop(apply_one(keeper, act)?);
    Ok(Reply::Refused(refusal))
}

/// Stores what hosts have given back, in this order; nothing is written where there is none. Where the disk fails the
/// store is opened anew, and all given once more.
pub fn give_all<S: Store>(keeper: &mut Keeper<S>, gives: &[Act]) -> Result<(), ExporterFault>
    requires gives { Each IsGive gives.now }
    requires acts { AreActs (S.view keeper.old.store).state.roster (S.view keeper.old.store).state.server gives.now }
    requires fit { IsFit (S.view keeper.old.store) keeper.old.left }
    ensures state { S.tells → AreRepeatable (S.view keeper.old.store).state gives.now
        → OnOk result ((S.view keeper.new.store).state ≡ state_after (S.view keeper.old.store).state gives.now) }
    ensures tried { HasTried result (S.view keeper.old.store) (S.view keeper.new.store) keeper.new.left }
    ensures went { S.tells → (came : List MessageOf) → Each (IsDoneFor came) gives.now
        → GoesOn came (S.view keeper.old.store) (S.view keeper.new.store) }
{
    if gives.is_empty() {
        return Ok(());
    }
    match apply_batch(keeper, gives) {
        Err(ExporterFault::Store) => {
            keeper.mend()?;
            drop(apply_batch(keeper, gives)?);
            Ok(())
        }
        answer => {
            drop(answer?);
            Ok(())
        }
    }
}

/// Notes what is known of a host.
pub fn note_host<S: Store>(
    keeper: &mut Keeper<S>,
    host: HostId,
    state: HostState,
) -> Result<(), ExporterFault>
    requires host { IsHost (S.view keeper.old.store).state.roster host }
    requires fit { IsFit (S.view keeper.old.store) keeper.old.left }
    ensures state { S.tells → OnOk result ((S.view keeper.new.store).state
        ≡ host_noted (S.view keeper.old.store).state host state) }
    ensures tried { HasTried result (S.view keeper.old.store) (S.view keeper.new.store) keeper.new.left }
    ensures went { S.tells → (came : List MessageOf) → HasWord came host
        → GoesOn came (S.view keeper.old.store) (S.view keeper.new.store) }
{
    drop(apply_one(keeper, Act::Host { host, state })?);
    Ok(())
}

/// The server starts anew: its epoch rises. Where the disk fails the store's epoch tells whether it has risen.
pub fn begin_epoch<S: Store>(keeper: &mut Keeper<S>) -> Result<(), ExporterFault>
    requires fit { IsFit (S.view keeper.old.store) keeper.old.left }
    ensures state { S.tells → OnOk result ((S.view keeper.new.store).state
        ≡ epoch_begun (S.view keeper.old.store).state) }
    ensures tried { HasTried result (S.view keeper.old.store) (S.view keeper.new.store) keeper.new.left }
    ensures went { S.tells → (came : List MessageOf)
        → GoesOn came (S.view keeper.old.store) (S.view keeper.new.store) }
{
    let epoch = keeper.store.epoch();
    match begin_once(keeper) {
        Err(ExporterFault::Store) => {}
        answer => return answer,
    }
    keeper.mend()?;
    if keeper.store.epoch() == epoch {
        begin_once(keeper)
    } else {
        Ok(())
    }
}

// Whether a fileset that a call makes gets a name. It always does, by the type of names.
fn has_name(call: &Call) -> bool
    ensures { IsTrue result ↔ HasName call.now }
{
    match call {
        Call::NewFileset { name, .. } => Name::accepts(name.as_bytes()),
        Call::CloneFileset { new, .. } => Name::accepts(new.as_bytes()),
        _ => true,
    }
}

fn begin_once<S: Store>(keeper: &mut Keeper<S>) -> Result<(), ExporterFault>
    requires fit { IsFit (S.view keeper.old.store) keeper.old.left }
    ensures state { S.tells → OnOk result ((S.view keeper.new.store).state
        ≡ epoch_begun (S.view keeper.old.store).state) }
    ensures fault { S.tells → OnErr result (((S.view keeper.new.store).state ≡ (S.view keeper.old.store).state)
        ⊎ ((S.view keeper.new.store).state ≡ epoch_begun (S.view keeper.old.store).state)) }
    ensures given { HasGiven result (S.view keeper.old.store) (S.view keeper.new.store) keeper.new.left }
    ensures went { S.tells → (came : List MessageOf)
        → GoesOn came (S.view keeper.old.store) (S.view keeper.new.store) }
{
    drop(apply_batch(keeper, &[Act::Epoch])?);
    Ok(())
}

fn act_of_call(host: HostId, number: u64, call: &Call) -> Result<Act, NoMemory>
    ensures { IfOk result (λ act. act ≡ Do host number call.now) }
{
    let call = call.copy()?;
    Ok(Act::Do { host, number, call })
}

/// What a host gives back, as an act.
pub fn act_of_give(host: HostId, give: &Give) -> Result<Act, NoMemory>
    ensures { IfOk result (λ act. act ≡ giving host give.now) }
{
    let pieces = give.pieces.copy()?;
    Ok(Act::Give {
        host,
        number: give.number,
        fid: give.fid,
        pieces,
        length: give.length,
    })
}

/// The number behind that of the last call of a host that was decided.
fn next_number<S: Store>(
    keeper: &Keeper<S>,
    host: HostId,
    fileset: FilesetId,
) -> Result<u64, NoMemory>
    requires ready { (S.view keeper.now.store).ready }
    ensures { S.tells → IfOk result (λ number. number ≡ next_number (S.view keeper.now.store).state host fileset) }
{
    let last = keeper.store.last_change(host, fileset);
    if last == u64::MAX {
        return Err(NoMemory);
    }
    Ok(last + 1)
}

/// The fileset under which a store numbers a call: none for the calls about filesets themselves.
fn numbered_at<S: Store>(keeper: &mut Keeper<S>, call: &Call) -> Result<FilesetId, ExporterFault>
    requires fit { IsFit (S.view keeper.old.store) keeper.old.left }
    ensures id { S.tells → IfOk result (λ id. id ≡ numbered_at (S.view keeper.old.store).state call.now) }
    ensures asked { HasAsked S.tells result (S.view keeper.old.store) (S.view keeper.new.store) keeper.new.left }
{
    let Some(name) = numbered_name(call) else {
        return Ok(FilesetId(0));
    };
    let found = keeper.find(name)?;
    Ok(found_or_itself(found))
}

fn found_or_itself(found: Option<FilesetId>) -> FilesetId
    ensures { result ≡ unwrap_or found itself }
{
    match found {
        Some(fileset) => fileset,
        None => FilesetId(0),
    }
}

/// The name of the fileset under which a store numbers a call.
fn numbered_name(call: &Call) -> Option<&Name>
    ensures { option_copied result ≡ numbered_name call.now }
{
    match call {
        Call::NewFileset { .. }
        | Call::CloneFileset { .. }
        | Call::Unlock { .. }
        | Call::CloseFile { .. } => None,
        Call::Create { place }
        | Call::MakeDir { place }
        | Call::Remove { place }
        | Call::Truncate { place, .. }
        | Call::SetAcl { place, .. }
        | Call::Read { place, .. }
        | Call::Write { place, .. }
        | Call::List { place }
        | Call::Stat { place }
        | Call::GetAcl { place, .. }
        | Call::Sync { place }
        | Call::Lock { place, .. }
        | Call::OpenFile { place, .. } => Some(&place.fileset),
        Call::Rename { from, .. } => Some(&from.fileset),
        Call::MoveFileset { fileset, .. } => Some(fileset),
    }
}

/// Does one act, and answers the reply. Where the disk fails the store is opened anew, and the act given once more.
fn apply_one<S: Store>(keeper: &mut Keeper<S>, act: Act) -> Result<Reply, ExporterFault>
    requires act { IsAct (S.view keeper.old.store).state.roster (S.view keeper.old.store).state.server act }
    requires fits { (state : StoreState) → Fits state act }
    requires fit { IsFit (S.view keeper.old.store) keeper.old.left }
    ensures reply { S.tells → IsRepeatable (S.view keeper.old.store).state act
        → IfOk result (λ reply. reply ≡ (act_done (S.view keeper.old.store).state act).done.reply) }
    ensures state { S.tells → IsRepeatable (S.view keeper.old.store).state act
        → OnOk result ((S.view keeper.new.store).state ≡ (act_done (S.view keeper.old.store).state act).state) }
    ensures sound { IfOk result IsReply }
    ensures tried { HasTried result (S.view keeper.old.store) (S.view keeper.new.store) keeper.new.left }
    ensures went { S.tells → (came : List MessageOf) → IsDoneFor came act
        → GoesOn came (S.view keeper.old.store) (S.view keeper.new.store) }
{
    let batch = [act];
    match apply_batch(keeper, &batch) {
        Err(ExporterFault::Store) => {
            keeper.mend()?;
            apply_batch(keeper, &batch)
        }
        answer => answer,
    }
}

#[tactic(auto, using(crate::proofs::Came::went_kept))]
fn apply_batch<S: Store>(keeper: &mut Keeper<S>, batch: &[Act]) -> Result<Reply, ExporterFault>
    requires acts { AreActs (S.view keeper.old.store).state.roster (S.view keeper.old.store).state.server batch.now }
    requires fits { (state : StoreState) → AllFit state batch.now }
    requires fit { IsFit (S.view keeper.old.store) keeper.old.left }
    ensures reply { S.tells → AllFit (S.view keeper.old.store).state batch.now
        → IfOk result (λ reply. reply ≡ first_reply (dones_of (S.view keeper.old.store).state batch.now)) }
    ensures state { S.tells → AllFit (S.view keeper.old.store).state batch.now
        → OnOk result ((S.view keeper.new.store).state ≡ state_after (S.view keeper.old.store).state batch.now) }
    ensures fault { S.tells → AllFit (S.view keeper.old.store).state batch.now → OnErr result ((k : ℕ)
        × (k ≤ length batch.now)
        × ((S.view keeper.new.store).state ≡ state_after (S.view keeper.old.store).state (take k batch.now))) }
    ensures sound { IfOk result IsReply }
    ensures given { HasGiven result (S.view keeper.old.store) (S.view keeper.new.store) keeper.new.left }
    ensures went { S.tells → (came : List MessageOf) → Each (IsDoneFor came) batch.now
        → GoesOn came (S.view keeper.old.store) (S.view keeper.new.store) }
{
    keeper.spend()?;
    let dones = keeper.store.apply(batch)?;
    Ok(first_reply(&dones)?)
}

/// The reply to the first act of a batch. One that is too long for a message, as no store's is that tells what it
/// keeps, counts as no memory.
fn first_reply(dones: &Items<Done>) -> Result<Reply, NoMemory>
    ensures reply { IfOk result (λ reply. reply ≡ first_reply dones.now) }
    ensures sound { IfOk result IsReply }
{
    match dones.at(0) {
        Some(done) => reply_copied(&done.reply),
        None => Ok(Reply::Ok),
    }
}

fn reply_copied(reply: &Reply) -> Result<Reply, NoMemory>
    ensures reply { IfOk result (λ copy. copy ≡ reply.now) }
    ensures sound { IfOk result IsReply }
{
    if !is_reply(reply) {
        return Err(NoMemory);
    }
    reply.copy()
}

/// Whether a reply has room in a message: bytes and a list of names have room for their count.
fn is_reply(reply: &Reply) -> bool
    ensures { IsTrue result ↔ IsReply reply.now }
{
    match reply {
        Reply::Bytes(bytes) => bytes.len() <= 4_294_967_295,
        Reply::Names(names) => names.len() <= 65_535,
        _ => true,
    }
}
