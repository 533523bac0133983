ghost use Rattle.std.specs.List.{list_all};
ghost use Rattle.std.specs.Prelude.{◌≡◌, ◌<◌, ◌↔◌, [], true, Some, None, if◌then◌else◌, length};
ghost use Rattle.std.specs.Prelude.{IfOk, IfSome, IsTrue, OnOk};
ghost use Rattle.message_types.specs.Soundness.{IsTold};
ghost use Rattle.run_rules.specs.declared.applied.Request.TheVariants.{Change as Changes};
ghost use Rattle.store_memory.specs.Reading.{status_told};
ghost use Rattle.server_decides.specs.Deciding.{IsPlaced};
ghost use Rattle.server_decides.specs.Saying.{AreGranted, IsOfHere, IsSayable, MaySay, SaysOn, are_brought, file_for};
ghost use Rattle.server_decides.specs.Saying.{has_room, is_brought};
ghost use Rattle.server_decides.specs.Serving.{CameSo, IsServed};
ghost use Rattle.server_decides.specs.Sending.{HasSentAll, IsChangeSending, IsLeftAt, IsSending, IsUsing};
ghost use Rattle.server_decides.specs.Sending.{done_made, empty_made, empty_with, entering_by, file_of, grant_made};
ghost use Rattle.server_decides.specs.Sending.{grant_of, grant_with, granted_made, granted_tokens, granting};
ghost use Rattle.server_decides.specs.Sending.{is_granted, said_made, sent_made, tokens_of, use_made, use_with};
ghost use Rattle.server_decides.specs.Sending.{using_by};
ghost use Rattle.server_decides.specs.declared.sending.Sending.TheVariants.{Grant as Grants};
ghost use Rattle.server_says.specs.Asking.{entered_told};
ghost use Rattle.server_says.specs.Keepers.{HasAsked, IsFit};
ghost use Rattle.server_tables.specs.Counting.{IsCounted};
ghost use Rattle.server_tables.specs.Places.{is_of};
ghost use Rattle.server_tables.specs.Sound.{AreSound};
ghost use Rattle.server_tables.specs.Updates.{unqueued};
ghost use Rattle.server_says.specs.Messages.{IsStoreOf};
ghost use Rattle.server_says.specs.Taking.{IsMadeOf};

use crate::deciding::{is_of_row, is_waiting};
use base_types::{Fid, FilesetId, HostId, Items, NoMemory, Plain};
use message_types::{Body, Bring, Change, Done, DoneIs, Fetch, Grant};
use run_rules::Request;
use server_says::{
    Draft, ExporterFault, Found, Keeper, entries_told, fileset_entered, found_by, pieces_told,
};
use server_tables::{NO_FID, Pending, Tables, are_same_needs, is_use, without_token};
use std::alloc::Global;
use store_memory::Store;
use token_manager::{Outlook, Ready};
use token_types::{Kind, Need, Token};
use tree_calls::{DirEntry, Piece, Status};

/// What becomes of a want that can be answered.
#[derive(Drop)]
pub enum Sending {
    /// A Fetch is granted.
    Grant(Fetch),
    /// A lock or an open is granted.
    Use(FilesetId, u64),
    /// A Change is answered so, and brings no token.
    Say(FilesetId, u64, DoneIs),
}

/// Answers each Fetch, lock, open and entering that can be granted, in the order in which they wait.
pub(crate) fn send_all<S: Store>(
    tables: &mut Tables,
    keeper: &mut Keeper<S>,
    draft: &mut Draft,
) -> Result<(), ExporterFault>
    requires served { IsServed tables.old (S.view keeper.old.store).state }
    requires fit { IsFit (S.view keeper.old.store) keeper.old.left }
    ensures sent { S.tells → OnOk result
        (HasSentAll (S.view keeper.old.store).state tables.old draft.old tables.new draft.new) }
    ensures says { AreSound tables.old → OnOk result (SaysOn tables.old draft.old tables.new draft.new) }
    ensures served { OnOk result (IsServed tables.new (S.view keeper.new.store).state) }
    ensures asked { HasAsked S.tells result (S.view keeper.old.store) (S.view keeper.new.store) keeper.new.left }
{
    let mut at = 0;
    while at < tables.pending.len() {
        match sending_at(tables, keeper, at)? {
            Some(sending) => send(tables, keeper, draft, at, sending)?,
            None => at += 1,
        }
    }
    Ok(())
}

/// What becomes of a want, by its place among those that wait.
fn sending_at<S: Store>(
    tables: &Tables,
    keeper: &mut Keeper<S>,
    at: usize,
) -> Result<Option<Sending>, ExporterFault>
    requires place { at < length tables.now.pending }
    requires served { IsServed tables.now (S.view keeper.old.store).state }
    requires fit { IsFit (S.view keeper.old.store) keeper.old.left }
    ensures sending { S.tells → (p : Pending) → IsPlaced tables.now.pending at p
        → IfOk result (IsSending tables.now (S.view keeper.old.store).state p) }
    ensures sayable { IfOk result (λ sending. IfSome sending (IsSayable tables.now.server)) }
    ensures asked { HasAsked S.tells result (S.view keeper.old.store) (S.view keeper.new.store) keeper.new.left }
{
    sending_of(tables, keeper, tables.pending.get(at))
}

/// What becomes of a want that waits.
fn sending_of<S: Store>(
    tables: &Tables,
    keeper: &mut Keeper<S>,
    pending: &Pending,
) -> Result<Option<Sending>, ExporterFault>
    requires of { IsStoreOf tables.now (S.view keeper.old.store).state }
    requires came { CameSo tables.now.server tables.now.roster pending.now.wanted }
    requires fit { IsFit (S.view keeper.old.store) keeper.old.left }
    ensures sending { S.tells → IfOk result (IsSending tables.now (S.view keeper.old.store).state pending.now) }
    ensures sayable { IfOk result (λ sending. IfSome sending (IsSayable tables.now.server)) }
    ensures asked { HasAsked S.tells result (S.view keeper.old.store) (S.view keeper.new.store) keeper.new.left }
{
    let outlook = tables.tokens.outlook(pending.number);
    if is_waiting(outlook) {
        return Ok(None);
    }
    let is_granted = is_granted(outlook);
    match &pending.wanted.request {
        Request::Fetch(fetch) => Ok(fetched(fetch, is_granted)?),
        Request::Change(change) => changed(tables, keeper, pending, change, is_granted),
    }
}

fn is_granted(outlook: Outlook) -> bool
    ensures { result ≡ is_granted outlook }
{
    matches!(outlook, Outlook::Granted)
}

/// What becomes of a Fetch: it is granted, where it can be.
fn fetched(fetch: &Fetch, is_granted: bool) -> Result<Option<Sending>, NoMemory>
    ensures { IfOk result (λ sending. sending ≡ (if is_granted then Some (Grants fetch.now) else None)) }
{
    if !is_granted {
        return Ok(None);
    }
    let fetch = fetch.copy()?;
    Ok(Some(Sending::Grant(fetch)))
}

/// What becomes of a Change that needn't wait.
fn changed<S: Store>(
    tables: &Tables,
    keeper: &mut Keeper<S>,
    pending: &Pending,
    change: &Change,
    is_granted: bool,
) -> Result<Option<Sending>, ExporterFault>
    requires of { IsStoreOf tables.now (S.view keeper.old.store).state }
    requires came { CameSo tables.now.server tables.now.roster pending.now.wanted }
    requires request { pending.now.wanted.request ≡ Changes change.now }
    requires fit { IsFit (S.view keeper.old.store) keeper.old.left }
    ensures sending { S.tells → IfOk result (λ sending. IsChangeSending tables.now (S.view keeper.old.store).state
        pending.now is_granted sending change.now) }
    ensures sayable { IfOk result (λ sending. IfSome sending (IsSayable tables.now.server)) }
    ensures asked { HasAsked S.tells result (S.view keeper.old.store) (S.view keeper.new.store) keeper.new.left }
{
    if change.enter {
        return entered(tables, keeper, change, is_granted);
    }
    if !is_use(&change.call) {
        return Ok(None);
    }
    let found = found_by(
        tables.server,
        &tables.roster,
        keeper,
        pending.wanted.host,
        change,
    )?;
    Ok(used(change, &pending.wanted.needs, is_granted, &found))
}

/// What becomes of a host that enters a fileset: it learns the number of the fileset. One that isn't here counts as no
/// memory: no store has it that tells what it keeps.
fn entered<S: Store>(
    tables: &Tables,
    keeper: &mut Keeper<S>,
    change: &Change,
    is_granted: bool,
) -> Result<Option<Sending>, ExporterFault>
    requires of { IsStoreOf tables.now (S.view keeper.old.store).state }
    requires fit { IsFit (S.view keeper.old.store) keeper.old.left }
    ensures sending { S.tells → IfOk result (λ sending. sending ≡ (if is_granted
        then entering_by change.now (entered_told (S.view keeper.old.store).state change.now.call) else None)) }
    ensures sayable { IsOfHere tables.now.server change.now.fileset
        → IfOk result (λ sending. IfSome sending (IsSayable tables.now.server)) }
    ensures asked { HasAsked S.tells result (S.view keeper.old.store) (S.view keeper.new.store) keeper.new.left }
{
    if !is_granted {
        return Ok(None);
    }
    let fileset = fileset_entered(tables.server, keeper, &change.call)?;
    if !is_known_here(tables, fileset) {
        return Err(ExporterFault::Memory);
    }
    Ok(entering_by(change, fileset))
}

/// Whether a fileset that was found is here.
fn is_known_here(tables: &Tables, fileset: Option<FilesetId>) -> bool
    ensures { IsTrue result ↔ IfSome fileset (λ id. is_of tables.now.server id ≡ true) }
{
    match fileset {
        Some(fileset) => tables.is_here(fileset),
        None => true,
    }
}

fn entering_by(change: &Change, fileset: Option<FilesetId>) -> Option<Sending>
    ensures { result ≡ entering_by change.now fileset }
{
    match fileset {
        Some(fileset) => {
            let known = DoneIs::Known(fileset);
            Some(Sending::Say(change.fileset, change.number, known))
        }
        None => None,
    }
}

/// What becomes of a lock or an open: it is granted, or begins anew where it found another file.
fn used(change: &Change, needs: &Items<Need>, is_granted: bool, found: &Found) -> Option<Sending>
    ensures { IsUsing change.now needs.now is_granted found.now result }
{
    let same = are_same_needs(found.needs.as_slice(), needs.as_slice());
    using_by(change, needs, is_granted, found, same)
}

fn using_by(
    change: &Change,
    needs: &Items<Need>,
    is_granted: bool,
    found: &Found,
    same: bool,
) -> Option<Sending>
    ensures { result ≡ using_by change.now needs.now is_granted found.now same }
{
    if found.refusal.is_some() {
        return None;
    }
    if !is_of_row(change, needs, same) {
        return Some(Sending::Say(change.fileset, change.number, DoneIs::Again));
    }
    if is_granted {
        Some(Sending::Use(change.fileset, change.number))
    } else {
        None
    }
}

/// The want at a place is answered so, and doesn't wait any more.
fn send<S: Store>(
    tables: &mut Tables,
    keeper: &mut Keeper<S>,
    draft: &mut Draft,
    at: usize,
    sending: Sending,
) -> Result<(), ExporterFault>
    requires place { at < length tables.old.pending }
    requires counted { IsCounted tables.old }
    requires fit { IsFit (S.view keeper.old.store) keeper.old.left }
    ensures made { S.tells → (p : Pending) → IsPlaced tables.old.pending at p → OnOk result
        (IsMadeOf tables.old draft.old tables.new draft.new
        (sent_made tables.old draft.old (S.view keeper.old.store).state at p sending)) }
    ensures says { (p : Pending) → IsPlaced tables.old.pending at p → MaySay tables.old p sending
        → OnOk result (SaysOn tables.old draft.old tables.new draft.new) }
    ensures left { OnOk result (IsLeftAt tables.old at tables.new) }
    ensures counted { OnOk result (IsCounted tables.new) }
    ensures asked { HasAsked S.tells result (S.view keeper.old.store) (S.view keeper.new.store) keeper.new.left }
{
    match sending {
        Sending::Grant(fetch) => send_grant(tables, keeper, draft, at, &fetch),
        Sending::Use(fileset, number) => Ok(send_use(tables, draft, at, fileset, number)?),
        Sending::Say(fileset, number, outcome) => {
            Ok(say_done(tables, draft, at, fileset, number, outcome)?)
        }
    }
}

/// A Change is answered without a token.
fn say_done(
    tables: &mut Tables,
    draft: &mut Draft,
    at: usize,
    fileset: FilesetId,
    number: u64,
    outcome: DoneIs,
) -> Result<(), NoMemory>
    requires place { at < length tables.old.pending }
    requires counted { IsCounted tables.old }
    ensures made { (p : Pending) → IsPlaced tables.old.pending at p → OnOk result
        (IsMadeOf tables.old draft.old tables.new draft.new
        (said_made tables.old draft.old at p fileset number outcome)) }
    ensures left { OnOk result (IsLeftAt tables.old at tables.new) }
    ensures counted { OnOk result (IsCounted tables.new) }
{
    let host = take_out(tables, at);
    let done = without_token(tables.alloc(), fileset, outcome, number);
    finish_done(tables, draft, host, done)
}

/// Takes out the want at a place. It answers its host.
fn take_out(tables: &mut Tables, at: usize) -> HostId
    requires place { at < length tables.old.pending }
    requires counted { IsCounted tables.old }
    ensures host { (p : Pending) → IsPlaced tables.old.pending at p → result ≡ p.wanted.host }
    ensures tables { (p : Pending) → IsPlaced tables.old.pending at p → tables.new ≡ unqueued tables.old at p.number }
    ensures left { IsLeftAt tables.old at tables.new }
    ensures counted { IsCounted tables.new }
{
    let pending = tables.unqueue(at);
    let host = pending.wanted.host;
    drop(pending);
    host
}

/// A lock or an open is granted.
fn send_use(
    tables: &mut Tables,
    draft: &mut Draft,
    at: usize,
    fileset: FilesetId,
    number: u64,
) -> Result<(), NoMemory>
    requires place { at < length tables.old.pending }
    requires counted { IsCounted tables.old }
    ensures made { (p : Pending) → IsPlaced tables.old.pending at p → OnOk result
        (IsMadeOf tables.old draft.old tables.new draft.new (use_made tables.old draft.old at p fileset number)) }
    ensures brought { (p : Pending) → IsPlaced tables.old.pending at p → OnOk result (AreGranted tables.old p None) }
    ensures left { OnOk result (IsLeftAt tables.old at tables.new) }
    ensures counted { OnOk result (IsCounted tables.new) }
{
    let tokens = granted(tables, at, None)?;
    let host = take_out(tables, at);
    let stamp = tables.next_stamp()?;
    let done = use_of(fileset, number, stamp, tokens);
    finish_done(tables, draft, host, done)
}

/// The Done that brings the tokens of a lock or an open.
fn use_of(fileset: FilesetId, number: u64, stamp: u64, tokens: Items<Token>) -> Done
    ensures { result ≡ use_with fileset number stamp tokens }
{
    Done {
        fileset,
        outcome: DoneIs::Granted,
        bring: Bring {
            number,
            fid: file_of(&tokens),
            stamp,
            tokens,
        },
    }
}

fn finish_done(
    tables: &mut Tables,
    draft: &mut Draft,
    host: HostId,
    done: Done,
) -> Result<(), NoMemory>
    ensures { OnOk result (IsMadeOf tables.old draft.old tables.new draft.new
        (done_made tables.old draft.old host done)) }
{
    let said = done.copy()?;
    draft.say(tables, host, Body::Done(said))?;
    tables.note_done(host, done, None)
}

/// The tokens that a want is granted, by its place among those that wait; those of a lock or an open are of one file,
/// and those of a Fetch of the file that it names. Where they aren't so, as they are where the store tells what it
/// keeps, it counts as no memory.
fn granted(tables: &mut Tables, at: usize, fid: Option<Fid>) -> Result<Items<Token>, NoMemory>
    requires place { at < length tables.old.pending }
    ensures tokens { (p : Pending) → IsPlaced tables.old.pending at p
        → IfOk result (λ tokens. tokens ≡ granted_tokens tables.old.tokens p.number) }
    ensures tables { (p : Pending) → IsPlaced tables.old.pending at p
        → OnOk result (tables.new ≡ granting tables.old p.number) }
    ensures counted { IsCounted tables.old → OnOk result (IsCounted tables.new) }
    ensures pending { OnOk result (tables.new.pending ≡ tables.old.pending) }
    ensures brought { (p : Pending) → IsPlaced tables.old.pending at p → OnOk result (AreGranted tables.old p fid) }
{
    let alloc = tables.alloc();
    let pending = tables.pending.get(at);
    let number = pending.number;
    let host = pending.wanted.host;
    let ready = tables.tokens.decide(number)?;
    let tokens = tokens_of(ready, alloc);
    if !are_brought(tables, host, file_for(fid, &tokens), tokens.as_slice()) {
        return Err(NoMemory);
    }
    Ok(tokens)
}

fn file_for(fid: Option<Fid>, tokens: &Items<Token>) -> Fid
    ensures { result ≡ file_for fid tokens.now }
{
    match fid {
        Some(fid) => fid,
        None => file_of(tokens),
    }
}

/// Whether an answer to a host may bring these tokens: they are its own, of one file that is here, and of this epoch.
fn are_brought(tables: &Tables, host: HostId, fid: Fid, tokens: &[Token]) -> bool
    ensures { result ≡ are_brought tables.now.server tables.now.hosts.epoch host fid tokens.now }
{
    tables.is_here(fid.fileset) && are_all_brought(tables, host, fid, tokens)
}

fn are_all_brought(tables: &Tables, host: HostId, fid: Fid, tokens: &[Token]) -> bool
    ensures { result ≡ list_all (is_brought tables.now.server tables.now.hosts.epoch host fid) tokens.now }
{
    tokens
        .iter()
        .all(|token| is_brought(tables, host, fid, token))
}

fn is_brought(tables: &Tables, host: HostId, fid: Fid, token: &Token) -> bool
    ensures { result ≡ is_brought tables.now.server tables.now.hosts.epoch host fid token.now }
{
    let is_now = token.id.server == tables.server && token.id.epoch == tables.hosts.epoch;
    is_now && token.host == host && token.fid == fid && has_room(token.kind)
}

fn has_room(kind: Kind) -> bool
    ensures { result ≡ has_room kind }
{
    match kind {
        Kind::Bytes { span, .. } | Kind::Lock { span, .. } => span.from < span.to,
        _ => true,
    }
}

fn tokens_of(ready: Option<Ready>, alloc: Global) -> Items<Token>
    ensures { result ≡ tokens_of ready }
{
    match ready {
        Some(Ready::Granted(_, tokens)) => tokens,
        _ => Items::new(alloc),
    }
}

/// The file of tokens, which is that of the first one.
fn file_of(tokens: &Items<Token>) -> Fid
    ensures { result ≡ file_of tokens.now }
{
    match tokens.at(0) {
        Some(token) => token.fid,
        None => NO_FID,
    }
}

/// A Fetch is granted: the tokens go with what they show. Where the object isn't there it is told so, with no token.
fn send_grant<S: Store>(
    tables: &mut Tables,
    keeper: &mut Keeper<S>,
    draft: &mut Draft,
    at: usize,
    fetch: &Fetch,
) -> Result<(), ExporterFault>
    requires place { at < length tables.old.pending }
    requires counted { IsCounted tables.old }
    requires fit { IsFit (S.view keeper.old.store) keeper.old.left }
    ensures made { S.tells → (p : Pending) → IsPlaced tables.old.pending at p → OnOk result
        (IsMadeOf tables.old draft.old tables.new draft.new
        (grant_made tables.old draft.old (S.view keeper.old.store).state at p fetch.now
        (status_told (S.view keeper.old.store).state fetch.now.fid))) }
    ensures says { (p : Pending) → IsPlaced tables.old.pending at p → MaySay tables.old p (Grants fetch.now)
        → OnOk result (SaysOn tables.old draft.old tables.new draft.new) }
    ensures left { OnOk result (IsLeftAt tables.old at tables.new) }
    ensures counted { OnOk result (IsCounted tables.new) }
    ensures asked { HasAsked S.tells result (S.view keeper.old.store) (S.view keeper.new.store) keeper.new.left }
{
    match keeper.status(fetch.fid)? {
        Some(status) => send_tokens(tables, keeper, draft, at, fetch, status),
        None => Ok(send_none(tables, draft, at, fetch)?),
    }
}

fn send_none(
    tables: &mut Tables,
    draft: &mut Draft,
    at: usize,
    fetch: &Fetch,
) -> Result<(), NoMemory>
    requires place { at < length tables.old.pending }
    requires counted { IsCounted tables.old }
    ensures made { (p : Pending) → IsPlaced tables.old.pending at p → OnOk result
        (IsMadeOf tables.old draft.old tables.new draft.new (empty_made tables.old draft.old at p fetch.now)) }
    ensures left { OnOk result (IsLeftAt tables.old at tables.new) }
    ensures counted { OnOk result (IsCounted tables.new) }
{
    let host = take_out(tables, at);
    let stamp = tables.next_stamp()?;
    let grant = empty_grant(tables.alloc(), fetch, stamp);
    draft.say(tables, host, Body::Grant(grant))
}

/// The Grant of an object that isn't there.
fn empty_grant(alloc: Global, fetch: &Fetch, stamp: u64) -> Grant
    ensures { result ≡ empty_with fetch.now stamp }
{
    Grant {
        bring: Bring {
            number: fetch.number,
            fid: fetch.fid,
            stamp,
            tokens: Items::new(alloc),
        },
        status: None,
        pieces: Items::new(alloc),
        entries: Items::new(alloc),
    }
}

/// A Fetch is granted, of an object of this status.
fn send_tokens<S: Store>(
    tables: &mut Tables,
    keeper: &mut Keeper<S>,
    draft: &mut Draft,
    at: usize,
    fetch: &Fetch,
    status: Status,
) -> Result<(), ExporterFault>
    requires place { at < length tables.old.pending }
    requires counted { IsCounted tables.old }
    requires fit { IsFit (S.view keeper.old.store) keeper.old.left }
    ensures made { S.tells → (p : Pending) → IsPlaced tables.old.pending at p → OnOk result
        (IsMadeOf tables.old draft.old tables.new draft.new (granted_made tables.old draft.old at p
        (grant_of tables.old (S.view keeper.old.store).state p fetch.now status))) }
    ensures says { (p : Pending) → IsPlaced tables.old.pending at p → MaySay tables.old p (Grants fetch.now)
        → IsTold (Some status) [] [] → OnOk result (SaysOn tables.old draft.old tables.new draft.new) }
    ensures left { OnOk result (IsLeftAt tables.old at tables.new) }
    ensures counted { OnOk result (IsCounted tables.new) }
    ensures asked { HasAsked S.tells result (S.view keeper.old.store) (S.view keeper.new.store) keeper.new.left }
{
    let alloc = tables.alloc();
    let pieces = pieces_told(alloc, keeper, fetch, status.dir)?;
    let entries = entries_told(alloc, keeper, fetch, status.dir)?;
    Ok(say_grant(tables, draft, at, fetch, status, pieces, entries)?)
}

/// The tokens go with what they show.
fn say_grant(
    tables: &mut Tables,
    draft: &mut Draft,
    at: usize,
    fetch: &Fetch,
    status: Status,
    pieces: Items<Piece>,
    entries: Items<DirEntry>,
) -> Result<(), NoMemory>
    requires place { at < length tables.old.pending }
    requires counted { IsCounted tables.old }
    ensures made { (p : Pending) → IsPlaced tables.old.pending at p → OnOk result
        (IsMadeOf tables.old draft.old tables.new draft.new (granted_made tables.old draft.old at p
        (grant_with tables.old p fetch.now status pieces entries))) }
    ensures brought { (p : Pending) → IsPlaced tables.old.pending at p
        → OnOk result (AreGranted tables.old p (Some fetch.now.fid)) }
    ensures left { OnOk result (IsLeftAt tables.old at tables.new) }
    ensures counted { OnOk result (IsCounted tables.new) }
{
    let tokens = granted(tables, at, Some(fetch.fid))?;
    let host = take_out(tables, at);
    let grant = Grant {
        bring: Bring {
            number: fetch.number,
            fid: fetch.fid,
            stamp: tables.next_stamp()?,
            tokens,
        },
        status: Some(status),
        pieces,
        entries,
    };
    draft.say(tables, host, Body::Grant(grant))
}
