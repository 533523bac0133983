//! What a host asks servers.
ghost use Rattle.std.specs.Prelude.{◌≡◌, ◌&&◌, ◌∷◌, ◌↔◌, [], ℕ, IfOk, IsTrue, MatchBool, OnOk, Some, not, true};
ghost use Rattle.std.specs.List.{list_any};
ghost use Rattle.base_types.specs.Ids.{same_fid};
ghost use Rattle.base_types.specs.Spans.{has_byte, in_spans};
ghost use Rattle.host_gives.specs.Giving.{is_of_file};
ghost use Rattle.host_leaves.specs.Owning.{is_use};
ghost use Rattle.host_tables.specs.Asking.{FetchFrom};
ghost use Rattle.host_tables.specs.Stands.{IsLack};
ghost use Rattle.host_walk.specs.Trying.{length_need, status_need, whole_need};
ghost use Rattle.need_host.specs.Walks.{root_of};
ghost use Rattle.run_rules.specs.Tokens.{IsUseKind};
ghost use Rattle.token_types.specs.Covers.{Covers};
ghost use Rattle.token_types.specs.declared.token.Need.{Need as NeedOf};
ghost use Rattle.host_tables.specs.Tables.{content, held_of, updates_status};
ghost use Rattle.tree_laws.specs.Parts.Part.{Traits};
ghost use Rattle.host_asks.specs.Fetching.{AddsClean, AreFetchable, AsksFile, AsksStatus, StatusAsked, in_dirty_block};
ghost use Rattle.host_asks.specs.Fetching.{is_directory, is_lost, lengthens, wanted};
ghost use Rattle.host_asks.specs.Asking.{AsksFor, Fetches, asking_question, changing, coming_to, doing, may_ask};
ghost use Rattle.host_asks.specs.Asking.{fileset_of, is_entering, next_change, server_of};

use base_types::{Fid, FilesetId, Items, NoMemory, Plain, ServerId, Span};
use host_calls::{Open, Question, root_of};
use host_leaves::{is_length_update, is_use, length_seen, say, send_request};
use host_tables::{Draft, Request, Site, Tables, home, next_change, next_fetch, put_site};
use host_walk::{
    blocks_around, bytes_need, bytes_to_read, bytes_to_write, end_of, length_need, status_need,
    whole_need,
};
use message_types::{Body, Change, Fetch};
use std::alloc::Global;
use token_ranges::SpanSet;
use token_types::{Need, Token};
use tree_calls::Call;

/// No object.
const NO_FID: Fid = Fid {
    fileset: FilesetId(0),
    anode: 0,
    unique: 0,
};

/// Asks a server the question of the open call, where it may. The only error is that memory ran out.
pub(crate) fn ask_question(
    tables: &mut Tables,
    draft: &mut Draft,
    current: Open,
    question: Question,
) -> Result<(), NoMemory>
    ensures { OnOk result (doing tables.new draft.new
        ≡ asking_question question current.entry.k current.entry.call.now (doing tables.old draft.old)) }
{
    let server = server_of(question);
    if !may_ask(tables, draft, server)? {
        return Ok(());
    }
    let fileset = fileset_of(question);
    let enters = is_entering(question);
    change(tables, draft, current, server, fileset, NO_FID, enters)
}

// The server that is asked, and the fileset; 0 where the question is about filesets themselves.
fn server_of(question: Question) -> ServerId
    ensures { result ≡ server_of question }
{
    match question {
        Question::Enter(server) | Question::At(server) => server,
        Question::In(fileset) => home(fileset),
    }
}

fn fileset_of(question: Question) -> FilesetId
    ensures { result ≡ fileset_of question }
{
    match question {
        Question::In(fileset) => fileset,
        Question::Enter(_) | Question::At(_) => FilesetId(0),
    }
}

fn is_entering(question: Question) -> bool
    ensures { result ≡ is_entering question }
{
    matches!(question, Question::Enter(_))
}

/// Asks for what the open call lacks first, where it may. The only error is that memory ran out.
pub(crate) fn ask_for(
    tables: &mut Tables,
    draft: &mut Draft,
    current: Open,
    need: Need,
) -> Result<(), NoMemory>
    ensures { OnOk result
        (AsksFor need current.entry.k current.entry.call.now
        (doing tables.old draft.old) (doing tables.new draft.new)) }
{
    if awaits_give(tables, need) {
        return Ok(());
    }
    let fileset = need.fid.fileset;
    let server = home(fileset);
    if !may_ask(tables, draft, server)? {
        return Ok(());
    }
    if is_use(need.kind) {
        return change(tables, draft, current, server, fileset, need.fid, false);
    }
    fetch(tables, draft, current.call, need.fid)
}

// Whether a give-back of the file is on its way, which a Fetch waits for.
fn awaits_give(tables: &Tables, need: Need) -> bool
    ensures { result ≡ (not (is_use need.kind) && list_any (is_of_file need.fid) tables.now.gives.gives) }
{
    !is_use(need.kind) && tables.gives.of_file(need.fid)
}

// Whether a server may be asked: it has welcomed the host. One that wasn't greeted is.
fn may_ask(tables: &mut Tables, draft: &mut Draft, server: ServerId) -> Result<bool, NoMemory>
    ensures may { IfOk result (λ may. may ≡ may_ask server (doing tables.old draft.old)) }
    ensures after { OnOk result (doing tables.new draft.new ≡ coming_to server (doing tables.old draft.old)) }
{
    let site = tables.site(server);
    if site.greeted {
        return Ok(site.welcome);
    }
    let greeted = Site {
        greeted: true,
        ..site
    };
    put_site(&mut tables.sites, greeted);
    say(tables, draft, server, Body::Hello)?;
    Ok(false)
}

// Asks a server to decide the open call.
fn change(
    tables: &mut Tables,
    draft: &mut Draft,
    current: Open,
    server: ServerId,
    fileset: FilesetId,
    fid: Fid,
    enter: bool,
) -> Result<(), NoMemory>
    ensures { OnOk result (doing tables.new draft.new ≡ changing server
        (next_change tables.old server fileset fid enter current.entry.k current.entry.call.now)
        (doing tables.old draft.old)) }
{
    let number = next_change(&mut tables.changed, server, fileset)?;
    let call = current.call.copy()?;
    let change = Change {
        number,
        fileset,
        fid,
        enter,
        k: current.k,
        call,
    };
    put_request(&mut tables.request, Request::Change(server, change));
    send_request(tables, draft)
}

// The request that is outstanding from now on.
fn put_request(outstanding: &mut Option<Request>, request: Request)
    ensures { outstanding.new ≡ Some request }
{
    drop(outstanding.replace(request));
}

// Fetches what the call needs of an object.
fn fetch(tables: &mut Tables, draft: &mut Draft, call: &Call, fid: Fid) -> Result<(), NoMemory>
    ensures { OnOk result (Fetches call.now fid (doing tables.old draft.old) (doing tables.new draft.new)) }
{
    let needs = needs_to_fetch(tables, call, fid)?;
    let number = next_fetch(&mut tables.fetched, fid.fileset)?;
    let fetch = Fetch { number, fid, needs };
    put_request(&mut tables.request, Request::Fetch(fetch));
    send_request(tables, draft)
}

// What is asked of an object: of a directory its status and all entries, of an object that isn't known its status.
fn needs_to_fetch(tables: &Tables, call: &Call, fid: Fid) -> Result<Items<Need>, NoMemory>
    ensures asks { IfOk result (λ needs. (need : NeedOf) → IsLack tables.now call.now need → need.fid ≡ fid →
        (IsUseKind need.kind → ⊥) → FetchFrom tables.now tables.now.lost call.now fid needs) }
    ensures sound { IfOk result (λ needs. AreFetchable needs) }
{
    if is_root(fid) {
        return whole_needs(tables.alloc, fid);
    }
    if !tables.cache.covers(&status_need(fid)) {
        return one_need(tables.alloc, status_need(fid));
    }
    if is_directory(tables, fid) {
        return whole_needs(tables.alloc, fid);
    }
    file_needs(tables, call, fid, length_seen(tables, fid))
}

// Whether an object is the root of its fileset.
fn is_root(fid: Fid) -> bool
    ensures { IsTrue result ↔ (fid ≡ root_of fid.fileset) }
{
    fid == root_of(fid.fileset)
}

// Whether an object is seen to be a directory.
fn is_directory(tables: &Tables, fid: Fid) -> bool
    ensures { result ≡ is_directory (content tables.now.cache fid Traits) }
{
    match tables.cache.status(fid) {
        Some(status) => status.dir,
        None => false,
    }
}

fn whole_needs(alloc: Global, fid: Fid) -> Result<Items<Need>, NoMemory>
    ensures { IfOk result (λ needs. needs ≡ status_need fid ∷ whole_need fid ∷ []) }
{
    let mut needs = Items::new(alloc);
    needs.push(status_need(fid))?;
    needs.push(whole_need(fid))?;
    Ok(needs)
}

// What is asked of a file of this length that is known: all bytes that the call needs, but for the blocks in which
// something is dirty, and of the status what lacks, or what a Revoke took.
fn file_needs(tables: &Tables, call: &Call, fid: Fid, length: u32) -> Result<Items<Need>, NoMemory>
    ensures asks { IfOk result (λ needs. AsksFile tables.now call.now fid length needs) }
    ensures sound { IfOk result (λ needs. AreFetchable needs) }
{
    let needs = status_needs(tables, call, fid, length)?;
    match wanted_bytes(call, length) {
        Some((update, span)) => with_clean(tables, fid, update, span, needs),
        None => Ok(needs),
    }
}

// What is asked of the status of a file, as a list.
fn status_needs(
    tables: &Tables,
    call: &Call,
    fid: Fid,
    length: u32,
) -> Result<Items<Need>, NoMemory>
    ensures { IfOk result (λ needs. AsksStatus tables.now call.now fid length needs) }
{
    match status_to_fetch(tables, call, fid, length) {
        Some(need) => one_need(tables.alloc, need),
        None => Ok(Items::new(tables.alloc)),
    }
}

fn one_need(alloc: Global, need: Need) -> Result<Items<Need>, NoMemory>
    ensures { IfOk result (λ needs. needs ≡ need ∷ []) }
{
    let mut needs = Items::new(alloc);
    needs.push(need)?;
    Ok(needs)
}

// What is asked of the status of a file.
fn status_to_fetch(tables: &Tables, call: &Call, fid: Fid, length: u32) -> Option<Need>
    ensures { StatusAsked tables.now call.now fid length result }
{
    if lacks_length(tables, call, fid, length) {
        return Some(length_need(fid));
    }
    if is_lost(tables, fid) {
        return Some(status_need(fid));
    }
    None
}

// Whether a call changes the length of a file, and no token for that is held.
fn lacks_length(tables: &Tables, call: &Call, fid: Fid, length: u32) -> bool
    ensures { MatchBool result
        ((lengthens call.now length ≡ true) × (Covers (held_of tables.now) (length_need fid) → ⊥))
        ((lengthens call.now length ≡ true) → Covers (held_of tables.now) (length_need fid)) }
{
    let covered = tables.cache.covers(&length_need(fid));
    lengthens(call, length) && !covered
}

// Whether a Revoke took the last token of a file's status since the call was begun, and none for its update is held.
fn is_lost(tables: &Tables, fid: Fid) -> bool
    ensures { result ≡ is_lost tables.now fid }
{
    has_fid(tables.lost.as_slice(), fid) && !updates_any(tables.cache.tokens_at(fid))
}

fn has_fid(fids: &[Fid], fid: Fid) -> bool
    ensures { result ≡ list_any (λ other. same_fid other fid) fids.now }
{
    fids.iter().any(|other| *other == fid)
}

// Whether one of some tokens is for update of the status.
fn updates_any(tokens: &[Token]) -> bool
    ensures { result ≡ list_any (λ token. updates_status token.kind) tokens.now }
{
    tokens.iter().any(|token| is_length_update(token.kind))
}

// The blocks of a file that a call needs, and whether it changes them, where the file has this length.
fn wanted_bytes(call: &Call, length: u32) -> Option<(bool, Span)>
    ensures { result ≡ wanted call.now length }
{
    match call {
        Call::Read { from, len, .. } => {
            let span = bytes_to_read(*from, *len, length);
            Some((false, blocks_around(span.from, span.to)))
        }
        Call::Write { from, bytes, .. } => {
            let to = end_of(*from, bytes.len());
            Some((true, bytes_to_write(*from, to, length)))
        }
        _ => None,
    }
}

// Whether a call changes the length of a file, where that is so long.
fn lengthens(call: &Call, length: u32) -> bool
    ensures { result ≡ lengthens call.now length }
{
    match call {
        Call::Write { from, bytes, .. } => length < end_of(*from, bytes.len()),
        _ => false,
    }
}

// With the bytes of a span, without the blocks in which something is dirty.
fn with_clean(
    tables: &Tables,
    fid: Fid,
    update: bool,
    span: Span,
    needs: Items<Need>,
) -> Result<Items<Need>, NoMemory>
    ensures { IfOk result (λ all. AddsClean tables.now fid update span needs all) }
{
    let mut all = needs;
    push_clean(tables, fid, update, span, &mut all)?;
    Ok(all)
}

// Adds the bytes of a span, without the blocks in which something is dirty.
fn push_clean(
    tables: &Tables,
    fid: Fid,
    update: bool,
    span: Span,
    needs: &mut Items<Need>,
) -> Result<(), NoMemory>
    ensures { OnOk result (AddsClean tables.now fid update span needs.old needs.new) }
{
    let clean = clean_blocks(tables, fid, span)?;
    for left in clean.spans() {
        needs.push(bytes_need(fid, update, *left))?;
    }
    Ok(())
}

// The positions of a span, without the blocks in which something of a file is dirty.
fn clean_blocks(tables: &Tables, fid: Fid, span: Span) -> Result<SpanSet, NoMemory>
    ensures { IfOk result (λ clean. (at : ℕ) →
        in_spans clean at ≡ (has_byte span at && not (in_dirty_block tables.now fid at))) }
{
    let mut clean = SpanSet::new(tables.alloc);
    clean.add(span)?;
    for other in tables.dirty.spans(fid) {
        clean.cut(blocks_around(other.from, other.to))?;
    }
    Ok(clean)
}
