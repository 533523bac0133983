//! What a host makes of a message.
ghost use Rattle.std.specs.Prelude.{◌≡◌, ◌==◌, ◌&&◌, ◌||◌, false, fold, nat_lt, None, not, OnOk, true};
ghost use Rattle.base_types.specs.declared.ids.ServerId.{ServerId as ServerOf};
ghost use Rattle.host_asks.specs.Asking.{doing};
ghost use Rattle.host_asks.specs.Going.{GoesOn};
ghost use Rattle.host_manager.specs.Learning.{UsesBring, brings_uses, learning_given};
ghost use Rattle.host_manager.specs.Taking.{IsOfStay, Takes, TakesBody, answers_change, answers_fetch, bye_again};
ghost use Rattle.host_manager.specs.Taking.{with_welcome};
ghost use Rattle.host_manager.specs.Taking.{claimed_at, is_present};
ghost use Rattle.host_leaves.specs.Owning.{is_use};
ghost use Rattle.host_tables.specs.Tables.{site_at};
ghost use Rattle.std.specs.List.{list_any};
ghost use Rattle.host_manager.specs.Taking.{hearing_epoch, homes_by, homes_entered, homes_named, is_asked_at};
ghost use Rattle.host_manager.specs.Taking.{parted_by};
ghost use Rattle.host_manager.specs.Taking.{reclaiming, request_again, restarting, sending_each, sending_to, told_by};
ghost use Rattle.host_manager.specs.Taking.{welcomed};
ghost use Rattle.message_types.specs.declared.message.Body.TheVariants.{Done as IsDone, Gone, Grant as IsGrant};
ghost use Rattle.message_types.specs.declared.message.Body.TheVariants.{Reclaimed as IsReclaimed, Restarted};
ghost use Rattle.message_types.specs.declared.message.Body.TheVariants.{Revoke as IsRevoke};
ghost use Rattle.message_types.specs.declared.telling.DoneIs.TheVariants.{Known};

use crate::learning::{forget_call, learn_given, renew, use_bring};
use base_types::{FilesetId, Items, NoMemory, ServerId};
use host_asks::{claim, go_on};
use host_leaves::{
    asked_server, given_filesets, is_use, say, send_give, send_request, take_revoke,
};
use host_tables::{Draft, Home, Request, Site, Tables, home, put_home, put_site};
use message_types::{
    AppliedGive, Body, Bring, Change, Done, DoneIs, Grant, Message, Reclaimed, Revoke,
};
use token_types::Token;
use tree_calls::Call;

/// Takes a message. One of another epoch, or of another stay of its fileset, changes nothing. The only error is that
/// memory ran out.
pub(crate) fn take_message(
    tables: &mut Tables,
    draft: &mut Draft,
    message: &Message,
) -> Result<(), NoMemory>
    ensures { OnOk result (Takes message.now (doing tables.old draft.old) (doing tables.new draft.new)
        message.now.body) }
{
    match &message.body {
        Body::Bye => {
            take_bye(tables, message.server);
            Ok(())
        }
        Body::Restarted => take_restart(tables, draft, message),
        Body::Reclaimed(reclaimed) => hear(tables, draft, message, reclaimed),
        _ => take_present(tables, draft, message),
    }
}

// The server says Bye.
fn take_bye(tables: &mut Tables, server: ServerId)
    ensures { tables.new ≡ parted_by server tables.old }
{
    let site = tables.site(server);
    let has_bye = true;
    put_site(&mut tables.sites, Site { has_bye, ..site });
}

// Takes a message that counts in the present epoch alone, and where its fileset hasn't moved.
fn take_present(tables: &mut Tables, draft: &mut Draft, message: &Message) -> Result<(), NoMemory>
    ensures { OnOk result (IsOfStay message.now.body → Takes message.now (doing tables.old draft.old)
        (doing tables.new draft.new) message.now.body) }
{
    if !is_present(tables, message) {
        return Ok(());
    }
    take_body(tables, draft, message.server, &message.body)
}

// Whether a message is of the present epoch, of a fileset that hasn't moved.
fn is_present(tables: &Tables, message: &Message) -> bool
    ensures { result ≡ is_present message.now tables.now }
{
    tables.site(message.server).epoch == message.epoch && message.moves == 0
}

// Takes what a message of the present epoch says.
fn take_body(
    tables: &mut Tables,
    draft: &mut Draft,
    server: ServerId,
    body: &Body,
) -> Result<(), NoMemory>
    ensures { OnOk result (IsOfStay body.now → TakesBody server (doing tables.old draft.old)
        (doing tables.new draft.new) body.now) }
{
    match body {
        Body::Gone(applied) => take_gone(tables, draft, *applied),
        Body::Grant(grant) => take_grant(tables, draft, grant),
        Body::Done(done) => take_done(tables, draft, server, done),
        Body::Revoke(revoke) => be_revoked(tables, draft, revoke),
        _ => Ok(()),
    }
}

// A give-back is known as applied.
fn take_gone(tables: &mut Tables, draft: &mut Draft, applied: AppliedGive) -> Result<(), NoMemory>
    ensures { OnOk result ((server : ServerOf) → TakesBody server (doing tables.old draft.old)
        (doing tables.new draft.new) (Gone applied)) }
{
    learn_given(tables, draft, applied)?;
    go_on(tables, draft)
}

// Tokens are asked back.
fn be_revoked(tables: &mut Tables, draft: &mut Draft, revoke: &Revoke) -> Result<(), NoMemory>
    ensures { OnOk result ((server : ServerOf) → TakesBody server (doing tables.old draft.old)
        (doing tables.new draft.new) (IsRevoke revoke.now)) }
{
    take_revoke(tables, draft, revoke)?;
    tables.gives.laws();
    go_on(tables, draft)
}

// The server hears the host, and has taken its claim where it restarted.
fn hear(
    tables: &mut Tables,
    draft: &mut Draft,
    message: &Message,
    reclaimed: &Reclaimed,
) -> Result<(), NoMemory>
    ensures { OnOk result (Takes message.now (doing tables.old draft.old) (doing tables.new draft.new)
        (IsReclaimed reclaimed.now)) }
{
    if !is_heard(tables, message) {
        return Ok(());
    }
    hear_epoch(tables, draft, message, reclaimed)?;
    welcome(tables, draft, message.server)
}

// Whether nothing was known of the server, or it is in its present epoch.
fn is_heard(tables: &Tables, message: &Message) -> bool
    ensures { result ≡ (((site_at tables.now.sites message.now.server).epoch == 0)
        || ((site_at tables.now.sites message.now.server).epoch == message.now.epoch)) }
{
    let epoch = tables.site(message.server).epoch;
    epoch == 0 || epoch == message.epoch
}

// Of a server of which nothing was known the epoch is learnt; in the present one the claim is answered.
fn hear_epoch(
    tables: &mut Tables,
    draft: &mut Draft,
    message: &Message,
    reclaimed: &Reclaimed,
) -> Result<(), NoMemory>
    ensures { OnOk result (doing tables.new draft.new
        ≡ hearing_epoch message.now reclaimed.now (doing tables.old draft.old)) }
{
    if is_of_epoch(tables, message) {
        let site = tables.site(message.server);
        return take_reclaimed(tables, draft, site, reclaimed);
    }
    renew(tables, message.server, message.epoch);
    Ok(())
}

// Whether a message is of the present epoch of its server.
fn is_of_epoch(tables: &Tables, message: &Message) -> bool
    ensures { result ≡ (message.now.epoch == (site_at tables.now.sites message.now.server).epoch) }
{
    message.epoch == tables.site(message.server).epoch
}

// The server hears the host, where it was greeted.
fn welcome(tables: &mut Tables, draft: &mut Draft, server: ServerId) -> Result<(), NoMemory>
    ensures { OnOk result (GoesOn (welcomed server (doing tables.old draft.old)) (doing tables.new draft.new)) }
{
    let site = with_welcome(tables.site(server));
    put_site(&mut tables.sites, site);
    go_on(tables, draft)
}

// A site whose server has welcomed the host, where it was greeted.
fn with_welcome(site: Site) -> Site
    ensures { result ≡ with_welcome site }
{
    let welcome = site.welcome || site.greeted;
    Site { welcome, ..site }
}

// The server has restarted, where it has a higher epoch: what is on its way is sent again, and a claim.
fn take_restart(tables: &mut Tables, draft: &mut Draft, message: &Message) -> Result<(), NoMemory>
    ensures { OnOk result (Takes message.now (doing tables.old draft.old) (doing tables.new draft.new) Restarted) }
{
    if !is_newer(tables, message) {
        return Ok(());
    }
    take_restarted(tables, draft, message.server, message.epoch)
}

// Whether a message is of a higher epoch of its server than is known.
fn is_newer(tables: &Tables, message: &Message) -> bool
    ensures { result ≡ nat_lt (site_at tables.now.sites message.now.server).epoch message.now.epoch }
{
    tables.site(message.server).epoch < message.epoch
}

fn take_restarted(
    tables: &mut Tables,
    draft: &mut Draft,
    server: ServerId,
    epoch: u64,
) -> Result<(), NoMemory>
    ensures { OnOk result (doing tables.new draft.new ≡ restarting server epoch (doing tables.old draft.old)) }
{
    renew(tables, server, epoch);
    if !is_greeted(tables, server) {
        return Ok(());
    }
    claim_at(tables, draft, server)
}

// Whether the server was greeted.
fn is_greeted(tables: &Tables, server: ServerId) -> bool
    ensures { result ≡ (site_at tables.now.sites server).greeted }
{
    tables.site(server).greeted
}

// What is on its way to a server is sent again, and a claim.
fn claim_at(tables: &mut Tables, draft: &mut Draft, server: ServerId) -> Result<(), NoMemory>
    ensures { OnOk result (doing tables.new draft.new ≡ claimed_at server tables.old draft.old) }
{
    let site = tables.site(server);
    let claimed = true;
    put_site(&mut tables.sites, Site { claimed, ..site });
    send_all_given(tables, draft, server)?;
    claim(tables, draft, server)
}

// Sends all outstanding give-backs that go to this server.
fn send_all_given(tables: &Tables, draft: &mut Draft, server: ServerId) -> Result<(), NoMemory>
    ensures { OnOk result (draft.new ≡ sending_each tables.now server draft.old) }
{
    let filesets = given_filesets(tables)?;
    for fileset in filesets.as_slice() {
        send_given(tables, draft, server, *fileset)?;
    }
    Ok(())
}

// Sends the outstanding give-back of a fileset, where it goes to this server.
fn send_given(
    tables: &Tables,
    draft: &mut Draft,
    server: ServerId,
    fileset: FilesetId,
) -> Result<(), NoMemory>
    ensures { OnOk result (draft.new ≡ sending_to tables.now server draft.old fileset) }
{
    if home(fileset) != server {
        return Ok(());
    }
    send_give(tables, draft, fileset)
}

// The claim is answered: what else is outstanding is sent again.
fn take_reclaimed(
    tables: &mut Tables,
    draft: &mut Draft,
    site: Site,
    reclaimed: &Reclaimed,
) -> Result<(), NoMemory>
    ensures { OnOk result (doing tables.new draft.new
        ≡ reclaiming site reclaimed.now (doing tables.old draft.old)) }
{
    let claimed = false;
    put_site(&mut tables.sites, Site { claimed, ..site });
    learn_all(tables, draft, reclaimed.applied.as_slice())?;
    ask_again(tables, draft, site.server)?;
    part_again(tables, draft, site)
}

// Give-backs are known as applied.
fn learn_all(
    tables: &mut Tables,
    draft: &mut Draft,
    applied: &[AppliedGive],
) -> Result<(), NoMemory>
    ensures { OnOk result (doing tables.new draft.new
        ≡ fold (λ at one. learning_given one at) (doing tables.old draft.old) applied.now) }
{
    for one in applied {
        learn_given(tables, draft, *one)?;
    }
    Ok(())
}

// Sends the request again, where it is for this server.
fn ask_again(tables: &Tables, draft: &mut Draft, server: ServerId) -> Result<(), NoMemory>
    ensures { OnOk result (doing tables.now draft.new ≡ request_again server (doing tables.now draft.old)) }
{
    if !is_asked_at(tables, server) {
        return Ok(());
    }
    send_request(tables, draft)
}

fn is_asked_at(tables: &Tables, server: ServerId) -> bool
    ensures { result ≡ is_asked_at server tables.now.request }
{
    match asked_server(tables) {
        Some(asked) => asked == server,
        None => false,
    }
}

// Says Bye again, where it was said in vain.
fn part_again(tables: &Tables, draft: &mut Draft, site: Site) -> Result<(), NoMemory>
    ensures { OnOk result (doing tables.now draft.new ≡ bye_again site (doing tables.now draft.old)) }
{
    if !awaits_bye(site) {
        return Ok(());
    }
    say(tables, draft, site.server, Body::Bye)
}

// Whether Bye was said to a server in vain so far.
fn awaits_bye(site: Site) -> bool
    ensures { result ≡ (site.said_bye && not site.has_bye) }
{
    site.said_bye && !site.has_bye
}

// A Grant comes: where it answers the outstanding Fetch, what it brings is used.
fn take_grant(tables: &mut Tables, draft: &mut Draft, grant: &Grant) -> Result<(), NoMemory>
    ensures { OnOk result ((server : ServerOf) → TakesBody server (doing tables.old draft.old)
        (doing tables.new draft.new) (IsGrant grant.now)) }
{
    if !is_fetched(tables, grant) {
        return Ok(());
    }
    forget_request(&mut tables.request);
    use_bring(tables, draft, &grant.bring, Some(grant))?;
    go_on(tables, draft)
}

// Nothing is outstanding.
fn forget_request(request: &mut Option<Request>)
    ensures { request.new ≡ None }
{
    drop(request.take());
}

// Whether a Grant answers the outstanding Fetch.
fn is_fetched(tables: &Tables, grant: &Grant) -> bool
    ensures { result ≡ answers_fetch grant.now tables.now.request }
{
    match &tables.request {
        Some(Request::Fetch(fetch)) => {
            fetch.number == grant.bring.number && fetch.fid.fileset == grant.bring.fid.fileset
        }
        _ => false,
    }
}

// A Done comes: where it answers the outstanding Change, what it tells is noted, and what it brings is used.
fn take_done(
    tables: &mut Tables,
    draft: &mut Draft,
    server: ServerId,
    done: &Done,
) -> Result<(), NoMemory>
    ensures { OnOk result (TakesBody server (doing tables.old draft.old) (doing tables.new draft.new)
        (IsDone done.now)) }
{
    if !is_asked(tables, server, done) {
        return Ok(());
    }
    learn_outcome(tables, &done.outcome)?;
    use_uses(tables, draft, &done.bring)?;
    go_on(tables, draft)
}

// What a Done brings is used, where all of it are tokens of locks and open files: it shows nothing of its file.
fn use_uses(tables: &mut Tables, draft: &mut Draft, bring: &Bring) -> Result<(), NoMemory>
    ensures uses { OnOk result (brings_uses bring.now ≡ true
        → UsesBring bring.now None tables.old draft.old tables.new draft.new) }
    ensures none { OnOk result (brings_uses bring.now ≡ false
        → doing tables.new draft.new ≡ doing tables.old draft.old) }
{
    if !brings_uses(bring) {
        return Ok(());
    }
    use_bring(tables, draft, bring, None)
}

fn brings_uses(bring: &Bring) -> bool
    ensures { result ≡ brings_uses bring.now }
{
    !has_other(bring.tokens.as_slice())
}

// Whether some of these aren't tokens of locks and open files.
fn has_other(tokens: &[Token]) -> bool
    ensures { result ≡ list_any (λ token. not (is_use token.kind)) tokens.now }
{
    tokens.iter().any(|token| is_other(*token))
}

fn is_other(token: Token) -> bool
    ensures { result ≡ not (is_use token.kind) }
{
    !is_use(token.kind)
}

// Whether a Done answers the outstanding Change.
fn is_asked(tables: &Tables, server: ServerId, done: &Done) -> bool
    ensures { result ≡ answers_change server done.now tables.now.request }
{
    match &tables.request {
        Some(Request::Change(asked, change)) => {
            *asked == server && change.number == done.bring.number && change.fileset == done.fileset
        }
        _ => false,
    }
}

// What a Done tells: the number of the fileset that its Change enters, or the reply of the open call.
fn learn_outcome(tables: &mut Tables, outcome: &DoneIs) -> Result<(), NoMemory>
    ensures { OnOk result (tables.new ≡ told_by outcome.now tables.old) }
{
    match outcome {
        DoneIs::Known(id) => learn_home(tables, *id),
        DoneIs::Reply(_) => {
            forget_request(&mut tables.request);
            forget_call(&mut tables.call);
            Ok(())
        }
        _ => {
            forget_request(&mut tables.request);
            Ok(())
        }
    }
}

fn learn_home(tables: &mut Tables, id: FilesetId) -> Result<(), NoMemory>
    ensures { OnOk result (tables.new ≡ told_by (Known id) tables.old) }
{
    note_home(&mut tables.homes, &tables.request, id)?;
    forget_request(&mut tables.request);
    Ok(())
}

// The fileset that the outstanding Change enters has this number.
fn note_home(
    homes: &mut Items<Home>,
    request: &Option<Request>,
    id: FilesetId,
) -> Result<(), NoMemory>
    ensures { OnOk result (homes.new ≡ homes_by request.now id homes.old) }
{
    match request {
        Some(Request::Change(_, change)) => note_entered(homes, change, id),
        _ => Ok(()),
    }
}

// The fileset that a Change enters has this number.
fn note_entered(homes: &mut Items<Home>, change: &Change, id: FilesetId) -> Result<(), NoMemory>
    ensures { OnOk result (homes.new ≡ homes_entered change.now id homes.old) }
{
    if !change.enter {
        return Ok(());
    }
    note_fileset(homes, &change.call, id)
}

// The fileset that a call names has this number.
fn note_fileset(homes: &mut Items<Home>, call: &Call, id: FilesetId) -> Result<(), NoMemory>
    ensures { OnOk result (homes.new ≡ homes_named call.now id homes.old) }
{
    match call {
        Call::Create { place }
        | Call::MakeDir { place }
        | Call::Remove { place }
        | Call::Rename { from: place, .. }
        | Call::Truncate { place, .. }
        | Call::SetAcl { place, .. }
        | Call::Read { place, .. }
        | Call::Write { place, .. }
        | Call::List { place }
        | Call::Stat { place }
        | Call::GetAcl { place, .. }
        | Call::Sync { place }
        | Call::Lock { place, .. }
        | Call::OpenFile { place, .. } => put_home(homes, place.server, &place.fileset, id),
        Call::MoveFileset {
            server,
            fileset,
            ..
        } => put_home(homes, *server, fileset, id),
        Call::NewFileset { .. }
        | Call::CloneFileset { .. }
        | Call::Unlock { .. }
        | Call::CloseFile { .. } => Ok(()),
    }
}
