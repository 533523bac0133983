//! What a host sends.
ghost use Rattle.std.specs.Prelude.{◌≡◌, ◌==◌, IfOk, OnOk};
ghost use Rattle.std.specs.List.{list_any};
ghost use Rattle.std.specs.Option.{option_map_or};
ghost use Rattle.host_leaves.specs.Sending.{asked_server, filesets_given, message_to, saying, sending_give};
ghost use Rattle.host_leaves.specs.Sending.{sending_due, sending_request, with_fileset, with_once};

use base_types::{FilesetId, Items, NoMemory, Plain, ServerId};
use host_tables::{Draft, Request, Tables, home};
use message_types::{Body, Direction, Message};

/// A message to a server, in its present epoch.
pub(crate) fn message_to(tables: &Tables, server: ServerId, body: Body) -> Message
    ensures { result ≡ message_to tables.now server body }
{
    Message {
        direction: Direction::ToServer,
        host: tables.host,
        server,
        epoch: tables.site(server).epoch,
        moves: 0,
        body,
    }
}

/// Says something to a server. The only error is that memory ran out.
pub fn say(tables: &Tables, draft: &mut Draft, server: ServerId, body: Body) -> Result<(), NoMemory>
    ensures { OnOk result (draft.new ≡ saying tables.now server body draft.old) }
{
    draft.sent.push(message_to(tables, server, body))
}

/// Sends the request that is outstanding, where there is one. The only error is that memory ran out.
pub fn send_request(tables: &Tables, draft: &mut Draft) -> Result<(), NoMemory>
    ensures { OnOk result (draft.new ≡ sending_request tables.now tables.now.request draft.old) }
{
    match &tables.request {
        Some(Request::Fetch(fetch)) => {
            let server = home(fetch.fid.fileset);
            say(tables, draft, server, Body::Fetch(fetch.copy()?))
        }
        Some(Request::Change(server, change)) => {
            say(tables, draft, *server, Body::Change(change.copy()?))
        }
        None => Ok(()),
    }
}

/// The server that the outstanding request is for.
pub fn asked_server(tables: &Tables) -> Option<ServerId>
    ensures { result ≡ asked_server tables.now.request }
{
    match &tables.request {
        Some(Request::Fetch(fetch)) => Some(home(fetch.fid.fileset)),
        Some(Request::Change(server, _)) => Some(*server),
        None => None,
    }
}

/// Sends the give-back of a fileset that is outstanding, where there is one. The only error is that memory ran out.
pub fn send_give(tables: &Tables, draft: &mut Draft, fileset: FilesetId) -> Result<(), NoMemory>
    ensures { OnOk result (draft.new ≡ sending_give tables.now draft.old fileset) }
{
    let Some(message) = tables.gives.outstanding(fileset) else {
        return Ok(());
    };
    let body = message.body.copy()?;
    say(tables, draft, home(fileset), body)
}

/// Sends each give-back that became outstanding in the step. The only error is that memory ran out.
pub fn send_due(tables: &Tables, draft: &mut Draft) -> Result<(), NoMemory>
    ensures { OnOk result (draft.new ≡ sending_due tables.now draft.old) }
{
    for index in 0..draft.due.len() {
        let fileset = *draft.due.get(index);
        send_give(tables, draft, fileset)?;
    }
    Ok(())
}

/// Adds a fileset to a list, where it isn't there. The only error is that memory ran out.
pub fn push_once(filesets: &mut Items<FilesetId>, fileset: FilesetId) -> Result<(), NoMemory>
    ensures { OnOk result (filesets.new ≡ with_once filesets.old fileset) }
{
    if has_fileset(filesets.as_slice(), fileset) {
        return Ok(());
    }
    filesets.push(fileset)
}

/// Whether a fileset is in a list.
pub(crate) fn has_fileset(filesets: &[FilesetId], fileset: FilesetId) -> bool
    ensures { result ≡ list_any (λ other. other.0 == fileset.0) filesets.now }
{
    filesets.iter().any(|other| *other == fileset)
}

/// The filesets of which a give-back is outstanding, each once. The only error is that memory ran out.
pub fn given_filesets(tables: &Tables) -> Result<Items<FilesetId>, NoMemory>
    ensures { IfOk result (λ filesets. filesets ≡ filesets_given tables.now.gives.gives) }
{
    let slots = tables.gives.slots();
    let mut filesets = Items::new(tables.alloc);
    for slot in slots {
        push_slot(&mut filesets, slot)?;
    }
    Ok(filesets)
}

// Adds the fileset of the give-back in a slot to a list, where there is one and it isn't there.
fn push_slot(filesets: &mut Items<FilesetId>, slot: &Option<Message>) -> Result<(), NoMemory>
    ensures { OnOk result (filesets.new ≡ option_map_or (with_fileset filesets.old) slot.now filesets.old) }
{
    match slot {
        Some(message) => push_given(filesets, message),
        None => Ok(()),
    }
}

// Adds the fileset of a give-back to a list, where it isn't there.
fn push_given(filesets: &mut Items<FilesetId>, message: &Message) -> Result<(), NoMemory>
    ensures { OnOk result (filesets.new ≡ with_fileset filesets.old message.now) }
{
    match &message.body {
        Body::GiveBack(give) => push_once(filesets, give.fid.fileset),
        _ => Ok(()),
    }
}
