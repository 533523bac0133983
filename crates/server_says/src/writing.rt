ghost use Rattle.std.specs.Prelude.{◌≡◌, Some, IfOk, OnOk};
ghost use Rattle.message_types.specs.declared.message.Body.TheVariants.{Done as IsDone};
ghost use Rattle.run_rules.specs.declared.applied.Applied.TheVariants.{Done as IsWritten};
ghost use Rattle.server_tables.specs.Answers.{renewed};
ghost use Rattle.server_takes.specs.Drafts.{applying, saying, word};
ghost use Rattle.server_says.specs.Writing.{done_of, written_made, written_of};

use base_types::{HostId, NoMemory, Plain};
use message_types::{Body, Change, Done, DoneIs};
use run_rules::{Answer, Applied, Written};
use server_tables::{Tables, without_token};
use server_takes::Draft;
use tree_calls::Reply;

/// A Change of a host is written down, with the reply to its call, and the host learns it.
pub fn write_down(
    tables: &mut Tables,
    draft: &mut Draft,
    host: HostId,
    change: &Change,
    reply: &Reply,
) -> Result<(), NoMemory>
    ensures tables { OnOk result (tables.new ≡ (written_made tables.old draft.old host change.now reply.now).tables) }
    ensures draft { OnOk result (draft.new ≡ (written_made tables.old draft.old host change.now reply.now).draft) }
{
    note_written(draft, host, change, reply)?;
    say_reply(tables, draft, host, change, reply)?;
    note_reply(tables, host, change, reply)
}

fn note_written(
    draft: &mut Draft,
    host: HostId,
    change: &Change,
    reply: &Reply,
) -> Result<(), NoMemory>
    ensures { OnOk result (draft.new ≡ applying draft.old (IsWritten (written_of host change.now reply.now))) }
{
    let written = written_of(host, change, reply)?;
    draft.applied.push(Applied::Done(written))
}

fn say_reply(
    tables: &Tables,
    draft: &mut Draft,
    host: HostId,
    change: &Change,
    reply: &Reply,
) -> Result<(), NoMemory>
    ensures { OnOk result
        (draft.new ≡ saying draft.old (word tables.now host (IsDone (done_of change.now reply.now)))) }
{
    let done = done_of(tables, change, reply)?;
    draft.say(tables, host, Body::Done(done))
}

fn note_reply(
    tables: &mut Tables,
    host: HostId,
    change: &Change,
    reply: &Reply,
) -> Result<(), NoMemory>
    ensures { OnOk result (tables.new ≡ record tables.old {
      changes =
          renewed tables.old host (done_of change.now reply.now) (Some (written_of host change.now reply.now));
    }) }
{
    let done = done_of(tables, change, reply)?;
    let written = written_of(host, change, reply)?;
    tables.note_done(host, done, Some(written))
}

/// The answer to a Change that is written down with this reply.
fn done_of(tables: &Tables, change: &Change, reply: &Reply) -> Result<Done, NoMemory>
    ensures { IfOk result (λ done. done ≡ done_of change.now reply.now) }
{
    let reply = reply.copy()?;
    Ok(without_token(
        tables.alloc(),
        change.fileset,
        DoneIs::Reply(reply),
        change.number,
    ))
}

/// The Change that is written down.
fn written_of(host: HostId, change: &Change, reply: &Reply) -> Result<Written, NoMemory>
    ensures { IfOk result (λ written. written ≡ written_of host change.now reply.now) }
{
    let reply = reply.copy()?;
    let Ok(call) = change.call.copy() else {
        return Err(NoMemory);
    };
    Ok(Written {
        fileset: change.fileset,
        number: change.number,
        answer: Answer {
            host,
            k: change.k,
            call,
            reply,
            first: false,
        },
    })
}
