//! The history that a journal is.
ghost use Rattle.std.specs.Prelude.{◌≡◌, ◌++◌, flat_map, map, IfOk, OnOk};
ghost use Rattle.run_rules.specs.Runs.{applied_entries, call_entry, entries_in, entries_moved, entries_of, history_of};

use crate::applied::{Answer, Applied, Move};
use crate::journal::Journal;
use crate::step::Step;
use base_types::{Items, NoMemory, Node, Plain, ServerId};
use std::alloc::Global;
use tree_calls::Entry;

/// The history of the file tree that a journal is: of each step, in order, the calls that a host answers, and then what
/// a server stores, writes down and learns. A move is the entry of its call where its head arrives, and one more where
/// the fileset has left; wants, and the parts between, are no entries. `NoMemory` comes where memory runs out.
pub fn hist(alloc: Global, journal: &Journal) -> Result<Items<Entry>, NoMemory>
    ensures { IfOk result (λ history. history ≡ history_of journal.now.steps) }
{
    let mut history = Items::new(alloc);
    for step in journal.steps.as_slice() {
        push_step(&mut history, step)?;
    }
    Ok(history)
}

fn push_step(history: &mut Items<Entry>, step: &Step) -> Result<(), NoMemory>
    ensures { OnOk result (history.new ≡ history.old ++ entries_of step.now) }
{
    push_answers(history, &step.answers)?;
    match step.node {
        Node::Host(_) => Ok(()),
        Node::Server(server) => push_applied(history, server, &step.applied),
    }
}

fn push_answers(history: &mut Items<Entry>, answers: &Items<Answer>) -> Result<(), NoMemory>
    ensures { OnOk result (history.new ≡ history.old ++ map call_entry answers.now) }
{
    for answer in answers.as_slice() {
        history.push(call_entry(answer)?)?;
    }
    Ok(())
}

fn push_applied(
    history: &mut Items<Entry>,
    server: ServerId,
    applied: &Items<Applied>,
) -> Result<(), NoMemory>
    ensures { OnOk result (history.new ≡ history.old ++ flat_map (entries_in server) applied.now) }
{
    for one in applied.as_slice() {
        push_one(history, server, one)?;
    }
    Ok(())
}

fn push_one(history: &mut Items<Entry>, server: ServerId, applied: &Applied) -> Result<(), NoMemory>
    ensures { OnOk result (history.new ≡ history.old ++ entries_in server applied.now) }
{
    match applied {
        Applied::Stored {
            host,
            fid,
            spans,
            length,
        } => history.push(Entry::Stored {
            host: *host,
            fid: *fid,
            spans: spans.copy()?,
            length: *length,
        }),
        Applied::Replied(answer) => history.push(call_entry(answer)?),
        Applied::IsDown(host) => history.push(Entry::Down {
            host: *host,
            server,
        }),
        Applied::Wants(_) => Ok(()),
        Applied::Done(written) => history.push(call_entry(&written.answer)?),
        Applied::Moves(of) => push_move(history, server, of),
    }
}

fn push_move(history: &mut Items<Entry>, server: ServerId, of: &Move) -> Result<(), NoMemory>
    ensures { OnOk result (history.new ≡ history.old ++ entries_moved server of.now) }
{
    match of {
        Move::Leaves {
            fileset: _,
            to: _,
            ship: _,
            mover: _,
        } => Ok(()),
        Move::Arrives(head) => history.push(call_entry(&head.written.answer)?),
        Move::Part {
            fileset: _,
            last: _,
        } => Ok(()),
        Move::Back(_) => Ok(()),
        Move::Left { fileset, to: _ } => history.push(Entry::Left {
            server,
            fileset: *fileset,
        }),
    }
}

// The entry of a call.
fn call_entry(answer: &Answer) -> Result<Entry, NoMemory>
    ensures { IfOk result (λ entry. entry ≡ call_entry answer.now) }
{
    Ok(Entry::Call {
        host: answer.host,
        k: answer.k,
        reply: answer.reply.copy()?,
        call: answer.call.copy()?,
    })
}
