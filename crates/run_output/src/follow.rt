//! What the steps of a run make of a tree.
ghost use Rattle.std.specs.Prelude.{◌≡◌, ◌++◌, ◌∷◌, [], IfOk, OnOk, flat_map, map};
ghost use Rattle.tree_calls.specs.declared.entry.Entry.TheVariants.{Down};
ghost use Rattle.tree_answers.specs.Answers.{answer_to};
ghost use Rattle.tree_answers.specs.Histories.{after_history, lost_in};
ghost use Rattle.run_rules.specs.Runs.{call_entry, entries_in, entries_moved, entries_of, history_of};

use base_types::{HostId, Items, NoMemory, Node, Plain, ServerId};
use run_rules::{Answer, Applied, Move, Step};
use std::alloc::Global;
use tree_answers::Tree;
use tree_calls::{Call, Loss};

/// The tree to which these steps lead from a tree on, and what is lost along them, as it comes.
pub(crate) fn followed(
    alloc: Global,
    start: &Tree,
    steps: &[Step],
) -> Result<(Items<Loss>, Tree), NoMemory>
    ensures losses { IfOk result (λ r. r.0 ≡ lost_in start.now (history_of steps.now)) }
    ensures last { IfOk result (λ r. r.1 ≡ after_history start.now (history_of steps.now)) }
{
    let mut losses = Items::new(alloc);
    let mut tree = start.copy()?;
    match follow(&mut tree, &mut losses, steps) {
        Ok(()) => Ok((losses, tree)),
        Err(NoMemory) => Err(NoMemory),
    }
}

// Makes the tree what it is after these steps, and adds what is lost.
#[tactic(auto, using(crate::proofs::Along::along))]
fn follow(tree: &mut Tree, losses: &mut Items<Loss>, steps: &[Step]) -> Result<(), NoMemory>
    ensures losses { OnOk result (losses.new ≡ losses.old ++ lost_in tree.old (history_of steps.now)) }
    ensures tree { OnOk result (tree.new ≡ after_history tree.old (history_of steps.now)) }
{
    for step in steps {
        follow_step(tree, losses, step)?;
    }
    Ok(())
}

#[tactic(auto, using(crate::proofs::Along::along))]
fn follow_step(tree: &mut Tree, losses: &mut Items<Loss>, step: &Step) -> Result<(), NoMemory>
    ensures losses { OnOk result (losses.new ≡ losses.old ++ lost_in tree.old (entries_of step.now)) }
    ensures tree { OnOk result (tree.new ≡ after_history tree.old (entries_of step.now)) }
{
    follow_answers(tree, &step.answers)?;
    match step.node {
        Node::Host(_) => Ok(()),
        Node::Server(server) => follow_applied(tree, losses, server, &step.applied),
    }
}

fn follow_answers(tree: &mut Tree, answers: &Items<Answer>) -> Result<(), NoMemory>
    ensures { OnOk result (tree.new ≡ after_history tree.old (map call_entry answers.now)) }
{
    for answer in answers.as_slice() {
        follow_call(tree, answer)?;
    }
    Ok(())
}

#[tactic(auto, using(crate::proofs::Along::along))]
fn follow_applied(
    tree: &mut Tree,
    losses: &mut Items<Loss>,
    server: ServerId,
    applied: &Items<Applied>,
) -> Result<(), NoMemory>
    ensures losses { OnOk result
        (losses.new ≡ losses.old ++ lost_in tree.old (flat_map (entries_in server) applied.now)) }
    ensures tree { OnOk result (tree.new ≡ after_history tree.old (flat_map (entries_in server) applied.now)) }
{
    for one in applied.as_slice() {
        follow_one(tree, losses, server, one)?;
    }
    Ok(())
}

fn follow_one(
    tree: &mut Tree,
    losses: &mut Items<Loss>,
    server: ServerId,
    applied: &Applied,
) -> Result<(), NoMemory>
    ensures losses { OnOk result (losses.new ≡ losses.old ++ lost_in tree.old (entries_in server applied.now)) }
    ensures tree { OnOk result (tree.new ≡ after_history tree.old (entries_in server applied.now)) }
{
    match applied {
        Applied::Stored {
            host,
            fid,
            spans,
            length,
        } => tree.stored(*host, *fid, spans.as_slice(), *length),
        Applied::Replied(answer) => follow_call(tree, answer),
        Applied::IsDown(host) => follow_down(tree, losses, *host, server),
        Applied::Wants(_) => Ok(()),
        Applied::Done(written) => follow_call(tree, &written.answer),
        Applied::Moves(of) => follow_move(tree, server, of),
    }
}

// Makes the tree what it is after a part of a move, which loses nothing.
fn follow_move(tree: &mut Tree, server: ServerId, of: &Move) -> Result<(), NoMemory>
    ensures { OnOk result (tree.new ≡ after_history tree.old (entries_moved server of.now)) }
{
    match of {
        Move::Leaves {
            fileset: _,
            to: _,
            ship: _,
            mover: _,
        } => Ok(()),
        Move::Arrives(head) => follow_call(tree, &head.written.answer),
        Move::Part {
            fileset: _,
            last: _,
        } => Ok(()),
        Move::Back(_) => Ok(()),
        Move::Left { fileset, to: _ } => {
            tree.left(server, *fileset);
            Ok(())
        }
    }
}

// Makes the tree what it is after a call. A read, of which there may be many, leaves it as it is.
#[tactic(auto, using(crate::proofs::Reading::read_stays))]
fn follow_call(tree: &mut Tree, answer: &Answer) -> Result<(), NoMemory>
    ensures { OnOk result (tree.new ≡ (answer_to tree.old answer.now.host answer.now.call).tree) }
{
    if !matches!(&answer.call, Call::Read { .. }) {
        tree.answer(answer.host, &answer.call)?;
    }
    Ok(())
}

// A server learns that a host is down.
fn follow_down(
    tree: &mut Tree,
    losses: &mut Items<Loss>,
    host: HostId,
    server: ServerId,
) -> Result<(), NoMemory>
    ensures losses { OnOk result (losses.new ≡ losses.old ++ lost_in tree.old (Down host server ∷ [])) }
    ensures tree { OnOk result (tree.new ≡ after_history tree.old (Down host server ∷ [])) }
{
    losses.append(tree.down(host, server)?)
}
