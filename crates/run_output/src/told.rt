//! The replies in the steps of a run. Its answers are sorted by host in one pass, and then told host by host.
ghost use Rattle.std.specs.Prelude.{◌≡◌, ◌++◌, ◌<◌, ℕ, [], IfOk, OnOk, flat_map, length, map, slice_index_or};
ghost use Rattle.base_types.specs.declared.ids.ServerId.{ServerId as ServerIdOf};
ghost use Rattle.script_lines.specs.Asks.{call_lines};
ghost use Rattle.script_output.specs.Reports.{answer_in, answers_of};
ghost use Rattle.run_rules.specs.Runs.{call_entry, entries_in, entries_moved, entries_of, history_of};

use base_types::{HOSTS_MAX, Items, NoMemory, Node, Plain, ServerId};
use run_rules::{Answer, Applied, Move, Step};
use script_lines::{Script, call_lines};
use script_output::Answer as Told;
use std::alloc::Global;

/// The replies to the lines of a script in the history of these steps, by host.
#[tactic(auto, unfolding(script_output::specs::Reports::answers_of))]
pub(crate) fn answers_of(
    alloc: Global,
    script: &Script,
    steps: &[Step],
) -> Result<Items<Told>, NoMemory>
    ensures { IfOk result (λ answers. answers ≡ answers_of script.now (history_of steps.now)) }
{
    let sorted = sorted(alloc, steps)?;
    let mut answers = Items::new(alloc);
    for host in 0..HOSTS_MAX + 1 {
        push_host(&mut answers, script, host, &sorted)?;
    }
    Ok(answers)
}

// Adds the replies to the lines of a host, whose answers stand at its number.
fn push_host(
    answers: &mut Items<Told>,
    script: &Script,
    host: u8,
    sorted: &Items<Items<&Answer>>,
) -> Result<(), NoMemory>
    ensures { OnOk result (answers.new ≡ answers.old ++ flat_map (answer_in host (call_lines script.now host))
        (map (λ answer. call_entry answer.now) (slice_index_or sorted.now host []))) }
{
    match sorted.at(host as usize) {
        Some(own) => push_answers(answers, host, call_lines(script, host), own.as_slice()),
        None => Ok(()),
    }
}

fn push_answers(
    answers: &mut Items<Told>,
    host: u8,
    calls: usize,
    own: &[&Answer],
) -> Result<(), NoMemory>
    ensures { OnOk result
        (answers.new ≡ answers.old ++ flat_map (answer_in host calls) (map (λ answer. call_entry answer.now) own.now)) }
{
    for answer in own {
        push_answer(answers, host, calls, answer)?;
    }
    Ok(())
}

// Adds the reply to a call, where it is that of a line of this host, which has so many.
#[tactic(auto, unfolding(script_output::specs::Reports::answer_in))]
fn push_answer(
    answers: &mut Items<Told>,
    host: u8,
    calls: usize,
    answer: &Answer,
) -> Result<(), NoMemory>
    ensures { OnOk result (answers.new ≡ answers.old ++ answer_in host calls (call_entry answer.now)) }
{
    if answer.host.0 == host && answer.k as usize <= calls {
        answers.push(Told {
            host: answer.host,
            k: answer.k,
            reply: answer.reply.copy()?,
        })?;
    }
    Ok(())
}

// The answers in these steps, those of each host at its number: of its lines they tell what the history tells.
fn sorted(alloc: Global, steps: &[Step]) -> Result<Items<Items<&Answer>>, NoMemory>
    ensures { (host calls : ℕ) → IfOk result (λ sorted.
        flat_map (answer_in host calls) (map (λ answer. call_entry answer.now) (slice_index_or sorted host []))
        ≡ flat_map (answer_in host calls) (history_of steps.now)) }
{
    let mut sorted = Items::new(alloc);
    for step in steps {
        sort_step(&mut sorted, step)?;
    }
    Ok(sorted)
}

// What is sorted in tells of a host's lines what came before, and this.
fn sort_step<'a>(sorted: &mut Items<Items<&'a Answer>>, step: &'a Step) -> Result<(), NoMemory>
    ensures { (host calls : ℕ) → OnOk result
        (flat_map (answer_in host calls) (map (λ answer. call_entry answer.now) (slice_index_or sorted.new host []))
        ≡ flat_map (answer_in host calls) (map (λ answer. call_entry answer.now) (slice_index_or sorted.old host []))
        ++ flat_map (answer_in host calls) (entries_of step.now)) }
{
    sort_answers(sorted, &step.answers)?;
    match step.node {
        Node::Host(_) => Ok(()),
        Node::Server(server) => sort_applied(sorted, server, &step.applied),
    }
}

fn sort_answers<'a>(
    sorted: &mut Items<Items<&'a Answer>>,
    more: &'a Items<Answer>,
) -> Result<(), NoMemory>
    ensures { (host calls : ℕ) → OnOk result
        (flat_map (answer_in host calls) (map (λ answer. call_entry answer.now) (slice_index_or sorted.new host []))
        ≡ flat_map (answer_in host calls) (map (λ answer. call_entry answer.now) (slice_index_or sorted.old host []))
        ++ flat_map (answer_in host calls) (map call_entry more.now)) }
{
    for answer in more.as_slice() {
        sort_answer(sorted, answer)?;
    }
    Ok(())
}

fn sort_applied<'a>(
    sorted: &mut Items<Items<&'a Answer>>,
    server: ServerId,
    applied: &'a Items<Applied>,
) -> Result<(), NoMemory>
    ensures { (host calls : ℕ) → OnOk result
        (flat_map (answer_in host calls) (map (λ answer. call_entry answer.now) (slice_index_or sorted.new host []))
        ≡ flat_map (answer_in host calls) (map (λ answer. call_entry answer.now) (slice_index_or sorted.old host []))
        ++ flat_map (answer_in host calls) (flat_map (entries_in server) applied.now)) }
{
    let _server = server;
    for one in applied.as_slice() {
        sort_one(sorted, one)?;
    }
    Ok(())
}

#[tactic(auto, unfolding(script_output::specs::Reports::answer_in))]
fn sort_one<'a>(sorted: &mut Items<Items<&'a Answer>>, applied: &'a Applied) -> Result<(), NoMemory>
    ensures { (server : ServerIdOf) → (host calls : ℕ) → OnOk result
        (flat_map (answer_in host calls) (map (λ answer. call_entry answer.now) (slice_index_or sorted.new host []))
        ≡ flat_map (answer_in host calls) (map (λ answer. call_entry answer.now) (slice_index_or sorted.old host []))
        ++ flat_map (answer_in host calls) (entries_in server applied.now)) }
{
    match applied {
        Applied::Replied(answer) => sort_answer(sorted, answer),
        Applied::Done(written) => sort_answer(sorted, &written.answer),
        Applied::Moves(of) => sort_moved(sorted, of),
        _ => Ok(()),
    }
}

#[tactic(auto, unfolding(script_output::specs::Reports::answer_in))]
fn sort_moved<'a>(sorted: &mut Items<Items<&'a Answer>>, of: &'a Move) -> Result<(), NoMemory>
    ensures { (server : ServerIdOf) → (host calls : ℕ) → OnOk result
        (flat_map (answer_in host calls) (map (λ answer. call_entry answer.now) (slice_index_or sorted.new host []))
        ≡ flat_map (answer_in host calls) (map (λ answer. call_entry answer.now) (slice_index_or sorted.old host []))
        ++ flat_map (answer_in host calls) (entries_moved server of.now)) }
{
    match of {
        Move::Arrives(head) => sort_answer(sorted, &head.written.answer),
        _ => Ok(()),
    }
}

// Puts an answer behind those of its host.
#[tactic(auto, unfolding(script_output::specs::Reports::answer_in))]
fn sort_answer<'a>(
    sorted: &mut Items<Items<&'a Answer>>,
    answer: &'a Answer,
) -> Result<(), NoMemory>
    ensures { (host calls : ℕ) → OnOk result
        (flat_map (answer_in host calls) (map (λ answer. call_entry answer.now) (slice_index_or sorted.new host []))
        ≡ flat_map (answer_in host calls) (map (λ answer. call_entry answer.now) (slice_index_or sorted.old host []))
        ++ answer_in host calls (call_entry answer.now)) }
{
    let host = answer.host.0 as usize;
    grow(sorted, host)?;
    sorted.get_mut(host).push(answer)?;
    Ok(())
}

// There are lists up to that of this host.
fn grow(sorted: &mut Items<Items<&Answer>>, host: usize) -> Result<(), NoMemory>
    requires { host < 256 }
    ensures room { OnOk result (host < length sorted.new) }
    ensures kept { (i : ℕ) → slice_index_or sorted.new i [] ≡ slice_index_or sorted.old i [] }
{
    let alloc = sorted.alloc();
    for _place in sorted.len()..host + 1 {
        sorted.push(Items::new(alloc))?;
    }
    Ok(())
}
