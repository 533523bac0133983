//! What a run tells beside its filesets: replies and losses, each in the order of the output.
ghost use Rattle.std.specs.Prelude.{◌≡◌, ◌++◌, flat_map, IfOk, OnOk};
ghost use Rattle.tree_answers.specs.Histories.{after_history, lost_in};
ghost use Rattle.script_lines.specs.Asks.{call_lines};
ghost use Rattle.std.specs.List.{list_any};
ghost use Rattle.script_output.specs.Reports.{is_down, all_servers, answer_in, answers_of, lost_by, by_host, report_of};

use base_types::{HOSTS_MAX, HostId, Items, NoMemory, Plain, SERVERS_MAX};
use script_lines::{Script, call_lines};
use std::alloc::Global;
use tree_answers::Tree;
use tree_calls::{Entry, Loss, Reply};

/// The reply to a line of a script.
#[derive(Drop)]
pub struct Answer {
    /// The host that called.
    pub host: HostId,
    /// Which of its calls it was, from 1.
    pub k: u32,
    /// The reply.
    pub reply: Reply,
}

/// What a run tells beside the filesets that it leaves.
#[derive(Drop)]
pub struct Report {
    /// The replies to the lines of the script, by host.
    pub answers: Items<Answer>,
    /// The losses, by host, server, path and position.
    pub losses: Items<Loss>,
}

/// What a run of a script from a tree on with a history tells.
#[tactic(auto, unfolding(crate::specs::Reports::report_of))]
pub(crate) fn report_of(
    alloc: Global,
    script: &Script,
    start: &Tree,
    history: &[Entry],
) -> Result<Report, NoMemory>
    ensures { IfOk result (λ report. report ≡ report_of script.now start.now history.now) }
{
    let answers = answers_of(alloc, script, history)?;
    let losses = losses_along(alloc, start, history)?;
    Ok(Report { answers, losses })
}

// The losses of a history by host. Where no host is down nothing is lost, and the history isn't gone through.
#[tactic(auto, using(crate::proofs::Losing::none_lost))]
fn losses_along(alloc: Global, start: &Tree, history: &[Entry]) -> Result<Items<Loss>, NoMemory>
    ensures { IfOk result (λ losses. losses ≡ by_host (lost_in start.now history.now)) }
{
    if !has_down(history) {
        return Ok(Items::new(alloc));
    }
    let lost = losses_in(alloc, start, history)?;
    by_host(&lost)
}

fn has_down(history: &[Entry]) -> bool
    ensures { result ≡ list_any is_down history.now }
{
    history.iter().any(|entry| is_down(entry))
}

fn is_down(entry: &Entry) -> bool
    ensures { result ≡ is_down entry.now }
{
    matches!(entry, Entry::Down { .. })
}

/// The losses of a history from a tree on, as they come: at each host that goes down what it hadn't stored, in bytes
/// and lengths, by path and position. `NoMemory` comes where memory runs out.
pub fn losses_in(alloc: Global, start: &Tree, history: &[Entry]) -> Result<Items<Loss>, NoMemory>
    ensures { IfOk result (λ losses. losses ≡ lost_in start.now history.now) }
{
    let mut tree = start.copy()?;
    follow(alloc, &mut tree, history)
}

// The replies to the lines of a script, by host.
#[tactic(auto, unfolding(crate::specs::Reports::answers_of))]
fn answers_of(alloc: Global, script: &Script, history: &[Entry]) -> Result<Items<Answer>, NoMemory>
    ensures { IfOk result (λ answers. answers ≡ answers_of script.now history.now) }
{
    let mut answers = Items::new(alloc);
    for host in 0..HOSTS_MAX + 1 {
        push_answers(&mut answers, host, call_lines(script, host), history)?;
    }
    Ok(answers)
}

fn push_answers(
    answers: &mut Items<Answer>,
    host: u8,
    calls: usize,
    history: &[Entry],
) -> Result<(), NoMemory>
    ensures { OnOk result (answers.new ≡ answers.old ++ flat_map (answer_in host calls) history.now) }
{
    for entry in history {
        push_answer(answers, host, calls, entry)?;
    }
    Ok(())
}

#[tactic(auto, unfolding(crate::specs::Reports::answer_in))]
fn push_answer(
    answers: &mut Items<Answer>,
    host: u8,
    calls: usize,
    entry: &Entry,
) -> Result<(), NoMemory>
    ensures { OnOk result (answers.new ≡ answers.old ++ answer_in host calls entry.now) }
{
    if let Entry::Call {
        host: by,
        k,
        call: _,
        reply,
    } = entry
    {
        if by.0 == host && *k as usize <= calls {
            answers.push(Answer {
                host: *by,
                k: *k,
                reply: reply.copy()?,
            })?;
        }
    }
    Ok(())
}

// Goes through a history. Gives the losses as they come, and leaves the last tree.
fn follow(alloc: Global, tree: &mut Tree, history: &[Entry]) -> Result<Items<Loss>, NoMemory>
    ensures losses { IfOk result (λ losses. losses ≡ lost_in tree.old history.now) }
    ensures tree { OnOk result (tree.new ≡ after_history tree.old history.now) }
{
    let mut losses = Items::new(alloc);
    for entry in history {
        losses.append(tree.follow(entry)?)?;
    }
    Ok(losses)
}

/// Losses by host, and then by server. `NoMemory` comes where memory runs out.
#[tactic(auto, unfolding(crate::specs::Reports::by_host))]
pub fn by_host(losses: &Items<Loss>) -> Result<Items<Loss>, NoMemory>
    ensures { IfOk result (λ ordered. ordered ≡ by_host losses.now) }
{
    let mut ordered = Items::new(losses.alloc());
    for host in 0..HOSTS_MAX + 1 {
        push_host_losses(&mut ordered, losses, host)?;
    }
    Ok(ordered)
}

fn push_host_losses(
    ordered: &mut Items<Loss>,
    losses: &Items<Loss>,
    host: u8,
) -> Result<(), NoMemory>
    ensures { OnOk result (ordered.new ≡ ordered.old ++ flat_map (lost_by losses.now host) all_servers) }
{
    for server in 1..SERVERS_MAX + 1 {
        push_losses_at(ordered, losses, host, server)?;
    }
    Ok(())
}

fn push_losses_at(
    ordered: &mut Items<Loss>,
    losses: &Items<Loss>,
    host: u8,
    server: u8,
) -> Result<(), NoMemory>
    ensures { OnOk result (ordered.new ≡ ordered.old ++ lost_by losses.now host server) }
{
    for loss in losses.as_slice() {
        if loss.host.0 == host && loss.server.0 == server {
            ordered.push(loss.copy()?)?;
        }
    }
    Ok(())
}
