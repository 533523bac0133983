ghost use Rattle.std.specs.Prelude.{◌≡◌, ◌+◌, ◌*◌, ◌^◌, ◌<◌, ◌≤◌, [], ◌∷◌, ◌++◌, length, IfOk, OnOk};
ghost use Rattle.script_words.specs.Fields.{host_node};
ghost use Rattle.script_generator.specs.Words.{generator, after_words};
ghost use Rattle.script_generator.specs.Workload.{
  create,
  shared_file,
  own_file,
  creates,
  start,
  awaits,
  calls_by,
  all_calls,
  first_tasks,
  tasks,
  numbered,
  with_tasks,
};

use crate::calls::{Author, call_of, name_of, own_file, shared_file};
use crate::words::{draw, generator};
use base_types::{HostId, Items, NoMemory, Node};
use rand_pcg::Pcg32;
use script_lines::{Deed, Line};
use std::alloc::Global;
use tree_calls::Call;

fn host_node(host: u8) -> Node
    ensures { result ≡ host_node host }
{
    Node::Host(HostId(host))
}

// A further line, where the first one has this number.
#[tactic(auto, using(crate::proofs::Tasks::one_more))]
fn add(first: u32, lines: &mut Items<Line>, node: Node, deed: Deed) -> Result<(), NoMemory>
    requires { first + length lines.old < 2 ^ 32 }
    ensures lines { OnOk result (lines.new ≡ with_tasks first lines.old (record { node = node; deed = deed } ∷ [])) }
    ensures len { OnOk result (length lines.new ≡ length lines.old + 1) }
{
    let number = first + lines.len() as u32;
    lines.push(Line { number, node, deed })
}

#[tactic(auto, using(crate::proofs::Tasks::creates_start, crate::proofs::Tasks::creates_more))]
fn add_creates(
    alloc: Global,
    first: u32,
    lines: &mut Items<Line>,
    hosts: u8,
) -> Result<(), NoMemory>
    requires { first + length lines.old + hosts < 2 ^ 32 }
    ensures lines { OnOk result (lines.new ≡ with_tasks first lines.old (creates hosts)) }
    ensures len { OnOk result (length lines.new ≡ length lines.old + hosts) }
{
    for h in 0..hosts {
        let place = own_file(alloc, h + 1)?;
        add(
            first,
            lines,
            host_node(1),
            Deed::Call(Call::Create { place }),
        )?;
    }
    Ok(())
}

#[tactic(auto, using(crate::proofs::Tasks::awaits_start, crate::proofs::Tasks::awaits_more))]
fn add_awaits(alloc: Global, first: u32, lines: &mut Items<Line>, hosts: u8) -> Result<(), NoMemory>
    requires some { 1 ≤ hosts }
    requires room { first + length lines.old + hosts < 2 ^ 32 }
    ensures lines { OnOk result (lines.new ≡ with_tasks first lines.old (awaits hosts)) }
    ensures len { OnOk result (length lines.new + 1 ≡ length lines.old + hosts) }
{
    for host in 1..hosts {
        let flag = name_of(alloc, b"start")?;
        add(first, lines, host_node(host + 1), Deed::Await(flag))?;
    }
    Ok(())
}

#[tactic(auto, using(crate::proofs::Tasks::calls_start, crate::proofs::Tasks::calls_more, crate::proofs::Tasks::words_more))]
fn add_calls_of(
    alloc: Global,
    first: u32,
    lines: &mut Items<Line>,
    rng: &mut Pcg32,
    author: &Author,
    calls: u32,
) -> Result<(), NoMemory>
    requires host { 1 ≤ author.now.host }
    requires file { author.now.file ≡ own_file author.now.host }
    requires room { first + length lines.old + calls < 2 ^ 32 }
    ensures lines { OnOk result (lines.new ≡ with_tasks first lines.old (calls_by rng.old author.now.host calls)) }
    ensures len { OnOk result (length lines.new ≡ length lines.old + calls) }
    ensures words { OnOk result (rng.new ≡ after_words calls rng.old) }
{
    for i in 0..calls {
        let word = draw(rng);
        let call = call_of(alloc, author, i + 1, word)?;
        add(first, lines, host_node(author.host), Deed::Call(call))?;
    }
    Ok(())
}

#[tactic(auto, using(crate::proofs::Tasks::all_calls_start, crate::proofs::Tasks::all_calls_more, crate::proofs::Tasks::words_none, crate::proofs::Tasks::words_on))]
fn add_calls(
    alloc: Global,
    first: u32,
    lines: &mut Items<Line>,
    seed: u64,
    hosts: u8,
    calls: u32,
) -> Result<(), NoMemory>
    requires few { calls ≤ 400 }
    requires room { first + length lines.old + 400 * hosts < 2 ^ 32 }
    ensures { OnOk result (lines.new ≡ with_tasks first lines.old (all_calls seed hosts calls)) }
{
    let mut rng = generator(seed);
    for h in 0..hosts {
        let author = Author {
            host: h + 1,
            file: own_file(alloc, h + 1)?,
        };
        add_calls_of(alloc, first, lines, &mut rng, &author, calls)?;
    }
    Ok(())
}

// What the hosts do before their own calls.
#[tactic(auto, using(crate::proofs::Tasks::first_more))]
fn first_lines(alloc: Global, first: u32, hosts: u8) -> Result<Items<Line>, NoMemory>
    requires some { 1 ≤ hosts }
    requires room { first < 1000 }
    ensures lines { IfOk result (λ lines. lines ≡ with_tasks first [] (first_tasks hosts)) }
    ensures len { IfOk result (λ lines. length lines ≤ 512) }
{
    let mut lines = Items::new(alloc);
    let place = shared_file(alloc)?;
    add(
        first,
        &mut lines,
        host_node(1),
        Deed::Call(Call::Create { place }),
    )?;
    add_creates(alloc, first, &mut lines, hosts)?;
    let flag = name_of(alloc, b"start")?;
    add(first, &mut lines, host_node(1), Deed::Raise(flag))?;
    add_awaits(alloc, first, &mut lines, hosts)?;
    Ok(lines)
}

/// The lines of the generated script, where the first one has this number.
#[tactic(auto, using(crate::proofs::Tasks::all_more))]
pub(crate) fn lines_of(
    alloc: Global,
    first: u32,
    seed: u64,
    hosts: u8,
    calls: u32,
) -> Result<Items<Line>, NoMemory>
    requires some { 1 ≤ hosts }
    requires few { calls ≤ 400 }
    requires room { first < 1000 }
    ensures { IfOk result (λ lines. lines ≡ numbered first (tasks seed hosts calls)) }
{
    let mut lines = first_lines(alloc, first, hosts)?;
    add_calls(alloc, first, &mut lines, seed, hosts, calls)?;
    Ok(lines)
}
