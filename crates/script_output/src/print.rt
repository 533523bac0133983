ghost use Rattle.std.specs.Prelude.{◌≡◌, ◌++◌, codes, decimal, flat_map, IfOk, OnOk};
ghost use Rattle.script_output.specs.Texts.{word_text, path_of};
ghost use Rattle.script_output.specs.Dump.{fileset_lines};
ghost use Rattle.script_output.specs.Reports.{filesets_at, by_server};
ghost use Rattle.script_output.specs.Printed.{answer_line, span_text, length_text, loss_line, text_of_report, printed};
ghost use Rattle.tree_answers.specs.Histories.{after_history};

use crate::dump::push_fileset;
use crate::replies::push_reply;
use crate::report::{Answer, Report, report_of};
use crate::texts::{push_number, push_word};
use base_types::{HostId, Items, Name, NoMemory, SERVERS_MAX, ServerId, Span};
use script_lines::Script;
use std::alloc::Global;
use tree_answers::Tree;
use tree_calls::{Entry, Loss};
use tree_filesets::Fileset;

/// The output of a run as text: of a script that was run from the tree `start` on, with this history, which led to the
/// tree `last`.
///
/// First each reply to a line of the script, `cH K REPLY`, by host and then by the number of the call. Then each loss,
/// `lost cH sS PATH FROM TO` in bytes or `lost cH sS PATH length N`, by host, server, path and position. Then the
/// filesets that the history leaves, by server and id, object by object, with the bytes of files that aren't zero. Last
/// `end`. The form is this project's own.
pub fn text_of(
    alloc: Global,
    script: &Script,
    start: &Tree,
    history: &[Entry],
    last: &Tree,
) -> Result<Items<u8>, NoMemory>
    requires { last.now ≡ after_history start.now history.now }
    ensures { IfOk result (λ text. text ≡ printed script.now start.now history.now) }
{
    let report = report_of(alloc, script, start, history)?;
    text_of_report(alloc, &report, &last.filesets)
}

/// What a run tells and the filesets that it leaves, as text. `NoMemory` comes where memory runs out.
#[tactic(auto, unfolding(crate::specs::Printed::text_of_report))]
pub fn text_of_report(
    alloc: Global,
    report: &Report,
    filesets: &Items<Fileset>,
) -> Result<Items<u8>, NoMemory>
    ensures { IfOk result (λ text. text ≡ text_of_report report.now filesets.now) }
{
    let mut out = Items::new(alloc);
    push_answers(&mut out, &report.answers)?;
    push_losses(&mut out, &report.losses)?;
    push_dump(&mut out, filesets)?;
    out.extend(b"end\n")?;
    Ok(out)
}

fn push_answers(out: &mut Items<u8>, answers: &Items<Answer>) -> Result<(), NoMemory>
    ensures { OnOk result (out.new ≡ out.old ++ flat_map answer_line answers.now) }
{
    for answer in answers.as_slice() {
        push_answer(out, answer)?;
    }
    Ok(())
}

#[tactic(auto, unfolding(crate::specs::Printed::answer_line))]
fn push_answer(out: &mut Items<u8>, answer: &Answer) -> Result<(), NoMemory>
    ensures { OnOk result (out.new ≡ out.old ++ answer_line answer.now) }
{
    out.push(b'c')?;
    push_number(out, answer.host.0 as u64)?;
    out.push(b' ')?;
    push_number(out, answer.k as u64)?;
    out.push(b' ')?;
    push_reply(out, &answer.reply)?;
    out.push(b'\n')
}

fn push_losses(out: &mut Items<u8>, losses: &Items<Loss>) -> Result<(), NoMemory>
    ensures { OnOk result (out.new ≡ out.old ++ flat_map loss_line losses.now) }
{
    for loss in losses.as_slice() {
        push_loss(out, loss)?;
    }
    Ok(())
}

#[tactic(auto, unfolding(crate::specs::Printed::loss_line))]
fn push_loss(out: &mut Items<u8>, loss: &Loss) -> Result<(), NoMemory>
    ensures { OnOk result (out.new ≡ out.old ++ loss_line loss.now) }
{
    push_nodes(out, loss.host, loss.server)?;
    push_path(out, &loss.path)?;
    push_span(out, loss.span)?;
    push_length(out, loss.length)?;
    out.push(b'\n')
}

// Adds who lost something, and at which server.
fn push_nodes(out: &mut Items<u8>, host: HostId, server: ServerId) -> Result<(), NoMemory>
    ensures { OnOk result
        (out.new ≡ out.old ++ codes "lost c" ++ decimal host.0 ++ codes " s" ++ decimal server.0 ++ codes " ") }
{
    out.extend(b"lost c")?;
    push_number(out, host.0 as u64)?;
    out.extend(b" s")?;
    push_number(out, server.0 as u64)?;
    out.push(b' ')
}

// Adds the path of these names.
fn push_path(out: &mut Items<u8>, names: &Items<Name>) -> Result<(), NoMemory>
    ensures { OnOk result (out.new ≡ out.old ++ word_text (path_of names.now)) }
{
    let path = path_of(names)?;
    push_word(out, path.as_slice())
}

// The path of these names.
fn path_of(names: &Items<Name>) -> Result<Items<u8>, NoMemory>
    ensures { IfOk result (λ path. path ≡ path_of names.now) }
{
    let mut path = Items::new(names.alloc());
    for name in names.as_slice() {
        path.push(b'/')?;
        path.extend(name.as_bytes())?;
    }
    Ok(path)
}

#[tactic(auto, unfolding(crate::specs::Printed::span_text))]
fn push_span(out: &mut Items<u8>, span: Option<Span>) -> Result<(), NoMemory>
    ensures { OnOk result (out.new ≡ out.old ++ span_text span) }
{
    if let Some(span) = span {
        out.push(b' ')?;
        push_number(out, span.from as u64)?;
        out.push(b' ')?;
        push_number(out, span.to as u64)?;
    }
    Ok(())
}

#[tactic(auto, unfolding(crate::specs::Printed::length_text))]
fn push_length(out: &mut Items<u8>, length: Option<u32>) -> Result<(), NoMemory>
    ensures { OnOk result (out.new ≡ out.old ++ length_text length) }
{
    if let Some(length) = length {
        out.extend(b" length ")?;
        push_number(out, length as u64)?;
    }
    Ok(())
}

// Adds the lines of all filesets, by server.
#[tactic(auto, unfolding(crate::specs::Reports::by_server))]
fn push_dump(out: &mut Items<u8>, filesets: &Items<Fileset>) -> Result<(), NoMemory>
    ensures { OnOk result (out.new ≡ out.old ++ flat_map fileset_lines (by_server filesets.now)) }
{
    for server in 1..SERVERS_MAX + 1 {
        push_server(out, filesets, server)?;
    }
    Ok(())
}

fn push_server(out: &mut Items<u8>, filesets: &Items<Fileset>, server: u8) -> Result<(), NoMemory>
    ensures { OnOk result (out.new ≡ out.old ++ flat_map fileset_lines (filesets_at filesets.now server)) }
{
    for fileset in filesets.as_slice() {
        if fileset.server.0 == server {
            push_fileset(out, fileset)?;
        }
    }
    Ok(())
}
