ghost use Rattle.std.specs.Prelude.{◌≡◌, ◌++◌, [], map, string_bytes, IfOk, OnOk};
ghost use Rattle.serde_json.specs.Written.{compact_text};
ghost use Rattle.serde_json.specs.View.{view};
ghost use Rattle.script_words.specs.Spelling.{spelled_bytes};
ghost use Rattle.script_output.specs.Reports.{filesets_at, by_server};
ghost use Rattle.script_output.specs.Summary.{objects_of, is_refused, refused_calls, json_of_report, printed_json};
ghost use Rattle.script_output.specs.Values.{fileset_value, fileset_values, report_value};
ghost use Rattle.tree_answers.specs.Histories.{after_history};

use crate::report::{Answer, Report, report_of};
use crate::texts::push_spelled;
use base_types::{Items, NoMemory, SERVERS_MAX};
use script_lines::Script;
use serde_json::{Value, json};
use std::alloc::Global;
use tree_answers::Tree;
use tree_calls::{Entry, Reply};
use tree_filesets::Fileset;
use tree_objects::Anode;

/// The output of a run as one line of JSON, which ends with a line feed: of a script that was run from the tree `start`
/// on, with this history, which led to the tree `last`.
///
/// It has no spaces. It is an object with `calls`, how many replies the text form has; `filesets`, an object for each
/// with its `name`, as the text form has it between quotes, its number of `objects` and its `server`; `lost`, how many
/// losses the text form has; and `refused`, how many of the calls are refused. The form is this project's own.
pub fn json_of(
    alloc: Global,
    script: &Script,
    start: &Tree,
    history: &[Entry],
    last: &Tree,
) -> Result<Items<u8>, NoMemory>
    requires { last.now ≡ after_history start.now history.now }
    ensures { IfOk result (λ text. text ≡ printed_json script.now start.now history.now) }
{
    let report = report_of(alloc, script, start, history)?;
    json_of_report(alloc, &report, &last.filesets)
}

/// What a run tells and the filesets that it leaves, as one line of JSON. `NoMemory` comes where memory runs out.
#[tactic(auto, using(crate::proofs::Lines::report_line))]
pub fn json_of_report(
    alloc: Global,
    report: &Report,
    filesets: &Items<Fileset>,
) -> Result<Items<u8>, NoMemory>
    ensures { IfOk result (λ text. text ≡ json_of_report report.now filesets.now) }
{
    let line = report_value(alloc, report, filesets)?.to_string(alloc)?;
    let mut text = Items::from_vec(line.into_bytes());
    text.push(b'\n')?;
    Ok(text)
}

#[tactic(auto, unfolding(crate::specs::Values::report_value))]
fn report_value(
    alloc: Global,
    report: &Report,
    filesets: &Items<Fileset>,
) -> Result<Value, NoMemory>
    ensures { IfOk result (λ value. view value ≡ report_value report.now filesets.now) }
{
    let filesets = fileset_values(alloc, filesets)?;
    Ok(json!(in alloc; {
        "calls": report.answers.len(),
        "filesets": filesets,
        "lost": report.losses.len(),
        "refused": refused_calls(&report.answers),
    })?)
}

// What is told of all filesets, by server.
#[tactic(auto, unfolding(crate::specs::Reports::by_server))]
fn fileset_values(alloc: Global, filesets: &Items<Fileset>) -> Result<Vec<Value>, NoMemory>
    ensures { IfOk result (λ values. map view values.items ≡ fileset_values (by_server filesets.now)) }
{
    let mut values = Vec::new(alloc);
    for server in 1..SERVERS_MAX + 1 {
        push_values(&mut values, alloc, filesets, server)?;
    }
    Ok(values)
}

fn push_values(
    values: &mut Vec<Value>,
    alloc: Global,
    filesets: &Items<Fileset>,
    server: u8,
) -> Result<(), NoMemory>
    ensures { OnOk result
        (map view values.new.items ≡ map view values.old.items ++ fileset_values (filesets_at filesets.now server)) }
{
    for fileset in filesets.as_slice() {
        if fileset.server.0 == server {
            values.push(fileset_value(alloc, fileset)?)?;
        }
    }
    Ok(())
}

#[tactic(auto, unfolding(crate::specs::Values::fileset_value))]
fn fileset_value(alloc: Global, fileset: &Fileset) -> Result<Value, NoMemory>
    ensures { IfOk result (λ value. view value ≡ fileset_value fileset.now) }
{
    let name = spelled(alloc, fileset.name.as_bytes())?;
    Ok(json!(in alloc; {
        "name": name,
        "objects": objects_of(&fileset.anodes),
        "server": fileset.server.0,
    })?)
}

// Bytes as they stand between quotes.
fn spelled(alloc: Global, bytes: &[u8]) -> Result<String, NoMemory>
    ensures { IfOk result (λ text. string_bytes text ≡ spelled_bytes bytes.now []) }
{
    let mut text = Items::new(alloc);
    push_spelled(&mut text, bytes)?;
    match String::from_utf8(text.into_vec()) {
        Ok(text) => Ok(text),
        Err(_) => unreachable!(),
    }
}

// How many objects a fileset has.
fn objects_of(anodes: &Items<Anode>) -> usize
    ensures { result ≡ objects_of anodes.now }
{
    let mut count = 0;
    for anode in anodes.as_slice() {
        if anode.object.is_some() {
            count += 1;
        }
    }
    count
}

// How many calls are refused.
fn refused_calls(answers: &Items<Answer>) -> usize
    ensures { result ≡ refused_calls answers.now }
{
    answers
        .as_slice()
        .iter()
        .filter(|answer| is_refused(&answer.reply))
        .count()
}

fn is_refused(reply: &Reply) -> bool
    ensures { result ≡ is_refused reply.now }
{
    matches!(reply, Reply::Refused(_))
}
