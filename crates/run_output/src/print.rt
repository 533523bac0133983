//! What a run lost, and its output.
ghost use Rattle.std.specs.Prelude.{◌≡◌, [], ◌∷◌, IfOk};
ghost use Rattle.tree_answers.specs.declared.tree.Tree.{Tree as TreeOf};
ghost use Rattle.tree_answers.specs.Histories.{lost_in};
ghost use Rattle.script_output.specs.Printed.{printed};
ghost use Rattle.script_output.specs.Reports.{report_of};
ghost use Rattle.script_output.specs.Summary.{printed_json};
ghost use Rattle.run_rules.specs.Runs.{history_of};

use crate::follow::followed;
use crate::told::answers_of;
use base_types::{Items, NoMemory};
use run_rules::{Journal, Step};
use script_lines::Script;
use script_output::{Report, by_host, json_of_report, text_of_report};
use std::alloc::Global;
use tree_answers::Tree;
use tree_calls::Loss;

/// The losses of a run, as they come: what each host that went down hadn't stored at each server, in bytes and lengths,
/// by path and position. A journal in which no run began has none. `NoMemory` comes where memory runs out.
pub fn lost(alloc: Global, journal: &Journal) -> Result<Items<Loss>, NoMemory>
    ensures begun { (start : TreeOf) → journal.now.start ≡ start ∷ []
        → IfOk result (λ losses. losses ≡ lost_in start (history_of journal.now.steps)) }
    ensures unbegun { journal.now.start ≡ [] → IfOk result (λ losses. losses ≡ []) }
{
    match journal.start.at(0) {
        Some(start) => losses_from(alloc, start, journal.steps.as_slice()),
        None => Ok(Items::new(alloc)),
    }
}

fn losses_from(alloc: Global, start: &Tree, steps: &[Step]) -> Result<Items<Loss>, NoMemory>
    ensures { IfOk result (λ losses. losses ≡ lost_in start.now (history_of steps.now)) }
{
    let (losses, _last) = followed(alloc, start, steps)?;
    Ok(losses)
}

// What a run tells, along which this was lost, as it came.
#[tactic(auto, unfolding(script_output::specs::Reports::report_of))]
fn report_of(
    alloc: Global,
    script: &Script,
    steps: &[Step],
    lost: &Items<Loss>,
) -> Result<Report, NoMemory>
    ensures { (start : TreeOf) → lost.now ≡ lost_in start (history_of steps.now)
        → IfOk result (λ report. report ≡ report_of script.now start (history_of steps.now)) }
{
    let losses = by_host(lost)?;
    let answers = answers_of(alloc, script, steps)?;
    Ok(Report { answers, losses })
}

/// The output of a run as text: each reply, loss and fileset, as `script_output::text_of` says of its history. A
/// journal in which no run began gives nothing. `NoMemory` comes where memory runs out.
pub fn print_text(alloc: Global, script: &Script, journal: &Journal) -> Result<Items<u8>, NoMemory>
    ensures begun { (start : TreeOf) → journal.now.start ≡ start ∷ []
        → IfOk result (λ text. text ≡ printed script.now start (history_of journal.now.steps)) }
    ensures unbegun { journal.now.start ≡ [] → IfOk result (λ text. text ≡ []) }
{
    match journal.start.at(0) {
        Some(start) => text_from(alloc, script, start, journal.steps.as_slice()),
        None => Ok(Items::new(alloc)),
    }
}

fn text_from(
    alloc: Global,
    script: &Script,
    start: &Tree,
    steps: &[Step],
) -> Result<Items<u8>, NoMemory>
    ensures { IfOk result (λ text. text ≡ printed script.now start.now (history_of steps.now)) }
{
    let (lost, last) = followed(alloc, start, steps)?;
    let report = report_of(alloc, script, steps, &lost)?;
    text_of_report(alloc, &report, &last.filesets)
}

/// The output of a run as one line of JSON, as `script_output::json_of` says of its history. A journal in which no run
/// began gives nothing. `NoMemory` comes where memory runs out.
pub fn print_json(alloc: Global, script: &Script, journal: &Journal) -> Result<Items<u8>, NoMemory>
    ensures begun { (start : TreeOf) → journal.now.start ≡ start ∷ []
        → IfOk result (λ text. text ≡ printed_json script.now start (history_of journal.now.steps)) }
    ensures unbegun { journal.now.start ≡ [] → IfOk result (λ text. text ≡ []) }
{
    match journal.start.at(0) {
        Some(start) => json_from(alloc, script, start, journal.steps.as_slice()),
        None => Ok(Items::new(alloc)),
    }
}

fn json_from(
    alloc: Global,
    script: &Script,
    start: &Tree,
    steps: &[Step],
) -> Result<Items<u8>, NoMemory>
    ensures { IfOk result (λ text. text ≡ printed_json script.now start.now (history_of steps.now)) }
{
    let (lost, last) = followed(alloc, start, steps)?;
    let report = report_of(alloc, script, steps, &lost)?;
    json_of_report(alloc, &report, &last.filesets)
}
