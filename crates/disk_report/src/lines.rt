// The lines in which reports are printed.
ghost use Rattle.std.specs.Prelude.{◌≡◌, ◌++◌, codes, decimal, flat_map, IfOk, OnOk};
ghost use Rattle.disk_report.specs.Text.{fault_line, disk_lines, report_text, failed_line};

use crate::report::Report;
use base_types::{Items, NoMemory};
use disk_image::Fault;
use itoa::Buffer;
use std::alloc::Global;

fn push_disk(text: &mut Items<u8>, number: usize) -> Result<(), NoMemory>
    ensures { OnOk result (text.new ≡ text.old ++ codes "disk " ++ decimal number) }
{
    text.extend(b"disk ")?;
    text.extend(Buffer::new().format(number).as_bytes())
}

#[tactic(auto, unfolding(crate::specs::Text::fault_line))]
fn push_fault(text: &mut Items<u8>, number: usize, fault: Fault) -> Result<(), NoMemory>
    ensures { OnOk result (text.new ≡ text.old ++ fault_line number fault) }
{
    push_disk(text, number)?;
    text.push(b' ')?;
    text.extend(Buffer::new().format(fault.place).as_bytes())?;
    text.extend(b" rule ")?;
    text.extend(Buffer::new().format(fault.rule.number()).as_bytes())?;
    text.push(b'\n')
}

fn push_faults(text: &mut Items<u8>, number: usize, faults: &[Fault]) -> Result<(), NoMemory>
    ensures { OnOk result (text.new ≡ text.old ++ flat_map (fault_line number) faults.now) }
{
    for fault in faults {
        push_fault(text, number, *fault)?;
    }
    Ok(())
}

// A disk that is blank, or has no faults.
fn push_word(text: &mut Items<u8>, number: usize, word: &[u8]) -> Result<(), NoMemory>
    ensures { OnOk result (text.new ≡ text.old ++ codes "disk " ++ decimal number ++ word.now ++ codes "\n") }
{
    push_disk(text, number)?;
    text.extend(word)?;
    text.push(b'\n')
}

#[tactic(auto, unfolding(crate::specs::Text::disk_lines))]
fn push_report(text: &mut Items<u8>, number: usize, report: &Report) -> Result<(), NoMemory>
    ensures { OnOk result (text.new ≡ text.old ++ disk_lines number report.now) }
{
    match report {
        Report::Blank => push_word(text, number, b" blank"),
        Report::Faults(faults) if faults.is_empty() => push_word(text, number, b" ok"),
        Report::Faults(faults) => push_faults(text, number, faults.as_slice()),
    }
}

/// What is printed of the reports of all disks, which are numbered from 1: for each disk `disk K blank`, `disk K ok`
/// where it has no faults, or `disk K PLACE rule N` for each fault; and then `end`.
#[tactic(auto, unfolding(crate::specs::Text::report_text))]
pub fn report_text(alloc: Global, reports: &[Report]) -> Result<Items<u8>, NoMemory>
    ensures { IfOk result (λ text. text ≡ report_text reports.now) }
{
    let mut text = Items::new(alloc);
    for (k, report) in reports.iter().enumerate() {
        push_report(&mut text, k + 1, report)?;
    }
    text.extend(b"end\n")?;
    Ok(text)
}

/// What is printed where disk K, from 1, fails.
#[tactic(auto, unfolding(crate::specs::Text::failed_line))]
pub fn failed_line(alloc: Global, number: usize) -> Result<Items<u8>, NoMemory>
    ensures { IfOk result (λ line. line ≡ failed_line number) }
{
    let mut line = Items::new(alloc);
    line.extend(b"refused: disk ")?;
    line.extend(Buffer::new().format(number).as_bytes())?;
    line.extend(b" failed\n")?;
    Ok(line)
}
