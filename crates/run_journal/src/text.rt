//! The text of a journal.
ghost use Rattle.std.specs.Prelude.{◌≡◌, ◌≤◌, ◌++◌, ◌∷◌, [], flat_map, IfOk, OnOk, IsErrOf};
ghost use Rattle.base_types.specs.Faults.{RoseBy};
ghost use Rattle.base_io.specs.Whole.{IsAppendedInPart};
ghost use Rattle.json.specs.Print.{print};
ghost use Rattle.json.specs.Tree.{json_tokens};
ghost use Rattle.run_journal.specs.Text.{head_json, journal_text, line_text, step_text};

use crate::line::{ToLine, put_field};
use base_io::write_all;
use base_types::{Items, NoMemory, Sink};
use message_json::Line;
use run_rules::{Journal, Step};
use std::alloc::Global;
use thiserror::Error;

/// Why a journal wasn't written.
#[derive(Clone, Copy, Debug, PartialEq, Eq, Error)]
pub enum NotWritten {
    /// The sink failed.
    #[error("the sink failed")]
    Failed,
    /// Memory ran out.
    #[error("memory ran out")]
    Memory,
}

/// Writes a journal as `print_journal` gives it. Where the sink failed, it got a part of the text, from its front;
/// where memory ran out, it got nothing.
pub fn write_journal<K: Sink>(
    alloc: Global,
    journal: &Journal,
    sink: &mut K,
) -> Result<(), NotWritten>
    ensures written { K.tells → OnOk result (K.got sink.new ≡ K.got sink.old ++ journal_text journal.now) }
    ensures part { K.tells → IsErrOf result NotWritten.Failed
        → IsAppendedInPart (K.got sink.old) (journal_text journal.now) (K.got sink.new) }
    ensures silent { IsErrOf result NotWritten.Memory → sink.new ≡ sink.old }
    ensures counted { K.faults sink.old ≤ K.faults sink.new }
    ensures cause { IsErrOf result NotWritten.Failed → RoseBy 1 (K.faults sink.old) (K.faults sink.new) }
{
    let Ok(text) = print_journal(alloc, journal) else {
        return Err(NotWritten::Memory);
    };
    match write_all(sink, text.as_slice()) {
        Ok(()) => Ok(()),
        Err(_) => Err(NotWritten::Failed),
    }
}

/// A journal as JSON Lines, each of which ends with a line feed.
///
/// First a line with `version`, which is 1, `start`, a list of the tree at the start with the roster in it, or of none,
/// and `epochs`. Then a line for each step, in order. `NoMemory` comes where memory runs out.
#[tactic(auto, unfolding(crate::specs::Text::journal_text))]
pub fn print_journal(alloc: Global, journal: &Journal) -> Result<Items<u8>, NoMemory>
    ensures { IfOk result (λ text. text ≡ journal_text journal.now) }
{
    let mut text = Items::new(alloc);
    push_head(&mut text, journal)?;
    push_steps(&mut text, journal.steps.as_slice())?;
    Ok(text)
}

#[tactic(auto, unfolding(crate::specs::Text::line_text))]
fn push_head(text: &mut Items<u8>, journal: &Journal) -> Result<(), NoMemory>
    ensures { OnOk result (text.new ≡ text.old ++ line_text (head_json journal.now)) }
{
    let mut line = Line::new(text.alloc());
    put_head(&mut line, journal)?;
    push_line(text, line)
}

#[tactic(auto, unfolding(crate::specs::Text::head_json))]
fn put_head(line: &mut Line, journal: &Journal) -> Result<(), NoMemory>
    ensures { OnOk result (line.new ≡ line.old ++ json_tokens (head_json journal.now)) }
{
    line.open()?;
    line.field("version", &1_u32)?;
    put_field(line, "start", &journal.start)?;
    line.field("epochs", &journal.epochs)?;
    line.close()
}

fn push_steps(text: &mut Items<u8>, steps: &[Step]) -> Result<(), NoMemory>
    ensures { OnOk result (text.new ≡ text.old ++ flat_map step_text steps.now) }
{
    for step in steps {
        push_step(text, step)?;
    }
    Ok(())
}

#[tactic(auto, unfolding(crate::specs::Text::line_text))]
fn push_step(text: &mut Items<u8>, step: &Step) -> Result<(), NoMemory>
    ensures { OnOk result (text.new ≡ text.old ++ step_text step.now) }
{
    let mut line = Line::new(text.alloc());
    step.put(&mut line)?;
    push_line(text, line)
}

// Adds a line, and ends it.
fn push_line(text: &mut Items<u8>, line: Line) -> Result<(), NoMemory>
    ensures { OnOk result (text.new ≡ text.old ++ print line ++ 10 ∷ []) }
{
    text.append(line.into_text())?;
    text.push(b'\n')
}
