ghost use Rattle.std.specs.Prelude.{◌≡◌, ◌≤◌, length, None, IfOk, OnOk};
ghost use Rattle.script_words.specs.Lines.{lines_of};
ghost use Rattle.std.specs.Prelude.{Result};
ghost use Rattle.script_lines.specs.declared.context.Context.{Context as ContextOf};
ghost use Rattle.script_reader.specs.declared.refused.ScriptRefused.{ScriptRefused as ScriptRefusedOf};
ghost use Rattle.script_lines.specs.Judge.{nothing_said};
ghost use Rattle.script_lines.specs.Sound.{IsSound};
ghost use Rattle.script_reader.specs.Walk.{stuck_at};
ghost use Rattle.base_types.specs.declared.limits.TheConstants.{SCRIPT_LINES_MAX};
ghost use Rattle.script_reader.specs.Scripts.{
  Reads,
  Leaves,
  next_judged,
  judged_from,
  limited,
  ended_by,
  script_before_walk,
  script_of,
};

use crate::refused::ScriptRefused;
use crate::walk::stuck_at;
use base_types::SCRIPT_LINES_MAX;
use script_lines::{Context, Script};
use script_words::{BadWhy, Fault, next_line};
use std::alloc::Global;

// The number of the first line that is too many.
const LINE_TOO_MANY: u32 = SCRIPT_LINES_MAX as u32 + 1;

// What all lines say, or the first that is refused.
fn judge(alloc: Global, bytes: &[u8], disks: u32) -> Result<Context, ScriptRefused>
    ensures { Reads result (judged_from nothing_said disks 1 (lines_of bytes.now)) }
{
    let mut context = Context::new(alloc);
    take_all(&mut context, alloc, bytes, disks)?;
    Ok(context)
}

// Takes all lines, from the first on.
#[tactic(auto, unfolding(script_words::specs::Lines::lines_of))]
fn take_all(
    context: &mut Context,
    alloc: Global,
    bytes: &[u8],
    disks: u32,
) -> Result<(), ScriptRefused>
    ensures { Leaves result context.new (judged_from context.old disks 1 (lines_of bytes.now)) }
{
    let mut rest = bytes;
    let mut number = 1;
    while !rest.is_empty() {
        let (line, after) = next_line(rest);
        if number >= LINE_TOO_MANY {
            return Err(ScriptRefused::BadLine(LINE_TOO_MANY, BadWhy::Lines));
        }
        take_next(context, disks, number, line, after, alloc)?;
        rest = after;
        number += 1;
    }
    Ok(())
}

// Takes a line, and at the last header the names of the clones after it.
#[tactic(auto, unfolding(crate::specs::Scripts::next_judged))]
fn take_next(
    context: &mut Context,
    disks: u32,
    number: u32,
    line: &[u8],
    after: &[u8],
    alloc: Global,
) -> Result<(), ScriptRefused>
    ensures { Leaves result context.new (next_judged context.old disks number line.now (lines_of after.now)) }
{
    let begun = context.begun;
    match context.take_line(alloc, disks, number, line) {
        Ok(()) => (),
        Err(Fault::Bad(why)) => return Err(ScriptRefused::BadLine(number, why)),
        Err(Fault::Memory) => return Err(ScriptRefused::Memory),
    }
    if context.begun && !begun {
        context.place_clones(alloc, after)?;
    }
    Ok(())
}

// How many lines there are.
#[tactic(auto, unfolding(script_words::specs::Lines::lines_of))]
fn count_lines(bytes: &[u8]) -> usize
    ensures { result ≡ length (lines_of bytes.now) }
{
    let mut rest = bytes;
    let mut count = 0;
    while !rest.is_empty() {
        let (_, after) = next_line(rest);
        rest = after;
        count += 1;
    }
    count
}

// Too many lines come before all other causes but too many disks.
fn limited(lines: usize, judged: Result<Context, ScriptRefused>) -> Result<Context, ScriptRefused>
    ensures value { (read : Result ContextOf ScriptRefusedOf) → Reads judged read → Reads result (limited lines read) }
    ensures few { OnOk result (lines ≤ SCRIPT_LINES_MAX) }
{
    if lines <= SCRIPT_LINES_MAX {
        return judged;
    }
    match judged {
        Err(ScriptRefused::BadLine(number, BadWhy::Disks)) => {
            Err(ScriptRefused::BadLine(number, BadWhy::Disks))
        }
        Err(ScriptRefused::Memory) => Err(ScriptRefused::Memory),
        _ => Err(ScriptRefused::BadLine(LINE_TOO_MANY, BadWhy::Lines)),
    }
}

// The script of these bytes, but for the walk along its awaits.
#[tactic(auto, unfolding(crate::specs::Scripts::script_before_walk))]
fn read_lines(alloc: Global, bytes: &[u8], disks: u32) -> Result<Script, ScriptRefused>
    ensures { Reads result (script_before_walk bytes.now disks) }
{
    let lines = count_lines(bytes);
    let context = limited(lines, judge(alloc, bytes, disks))?;
    if !context.begun {
        return Err(ScriptRefused::BadLine(lines as u32 + 1, BadWhy::Order));
    }
    Ok(context.script)
}

/// The script that these bytes say, for a service with so many disks, or why they are refused: exactly what `script_of`
/// says, unless memory ran out.
///
/// The first refused line decides. In it faults of line length, bytes and quotes come first, then the words from left
/// to right, then too few or too many words. More than `SCRIPT_LINES_MAX` lines come before all causes but `Disks`.
/// Rules about the whole script come last: `begin` missing, and then lines that wait for one another (`Stuck`).
///
/// What is read keeps the limits of the service (`IsSound`), and its lines don't wait for one another.
#[tactic(auto, unfolding(crate::specs::Scripts::script_of))]
pub fn read_script(alloc: Global, bytes: &[u8], disks: u32) -> Result<Script, ScriptRefused>
    ensures value { Reads result (script_of bytes.now disks) }
    ensures sound { IfOk result (λ script. IsSound script) }
    ensures goes { IfOk result (λ script. stuck_at script.lines ≡ None) }
{
    let script = read_lines(alloc, bytes, disks)?;
    match stuck_at(alloc, &script.lines)? {
        Some(number) => Err(ScriptRefused::Stuck(number)),
        None => Ok(script),
    }
}
