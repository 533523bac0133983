//! The text of a journal, read.

ghost use Rattle.std.specs.Prelude.{◌≤◌, IfErr};

use crate::reader::Reader;
use crate::refused::{Refused, Why};
use crate::run::Run;
use serde_json::{Error, Value};
use std::alloc::Global;

/// Reads the text of a journal: a line of JSON with the version, the tree at the start and the epochs, and then a line for
/// each step. It is refused at the first line that is none of a journal, or for which memory ran out.
pub fn read_run(alloc: Global, text: &str) -> Result<Run, Refused>
    ensures line { IfErr result (λ refused. 1 ≤ refused.line) }
{
    let mut reader = match read_head(alloc, text.lines().next().unwrap_or("")) {
        Ok(reader) => reader,
        Err(why) => return Err(Refused { line: 1, why }),
    };
    for (place, line) in text.lines().enumerate().skip(1) {
        if let Err(why) = read_step(alloc, &mut reader, line) {
            let line = (place as u64).saturating_add(1);
            return Err(Refused { line, why });
        }
    }
    Ok(reader.into_run())
}

fn read_head(alloc: Global, line: &str) -> Result<Reader, Why> {
    let head = Value::from_str(alloc, line).map_err(why_not)?;
    Reader::of_head(alloc, &head)
}

fn read_step(alloc: Global, reader: &mut Reader, line: &str) -> Result<(), Why> {
    let step = Value::from_str(alloc, line).map_err(why_not)?;
    reader.add_step(alloc, &step)
}

fn why_not(error: Error) -> Why {
    if error.is_memory() {
        Why::Memory
    } else {
        Why::Json
    }
}
