//! What a server's machine makes of messages, and what its store keeps then, by example. Standard input is a table:
//! each row is a message or a question, and behind ` = ` stands what is wanted from the rows so far. Every row that
//! gets something else is printed, and at the end the number of rows.
#![tactic(auto)]

ghost use Rattle.std.specs.Prelude.{OnOk};
ghost use Rattle.server_exporter_tests.specs.Serving.{Works};

mod machine;
mod sound;
mod starting;
mod stepping;
mod storing;
mod wording;

use anyhow::Result;
use machine::{Machine, told};

// Judges one line: a comment or a row. Answers whether it was a row, and prints one that doesn't get what is wanted.
fn judge(rt: &(impl Print + AllocGlobal), machine: &mut Machine, line: &str) -> Result<bool>
    requires { Works machine.old }
    ensures { OnOk result (Works machine.new) }
{
    let line = line.trim();
    if line.is_empty() || line.starts_with("#") {
        return Ok(false);
    }
    let (row, wanted) = line.split_once(" =").unwrap_or((line, ""));
    let told = told(rt.alloc(), machine, row.trim())?;
    if told.as_str().trim() != wanted.trim() {
        println!(rt; "{row}: {told}, and not {wanted}")?;
    }
    Ok(true)
}

// Judges each line of standard input, and answers how many rows there were.
fn judge_all(rt: &(impl Input + Print + AllocGlobal), machine: &mut Machine) -> Result<u64>
    requires { Works machine.old }
{
    let mut rows = 0u64;
    for line in rt.lines(rt.alloc()) {
        if judge(rt, machine, line?.as_str())? {
            rows = rows.saturating_add(1);
        }
    }
    Ok(rows)
}

fn main(rt: HostRuntime) -> Result<()> {
    let mut machine = Machine::new(rt.alloc())?;
    let judged = judge_all(&rt, &mut machine);
    drop(machine);
    println!(rt; "{} rows", judged?)?;
    Ok(())
}
