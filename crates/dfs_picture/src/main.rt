//! Draws the journal of a run: `dfs_picture FILE > run.svg`. A file that is no journal is refused by line and cause.
#![tactic(auto)]

use run_events::{Run, read_run};
use run_picture::{Shown, picture_of};
use std::alloc::AllocError;
use std::process::ExitCode;
use std::rt::{Env, Files};
use std::{env, fs};

// Without `--to` so many steps are drawn.
const PAGE: u64 = 200;

const USAGE: &str = "usage: dfs_picture FILE [--from N] [--to M] [--host cN] [--file PATH]";

// The words are none of those above.
const NO_WORDS: u8 = 1;
// The file can't be read, is no journal, or has no such host.
const NO_JOURNAL: u8 = 2;
// Memory ran out.
const NO_MEMORY: u8 = 3;
// Standard output failed.
const NO_OUTPUT: u8 = 4;

fn main(rt: HostRuntime) -> ExitCode {
    match words(&rt) {
        Ok(words) => draw(&rt, words.as_slice()),
        Err(_) => ExitCode::from(NO_MEMORY),
    }
}

// The words after the program's name.
fn words(rt: &(impl Env + AllocGlobal)) -> Result<Vec<String>, AllocError> {
    let mut words = Vec::new(rt.alloc());
    if let Ok(args) = env::args(rt) {
        for word in args.skip(1) {
            words.push(word)?;
        }
    }
    Ok(words)
}

fn draw(rt: &(impl Files + Print + Eprint + AllocGlobal), words: &[String]) -> ExitCode {
    let Some((name, options)) = words.split_first() else {
        return tell_usage(rt);
    };
    let Some(shown) = shown_by(options) else {
        return tell_usage(rt);
    };
    match fs::read_to_string(rt, name.as_str()) {
        Ok(text) => read(rt, text.as_str(), shown),
        Err(error) => {
            let _ = eprintln!(rt; "{name}: {error}");
            ExitCode::from(NO_JOURNAL)
        }
    }
}

fn tell_usage(rt: &impl Eprint) -> ExitCode {
    let _ = eprintln!(rt; "{USAGE}");
    ExitCode::from(NO_WORDS)
}

fn read(rt: &(impl Print + Eprint + AllocGlobal), text: &str, shown: Shown<'_>) -> ExitCode {
    match read_run(rt.alloc(), text) {
        Ok(run) if has_host(&run, shown) => show(rt, &run, shown),
        Ok(_) => {
            let _ = eprintln!(rt; "refused: there is no such host");
            ExitCode::from(NO_JOURNAL)
        }
        Err(why) => {
            let _ = eprintln!(rt; "refused: {why}");
            ExitCode::from(NO_JOURNAL)
        }
    }
}

// Whether the host, where one is asked for, is in the run.
fn has_host(run: &Run, shown: Shown<'_>) -> bool {
    match shown.host {
        Some(host) => host <= run.hosts,
        None => true,
    }
}

fn show(rt: &(impl Print + AllocGlobal), run: &Run, shown: Shown<'_>) -> ExitCode {
    match picture_of(rt.alloc(), run, shown) {
        Ok(picture) => match print!(rt; "{picture}") {
            Ok(()) => ExitCode::SUCCESS,
            Err(_) => ExitCode::from(NO_OUTPUT),
        },
        Err(_) => ExitCode::from(NO_MEMORY),
    }
}

// What the options ask for: none where they are no options.
fn shown_by(options: &[String]) -> Option<Shown<'_>> {
    let mut shown = Shown {
        from: 1,
        to: 0,
        host: None,
        file: None,
    };
    for pair in options.chunks(2) {
        let [name, value] = pair else {
            return None;
        };
        match name.as_str() {
            "--from" => shown.from = number_of(value.as_str())?,
            "--to" => shown.to = number_of(value.as_str())?,
            "--host" => shown.host = Some(value.as_str().strip_prefix("c")?.parse().ok()?),
            "--file" => shown.file = Some(value.as_str()),
            _ => return None,
        }
    }
    if shown.to == 0 {
        shown.to = shown.from.saturating_add(PAGE - 1);
    }
    if shown.from <= shown.to {
        Some(shown)
    } else {
        None
    }
}

// The number of a step.
fn number_of(word: &str) -> Option<u64> {
    let number = word.parse().ok()?;
    if number == 0 { None } else { Some(number) }
}
