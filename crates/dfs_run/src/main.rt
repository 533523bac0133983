//! The file service as a program: it reads a script from standard input, runs it over disks, which are files, and
//! writes what came of it to standard output; or it checks disks. The words are those of the top call,
//! `service_run::run`, whose status is the number with which the program ends. Where a file can't be opened, or a call
//! of it failed, its name and the system's reason go to standard error.
//!
//! Under `run --journal FILE ..` the journal of the run goes to FILE, once the disks are closed, as
//! `tell_journal` says, whose code is the number with which the program ends.
#![tactic(auto)]

mod asked;
mod journal;
mod lines;
mod streams;

ghost use Rattle.std.specs.Prelude.{◌≡◌, length, map, None, false, IfOk};
ghost use Rattle.std.specs.String.{string_bytes};
ghost use Rattle.script_commands.specs.Command.{disk_names};
ghost use Rattle.service_run.specs.Checks.{AreNamed};
ghost use Rattle.service_run.specs.Outcomes.{code_of, has_run};

use crate::asked::take_journal;
use crate::journal::{Ended, has_run, refuse_course, refuse_file, tell_journal};
use crate::streams::Streams;
use base_io::{StdSink, StdSource};
use base_types::{NoMemory, Sink};
use disk_device::{FileDisk, FileFault};
use script_commands::disk_names;
use service_run::{Course, OpenGate, Outcome, Status, refuse_disk, run};
use std::alloc::{AllocError, Global};
use std::fs::File;
use std::io::ErrorKind;
use std::process::ExitCode;
use std::rt::{Env, Files};
use std::{env, mem};

// Why there are no disks.
#[derive(Clone, Copy)]
enum NotOpened {
    // The file of the disk of this number, from 1, can't be opened.
    Refused(usize),
    // Memory ran out.
    Memory,
}

impl From<AllocError> for NotOpened {
    fn from(_: AllocError) -> Self {
        NotOpened::Memory
    }
}

fn main(rt: HostRuntime) -> ExitCode {
    let streams = Streams::hold(&rt, &rt.stdin(), &rt.stdout(), &rt.stderr());
    let mut source = StdSource::new(rt.stdin());
    let mut sink = StdSink::new(rt.stdout());
    let Ok(mut words) = words(&rt) else {
        return ExitCode::from(Status::NoMemory.code());
    };
    let journal = take_journal(&mut words);
    let Ok(names) = names_in(rt.alloc(), words.as_slice()) else {
        return ExitCode::from(Status::NoMemory.code());
    };
    let code = match opened(&rt, names.as_slice(), is_check(words.as_slice()), &streams) {
        Ok(mut disks) => {
            let outcome = run(
                &rt,
                rt.alloc(),
                words.as_slice(),
                &mut source,
                &mut sink,
                &mut disks,
                &OpenGate,
            );
            tell_faults(&rt, names.as_slice(), disks.as_slice());
            drop(disks);
            finish(&rt, outcome, journal, &mut sink)
        }
        Err(NotOpened::Refused(number)) => code_of(refuse_disk(rt.alloc(), number, &mut sink)),
        Err(NotOpened::Memory) => Status::NoMemory.code(),
    };
    ExitCode::from(code)
}

// The number with which the program ends. What the outcome holds isn't taken apart: the system takes all memory at
// once.
fn code_of(outcome: Outcome) -> u8
    ensures { result ≡ code_of outcome.status }
{
    let code = outcome.status.code();
    mem::forget(outcome);
    code
}

// The number with which the program ends. Of a run that came to its end the journal is written to the file of this
// name, if one is asked for.
fn finish<K: Sink>(
    rt: &(impl Files<File = File> + Eprint + AllocGlobal),
    outcome: Outcome,
    journal: Option<String>,
    sink: &mut K,
) -> u8
    ensures unasked { journal ≡ None → result ≡ code_of outcome.status }
    ensures stopped { has_run outcome.status ≡ false → result ≡ code_of outcome.status }
{
    let Some(name) = journal else {
        return code_of(outcome);
    };
    if !has_run(outcome.status) {
        return code_of(outcome);
    }
    let ended = journaled(rt, &outcome, name.as_str(), sink);
    mem::forget(outcome);
    ended.code()
}

// Writes the journal of a run to a new file of this name: one that is there already may be a disk. Why it can't be
// made goes to standard error.
fn journaled<K: Sink>(
    rt: &(impl Files<File = File> + Eprint + AllocGlobal),
    outcome: &Outcome,
    name: &str,
    sink: &mut K,
) -> Ended {
    let Course::Hosted(journal) = &outcome.course else {
        return refuse_course(sink);
    };
    match File::create_new(rt, name) {
        Ok(file) => {
            let mut file = StdSink::new(file);
            tell_journal(rt.alloc(), outcome.status, journal, &mut file, sink)
        }
        Err(error) => {
            tell(rt, name, FileFault::from(error));
            refuse_file(sink)
        }
    }
}

// The words after the program's name. Where one isn't UTF-8 there are none, which are in no grammar.
fn words(rt: &(impl Env + AllocGlobal)) -> Result<Vec<String>, AllocError> {
    let mut words = Vec::new(rt.alloc());
    match env::args(rt) {
        Ok(args) => {
            for word in args.skip(1) {
                words.push(word)?;
            }
        }
        Err(error) => {
            if error.kind() == ErrorKind::OutOfMemory {
                return Err(AllocError);
            }
        }
    }
    Ok(words)
}

// The names of the disks in these words.
fn names_in(alloc: Global, words: &[String]) -> Result<Vec<String>, NoMemory>
    ensures { IfOk result (λ names. AreNamed (disk_names (map string_bytes words.now)) (length names.items)) }
{
    match disk_names(alloc, words)? {
        Some(names) => Ok(names),
        None => Ok(Vec::new(alloc)),
    }
}

// Whether the words ask for a check, which reads disks and makes none.
fn is_check(words: &[String]) -> bool {
    words.first().is_some_and(|word| word.as_str() == "check")
}

// Opens the disks of these names. A file that isn't there is made, empty, but for a check. Why one isn't opened goes to
// standard error.
fn opened(
    rt: &(impl Files<File = File> + Eprint + AllocGlobal),
    names: &[String],
    is_check: bool,
    streams: &Result<Streams, FileFault>,
) -> Result<Vec<FileDisk>, NotOpened>
    ensures { IfOk result (λ disks. length disks.items ≡ length names.now) }
{
    let mut disks = Vec::new(rt.alloc());
    for (k, name) in names.iter().enumerate() {
        match disk_at(rt, name.as_str(), is_check, streams) {
            Ok(disk) => disks.push(disk).map_err(AllocError::from)?,
            Err(FileFault::Memory) => return Err(NotOpened::Memory),
            Err(fault) => {
                tell(rt, name.as_str(), fault);
                return Err(NotOpened::Refused(k + 1));
            }
        }
    }
    Ok(disks)
}

// Opens the disk of a name, once the standard streams have their descriptors.
fn disk_at(
    rt: &impl Files<File = File>,
    name: &str,
    is_check: bool,
    streams: &Result<Streams, FileFault>,
) -> Result<FileDisk, FileFault> {
    match streams {
        Ok(_) if is_check => FileDisk::open_to_read(rt, name),
        Ok(_) => FileDisk::open_or_make(rt, name),
        Err(fault) => Err(*fault),
    }
}

// Writes why the last call of a disk failed, of each where it did.
fn tell_faults(rt: &impl Eprint, names: &[String], disks: &[FileDisk]) {
    for (name, disk) in names.iter().zip(disks.iter()) {
        if let Some(fault) = disk.fault() {
            tell(rt, name.as_str(), fault);
        }
    }
}

// Writes the name of a file and why it fails to standard error. Where that fails too, nothing is told.
fn tell(rt: &impl Eprint, name: &str, fault: FileFault) {
    let _ = eprintln!(rt; "{name}: {fault}");
}
