ghost use Rattle.std.specs.Prelude.{◌≡◌, ◌≤◌, true, ◌∷◌, map, option_map, IfOk, IfSome};
ghost use Rattle.std.specs.List.{list_all};
ghost use Rattle.std.specs.String.{string_bytes};
ghost use Rattle.script_words.specs.Outcome.{Gives};
ghost use Rattle.script_commands.specs.Plain.{are_plain};
ghost use Rattle.script_commands.specs.Command.{IsWithin, workers_of, run_of, gen_of, check_of};
ghost use Rattle.script_commands.specs.Command.{read, command_of, disk_names};
ghost use Rattle.script_commands.specs.Disks.{is_disk_name, disks_at};
ghost use Rattle.script_commands.specs.declared.command.TheConstants.{DISKS_MAX};

use crate::parts::{Parts, names_of, parts_of};
use crate::plain::are_plain;
use base_types::{HOSTS_MAX, NoMemory, WORKERS_MAX};
use script_generator::CALLS_MAX;
use script_words::{BadWhy, Fault, Words, end_at, is_word, number_at, small_at};
use std::alloc::Global;

/// Disks that a command can name.
pub const DISKS_MAX: usize = 4;

/// What the words ask for.
#[derive(Clone, Copy)]
pub enum Command {
    /// To run a script.
    Play(Play),
    /// To check disks.
    Check {
        /// How many workers check them.
        workers: u32,
    },
}

/// Which script is run, and how.
#[derive(Clone, Copy)]
pub enum Play {
    /// The one that is read.
    Run {
        /// Whether the output is one line of JSON.
        json: bool,
        /// How many workers run the nodes.
        workers: u32,
        /// How many disks the words name.
        disks: u32,
    },
    /// The generated workload.
    Gen {
        /// What it follows from.
        seed: u64,
        /// Its hosts.
        hosts: u8,
        /// The calls of each host.
        calls: u32,
        /// How many workers run the nodes.
        workers: u32,
    },
}

#[tactic(auto, unfolding(crate::specs::Command::workers_of), using(crate::proofs::Limits::number_least))]
fn workers_of(workers: &Words) -> Result<u32, Fault>
    ensures value { Gives result (workers_of workers.now) }
    ensures within { IfOk result (λ number. (1 ≤ number) × (number ≤ WORKERS_MAX)) }
{
    if workers.is_empty() {
        return Ok(1);
    }
    end_at(workers, 1)?;
    small_at(workers, 0, 1, WORKERS_MAX)
}

#[tactic(auto, unfolding(crate::specs::Command::run_of))]
fn run_of(parts: &Parts) -> Result<Command, Fault>
    ensures value { Gives result (run_of parts.now) }
    ensures within { IfOk result IsWithin }
{
    end_at(&parts.json, 1)?;
    let disks = disks_at(&parts.others, 0)?;
    Ok(Command::Play(Play::Run {
        json: !parts.json.is_empty(),
        workers: workers_of(&parts.workers)?,
        disks,
    }))
}

#[tactic(auto, unfolding(crate::specs::Command::gen_of), using(crate::proofs::Limits::number_least))]
fn gen_of(parts: &Parts) -> Result<Command, Fault>
    ensures value { Gives result (gen_of parts.now) }
    ensures within { IfOk result IsWithin }
{
    end_at(&parts.json, 0)?;
    end_at(&parts.others, 3)?;
    Ok(Command::Play(Play::Gen {
        seed: number_at(&parts.others, 0, 0, u64::MAX)?,
        hosts: small_at(&parts.others, 1, 1, HOSTS_MAX as u32)? as u8,
        calls: small_at(&parts.others, 2, 1, CALLS_MAX)?,
        workers: workers_of(&parts.workers)?,
    }))
}

fn is_disk_name(word: &[u8]) -> bool
    ensures { result ≡ is_disk_name word.now }
{
    matches!(word, [first, ..] if *first != b'-')
}

fn are_disk_names(words: &Words) -> bool
    ensures { result ≡ list_all is_disk_name words.now }
{
    words
        .as_slice()
        .iter()
        .all(|word| is_disk_name(word.as_slice()))
}

// How many names of disks these are; refuses words that aren't `least` to `DISKS_MAX` of them.
#[tactic(auto, unfolding(crate::specs::Disks::disks_at))]
fn disks_at(words: &Words, least: usize) -> Result<u32, Fault>
    ensures value { Gives result (disks_at least words.now) }
    ensures few { IfOk result (λ count. count ≤ DISKS_MAX) }
{
    if least <= words.len() && words.len() <= DISKS_MAX && are_disk_names(words) {
        Ok(words.len() as u32)
    } else {
        Err(Fault::Bad(BadWhy::Word))
    }
}

#[tactic(auto, unfolding(crate::specs::Command::check_of))]
fn check_of(parts: &Parts) -> Result<Command, Fault>
    ensures value { Gives result (check_of parts.now) }
    ensures within { IfOk result IsWithin }
{
    end_at(&parts.json, 0)?;
    disks_at(&parts.others, 1)?;
    Ok(Command::Check {
        workers: workers_of(&parts.workers)?,
    })
}

#[tactic(auto, unfolding(crate::specs::Command::read))]
fn read(alloc: Global, first: &[u8], words: &[String]) -> Result<Command, Fault>
    requires { are_plain (map string_bytes words.now) ≡ true }
    ensures value { Gives result (read (first.now ∷ map string_bytes words.now)) }
    ensures within { IfOk result IsWithin }
{
    if is_word(first, b"run") {
        run_of(&parts_of(alloc, words)?)
    } else if is_word(first, b"gen") {
        gen_of(&parts_of(alloc, words)?)
    } else if is_word(first, b"check") {
        check_of(&parts_of(alloc, words)?)
    } else {
        Err(Fault::Bad(BadWhy::Word))
    }
}

/// The command that words ask for, the program's name left out; none where they aren't in this grammar:
///
/// - `run DISK ..`, with at most `DISKS_MAX` names of disks, and anywhere after `run` at most one `--json` and at most
///   one `--workers N` or `--workers=N`. A name of a disk isn't empty and begins with no dash;
/// - `gen SEED HOSTS CALLS`, with at most one `--workers` as above anywhere after `gen`;
/// - `check DISK ..`, with 1 to `DISKS_MAX` names of disks, and `--workers` as above.
///
/// Numbers are decimal digits without zeros at the front. N is 1 to `WORKERS_MAX`, and 1 where it isn't said; SEED fits
/// 64 bits; HOSTS is 1 to `HOSTS_MAX` and CALLS 1 to `CALLS_MAX`. The grammar is this project's own.
#[tactic(auto, unfolding(crate::specs::Command::read), using(crate::proofs::Refused::not_plain))]
pub fn command_of(alloc: Global, words: &[String]) -> Result<Option<Command>, NoMemory>
    ensures value { IfOk result (λ command. command ≡ command_of (map string_bytes words.now)) }
    ensures within { IfOk result (λ command. IfSome command IsWithin) }
{
    let Some((first, rest)) = words.split_first() else {
        return Ok(None);
    };
    if !are_plain(rest) {
        return Ok(None);
    }
    match read(alloc, first.as_bytes(), rest) {
        Ok(command) => Ok(Some(command)),
        Err(Fault::Bad(_)) => Ok(None),
        Err(Fault::Memory) => Err(NoMemory),
    }
}

/// The names of the disks that words name, in their order; none where the words aren't in the grammar of `command_of`.
/// For `gen` these are no names.
#[tactic(auto, unfolding(crate::specs::Command::read), using(crate::proofs::Refused::not_plain))]
pub fn disk_names(alloc: Global, words: &[String]) -> Result<Option<Vec<String>>, NoMemory>
    ensures { IfOk result (λ names. option_map (λ names. map string_bytes names.items) names
        ≡ disk_names (map string_bytes words.now)) }
{
    let Some((first, rest)) = words.split_first() else {
        return Ok(None);
    };
    if !are_plain(rest) {
        return Ok(None);
    }
    match read(alloc, first.as_bytes(), rest) {
        Ok(Command::Check { .. }) | Ok(Command::Play(Play::Run { .. })) => {
            Ok(Some(names_of(alloc, rest)?))
        }
        Ok(Command::Play(Play::Gen { .. })) => Ok(Some(Vec::new(alloc))),
        Err(Fault::Bad(_)) => Ok(None),
        Err(Fault::Memory) => Err(NoMemory),
    }
}
