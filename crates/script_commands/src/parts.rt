ghost use Rattle.std.specs.Prelude.{◌≡◌, map, true, false, IfOk};
ghost use Rattle.std.specs.String.{string_bytes};
ghost use Rattle.clap.specs.Matches.{found_of};
ghost use Rattle.clap.specs.Simple.{app_of};
ghost use Rattle.clap.specs.Walk.{rows_of, rule_of};
ghost use Rattle.script_commands.specs.Parts.{parts_of};
ghost use Rattle.script_commands.specs.Plain.{are_plain};
ghost use Rattle.script_commands.specs.Told.{json_rule, workers_rule, others_rule, told, values_at, parts_in};

use base_types::{Items, NoMemory};
use clap::error::ErrorKind;
use clap::{Arg, ArgAction, ArgMatches, Command};
use script_words::Words;
use std::alloc::Global;

/// The words after the first one, told apart.
#[derive(Drop)]
pub(crate) struct Parts {
    /// Each `--json`.
    pub(crate) json: Words,
    /// What each `--workers` says.
    pub(crate) workers: Words,
    /// The words that are no options.
    pub(crate) others: Words,
}

// A `--json` has no value, so each of them counts as its own text.
fn json<'a>(alloc: Global) -> Arg<'a>
    ensures rule { rule_of result ≡ json_rule }
    ensures here { result.global ≡ false }
{
    Arg::new(alloc, "json")
        .long("json")
        .action(ArgAction::Append)
        .num_args(0usize)
        .default_missing_value("--json")
}

fn workers<'a>(alloc: Global) -> Arg<'a>
    ensures rule { rule_of result ≡ workers_rule }
    ensures here { result.global ≡ false }
{
    Arg::new(alloc, "workers")
        .long("workers")
        .action(ArgAction::Append)
}

fn others<'a>(alloc: Global) -> Arg<'a>
    ensures rule { rule_of result ≡ others_rule }
    ensures here { result.global ≡ false }
{
    Arg::new(alloc, "others").action(ArgAction::Append)
}

// What `clap` is told of the words.
fn told<'a>(alloc: Global) -> Result<Command<'a>, NoMemory>
    ensures { IfOk result (λ command. app_of command ≡ told) }
{
    let command = Command::new(alloc, "dfs_run")
        .no_binary_name(true)
        .disable_help_flag(true);
    let command = command.arg(json(alloc))?;
    let command = command.arg(workers(alloc))?;
    Ok(command.arg(others(alloc))?)
}

// The values of an argument, of all its uses.
fn texts_of(alloc: Global, matches: &ArgMatches, id: &str) -> Result<Words, NoMemory>
    ensures { IfOk result (λ texts. texts ≡ values_at id.now (rows_of (found_of matches.now))) }
{
    let mut texts = Items::new(alloc);
    let Some(values) = matches.get_raw(id) else {
        return Ok(texts);
    };
    for value in values {
        texts.push(Items::from_slice(alloc, value.as_bytes())?)?;
    }
    Ok(texts)
}

// What `clap` finds in these words.
fn matches_of<'a>(alloc: Global, words: &'a [String]) -> Result<ArgMatches<'a>, NoMemory>
    requires { are_plain (map string_bytes words.now) ≡ true }
    ensures { IfOk result (λ matches. parts_in (rows_of (found_of matches)) ≡ parts_of (map string_bytes words.now)) }
{
    match told(alloc)?.try_get_matches_from(words) {
        Ok(matches) => Ok(matches),
        Err(error) => match error.kind() {
            ErrorKind::OutOfMemory => Err(NoMemory),
            _ => unreachable!(),
        },
    }
}

/// The parts of these words, as `clap` tells them apart.
pub(crate) fn parts_of(alloc: Global, words: &[String]) -> Result<Parts, NoMemory>
    requires { are_plain (map string_bytes words.now) ≡ true }
    ensures { IfOk result (λ parts. parts ≡ parts_of (map string_bytes words.now)) }
{
    let matches = matches_of(alloc, words)?;
    Ok(Parts {
        json: texts_of(alloc, &matches, "json")?,
        workers: texts_of(alloc, &matches, "workers")?,
        others: texts_of(alloc, &matches, "others")?,
    })
}

/// The words that are no options.
pub(crate) fn names_of(alloc: Global, words: &[String]) -> Result<Vec<String>, NoMemory>
    requires { are_plain (map string_bytes words.now) ≡ true }
    ensures { IfOk result (λ names. map string_bytes names.items ≡ (parts_of (map string_bytes words.now)).others) }
{
    let matches = matches_of(alloc, words)?;
    let mut names = Vec::new(alloc);
    let Some(values) = matches.get_raw("others") else {
        return Ok(names);
    };
    for value in values {
        names.push(String::from_str(alloc, value)?)?;
    }
    Ok(names)
}
