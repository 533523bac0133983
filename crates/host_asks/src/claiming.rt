//! What a host claims from a server that has restarted.
ghost use Rattle.std.specs.Prelude.{◌≡◌, ◌++◌, filter, map, IfOk, OnOk};
ghost use Rattle.host_asks.specs.Claiming.{changed_number, claimed_tokens, claiming, filesets_of, given_number};
ghost use Rattle.host_asks.specs.Claiming.{is_before, number_at, outstanding_at};
ghost use Rattle.host_tables.specs.Tables.{held_of};

use base_types::{FilesetId, Items, NoMemory, ServerId};
use host_gives::Leaving;
use host_leaves::{push_once, say};
use host_tables::{Draft, Request, Tables};
use message_types::{Body, Change, Outstanding, Reclaim};
use std::alloc::Global;
use token_types::Token;

/// Claims the tokens that a server granted in earlier epochs, and that the host holds or has in give-backs that aren't
/// known as applied. The only error is that memory ran out.
pub fn claim(tables: &Tables, draft: &mut Draft, server: ServerId) -> Result<(), NoMemory>
    ensures { OnOk result (draft.new ≡ claiming tables.now draft.old server) }
{
    let tokens = claimed_tokens(tables, server)?;
    let filesets = filesets_of(tables, tokens.as_slice())?;
    let numbers = numbers_of(tables, filesets.as_slice())?;
    say(
        tables,
        draft,
        server,
        Body::Reclaim(Reclaim { tokens, numbers }),
    )
}

fn claimed_tokens(tables: &Tables, server: ServerId) -> Result<Items<Token>, NoMemory>
    ensures { IfOk result (λ tokens. tokens ≡ claimed_tokens tables.now server) }
{
    let owned = owned_tokens(tables)?;
    let epoch = tables.site(server).epoch;
    claimed_of(tables.alloc, owned.as_slice(), server, epoch)
}

// The tokens that are held, and those in give-backs that aren't known as applied.
fn owned_tokens(tables: &Tables) -> Result<Items<Token>, NoMemory>
    ensures { IfOk result (λ tokens. tokens
        ≡ held_of tables.now ++ map (λ left. left.token) tables.now.leaving) }
{
    let mut tokens = tables.cache.tokens()?;
    let leaving = tables.leaving.to_items()?;
    push_leaving(&mut tokens, leaving.as_slice())?;
    Ok(tokens)
}

fn push_leaving(tokens: &mut Items<Token>, leaving: &[Leaving]) -> Result<(), NoMemory>
    ensures { OnOk result (tokens.new ≡ tokens.old ++ map (λ left. left.token) leaving.now) }
{
    for left in leaving {
        tokens.push(left.token)?;
    }
    Ok(())
}

// Those of some tokens that a server granted before an epoch.
fn claimed_of(
    alloc: Global,
    owned: &[Token],
    server: ServerId,
    epoch: u64,
) -> Result<Items<Token>, NoMemory>
    ensures { IfOk result (λ tokens. tokens ≡ filter (is_before server epoch) owned.now) }
{
    let mut tokens = Items::new(alloc);
    for token in owned {
        if is_before(token, server, epoch) {
            tokens.push(*token)?;
        }
    }
    Ok(tokens)
}

fn is_before(token: &Token, server: ServerId, epoch: u64) -> bool
    ensures { result ≡ is_before server epoch token.now }
{
    token.id.server == server && token.id.epoch < epoch
}

// The filesets of tokens, each once.
fn filesets_of(tables: &Tables, tokens: &[Token]) -> Result<Items<FilesetId>, NoMemory>
    ensures { IfOk result (λ filesets. filesets ≡ filesets_of tokens.now) }
{
    let mut filesets = Items::new(tables.alloc);
    for token in tokens {
        push_once(&mut filesets, token.fid.fileset)?;
    }
    Ok(filesets)
}

// What is outstanding at each fileset.
fn numbers_of(tables: &Tables, filesets: &[FilesetId]) -> Result<Items<Outstanding>, NoMemory>
    ensures { IfOk result (λ numbers. numbers ≡ map (outstanding_at tables.now) filesets.now) }
{
    let mut numbers = Items::new(tables.alloc);
    for fileset in filesets {
        numbers.push(outstanding_at(tables, *fileset))?;
    }
    Ok(numbers)
}

fn outstanding_at(tables: &Tables, fileset: FilesetId) -> Outstanding
    ensures { result ≡ outstanding_at tables.now fileset }
{
    Outstanding {
        fileset,
        moves: 0,
        give: given_number(tables, fileset),
        change: changed_number(tables, fileset),
    }
}

// The number of the outstanding give-back, 0 for none.
fn given_number(tables: &Tables, fileset: FilesetId) -> u64
    ensures { result ≡ given_number tables.now fileset }
{
    match tables.gives.outstanding(fileset) {
        Some(message) => match &message.body {
            Body::GiveBack(give) => give.number,
            _ => 0,
        },
        None => 0,
    }
}

// The number of the outstanding Change, 0 for none.
fn changed_number(tables: &Tables, fileset: FilesetId) -> u64
    ensures { result ≡ changed_number tables.now.request fileset }
{
    match &tables.request {
        Some(Request::Change(_, change)) => number_at(change, fileset),
        _ => 0,
    }
}

// The number of a Change where it is of this fileset, 0 else.
fn number_at(change: &Change, fileset: FilesetId) -> u64
    ensures { result ≡ number_at fileset change.now }
{
    if change.fileset == fileset {
        change.number
    } else {
        0
    }
}
