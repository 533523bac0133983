//! What was answered to Changes.
ghost use Rattle.std.specs.Prelude.{◌≡◌, Option, option_map, slice_get, IfOk, OnOk};
ghost use Rattle.std.specs.List.{filter, find, position};
ghost use Rattle.std.specs.Option.{option_copied};
ghost use Rattle.server_tables.specs.Answers.{answer_again, done_without, has_still, is_before, is_for_change};
ghost use Rattle.server_tables.specs.Answers.{is_lost, is_old, last_change, last_written, not_for_change, once_more};
ghost use Rattle.server_tables.specs.Answers.{renewed};

use crate::tables::{LastChange, NO_FID, Tables};
use base_types::{FilesetId, HostId, Items, NoMemory, Plain};
use message_types::{Bring, Change, Done, DoneIs};
use run_rules::Written;
use std::alloc::Global;
use token_manager::TokenManager;
use token_types::Token;

impl Tables {
    /// What was answered last to a host's Changes on a fileset.
    fn last_change(&self, host: HostId, fileset: FilesetId) -> Option<&LastChange>
        ensures { option_copied result ≡ last_change self.now.changes host fileset }
    {
        self.changes
            .as_slice()
            .iter()
            .find(|last| is_for(last, host, fileset))
    }

    /// Whether a Change of a host is old: one of its number or a higher one was written down, or answered in this
    /// epoch, or one of a higher number was answered before. It takes no memory.
    pub fn is_old(&self, host: HostId, change: &Change) -> bool
        ensures { result ≡ is_old self.now host change.now }
    {
        match self.last_change(host, change.fileset) {
            Some(last) => is_before(last, self.hosts.epoch, change.number),
            None => false,
        }
    }

    /// What is answered to a Change that is old: the answer that it had, if it was the last that was answered. Where
    /// the token that it brought isn't granted any more, the host is to start the call anew.
    pub fn answer_again(&self, host: HostId, change: &Change) -> Result<Option<Done>, NoMemory>
        ensures { IfOk result (λ done. done ≡ answer_again self.now host change.now) }
    {
        match self.last_change(host, change.fileset) {
            Some(last) if last.done.bring.number == change.number => {
                once_more(&self.tokens, &last.done)
            }
            _ => Ok(None),
        }
    }

    /// Notes what was answered to a host, and that its Change was written down, if it was.
    pub fn note_done(
        &mut self,
        host: HostId,
        done: Done,
        written: Option<Written>,
    ) -> Result<(), NoMemory>
        ensures { OnOk result (self.new ≡ record self.old { changes = renewed self.old host done written }) }
    {
        let fileset = done.fileset;
        let before = take_written(&mut self.changes, host, fileset);
        self.changes.push(LastChange {
            host,
            fileset,
            epoch: self.hosts.epoch,
            done,
            written: written.or(before),
        })
    }
}

fn is_for(last: &LastChange, host: HostId, fileset: FilesetId) -> bool
    ensures { result ≡ is_for_change host fileset last.now }
{
    last.host == host && last.fileset == fileset
}

fn is_before(last: &LastChange, epoch: u64, number: u64) -> bool
    ensures { result ≡ is_before last.now epoch number }
{
    let answered = last.done.bring.number;
    let durable = match &last.written {
        Some(written) => number <= written.number,
        None => false,
    };
    durable || number < answered || (last.epoch == epoch && number == answered)
}

/// Takes out what was answered to a host's Changes on a fileset. It answers what was written down last of them.
fn take_written(
    changes: &mut Items<LastChange>,
    host: HostId,
    fileset: FilesetId,
) -> Option<Written>
    ensures answer { result ≡ last_written changes.old host fileset }
    ensures after { changes.new ≡ filter (not_for_change host fileset) changes.old }
{
    match place_of(changes.as_slice(), host, fileset) {
        Some(place) => take_at(changes, place, host, fileset),
        None => None,
    }
}

fn place_of(changes: &[LastChange], host: HostId, fileset: FilesetId) -> Option<usize>
    ensures { result ≡ position (is_for_change host fileset) changes.now }
{
    changes.iter().position(|last| is_for(last, host, fileset))
}

fn take_at(
    changes: &mut Items<LastChange>,
    place: usize,
    host: HostId,
    fileset: FilesetId,
) -> Option<Written>
    requires { position (is_for_change host fileset) changes.old ≡ Option.Some place }
    ensures answer { result ≡ last_written changes.old host fileset }
    ensures after { changes.new ≡ filter (not_for_change host fileset) changes.old }
{
    let last = changes.remove(place);
    drop_change(changes, host, fileset);
    last.written
}

fn drop_change(changes: &mut Items<LastChange>, host: HostId, fileset: FilesetId)
    ensures { changes.new ≡ filter (not_for_change host fileset) changes.old }
{
    changes.retain(|other| !is_for(other, host, fileset));
}

fn once_more(tokens: &TokenManager, done: &Done) -> Result<Option<Done>, NoMemory>
    ensures { IfOk result (λ again. again ≡ Option.Some (once_more tokens.now.grants done.now)) }
{
    if is_lost(tokens, &done.bring) {
        let alloc = done.bring.tokens.alloc();
        let again = without_token(alloc, done.fileset, DoneIs::Again, done.bring.number);
        return Ok(Some(again));
    }
    Ok(Some(done.copy()?))
}

/// Whether its host hasn't one of the tokens that were brought any more.
fn is_lost(tokens: &TokenManager, bring: &Bring) -> bool
    ensures { result ≡ is_lost tokens.now.grants bring.now }
{
    bring
        .tokens
        .as_slice()
        .iter()
        .any(|token| !has_still(tokens, token))
}

/// Whether a host has a token still that was granted to it in the present epoch.
fn has_still(tokens: &TokenManager, token: &Token) -> bool
    ensures { result ≡ has_still tokens.now.grants token.now }
{
    token.id.epoch == tokens.last_id().epoch && tokens.holds(token.host, token.id)
}

/// An answer that brings no token.
pub fn without_token(alloc: Global, fileset: FilesetId, outcome: DoneIs, number: u64) -> Done
    ensures { result ≡ done_without fileset outcome number }
{
    Done {
        fileset,
        outcome,
        bring: Bring {
            number,
            fid: NO_FID,
            stamp: 0,
            tokens: Items::new(alloc),
        },
    }
}
