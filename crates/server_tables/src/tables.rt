ghost use Rattle.std.specs.Prelude.{◌≡◌, ◌+◌, not, filter, find, option_copied, IfOk, OnOk, OnErr};
ghost use Rattle.server_tables.specs.Counting.{IsCounted};
ghost use Rattle.server_tables.specs.Gives.{given, is_for_give, last_give};
ghost use Rattle.server_tables.specs.Greetings.{welcoming};
ghost use Rattle.server_tables.specs.Places.{is_of};
ghost use Rattle.server_tables.specs.Queue.{is_waiting};
ghost use Rattle.server_tables.specs.Starts.{starting};
ghost use Rattle.server_tables.specs.Updates.{begun, stamped};

use crate::hosts::Hosts;
use crate::pending::Pending;
use crate::recovering::{Answered, Recovering};
use base_types::{Fid, FilesetId, HostId, Items, NoMemory, Plain, ServerId};
use message_types::{AppliedGive, Done, Reclaimed};
use run_rules::{Request, Written};
use std::alloc::Global;
use token_manager::TokenManager;
use tree_calls::Roster;

/// The highest number of a host's give-backs on a fileset that was taken. It outlives a restart.
#[derive(Clone, Copy)]
pub struct LastGive {
    pub host: HostId,
    pub give: AppliedGive,
}

/// What was answered last to a host's Changes on a fileset. It outlives a restart.
#[derive(Drop)]
pub struct LastChange {
    pub host: HostId,
    pub fileset: FilesetId,
    /// The epoch in which the Done was sent.
    pub epoch: u64,
    /// The answer.
    pub done: Done,
    /// The Change that was written down last; None where none was.
    pub written: Option<Written>,
}

/// The tables of a server's machine: one for each word of its past. After a call that answers an error nothing is known
/// of them but what the call promises.
#[derive(Drop)]
pub struct Tables {
    pub server: ServerId,
    pub roster: Roster,
    pub hosts: Hosts,
    pub tokens: TokenManager,
    /// The wants that wait, in the order in which they were made.
    pub pending: Items<Pending>,
    /// The number of the next want.
    pub next: u64,
    /// The last stamp: one count for all files.
    pub stamp: u64,
    pub gives: Items<LastGive>,
    pub changes: Items<LastChange>,
    pub recovering: Recovering,
}

impl Tables {
    /// The tables of a server that starts, in an epoch.
    pub fn new(
        alloc: Global,
        server: ServerId,
        epoch: u64,
        roster: &Roster,
    ) -> Result<Tables, NoMemory>
        ensures tables { IfOk result (λ tables. tables ≡ starting server epoch roster.now) }
        ensures counted { IfOk result IsCounted }
    {
        Ok(Tables {
            server,
            roster: roster.copy()?,
            hosts: Hosts::new(alloc, epoch),
            tokens: TokenManager::new(alloc, server, epoch),
            pending: Items::new(alloc),
            next: 0,
            stamp: 0,
            gives: Items::new(alloc),
            changes: Items::new(alloc),
            recovering: Recovering::new(alloc),
        })
    }

    /// The memory that the tables grow in.
    pub fn alloc(&self) -> Global {
        self.pending.alloc()
    }

    /// Whether a fileset is here: the server made it.
    pub fn is_here(&self, fileset: FilesetId) -> bool
        ensures { result ≡ is_of self.now.server fileset }
    {
        is_of(self.server, fileset)
    }

    /// Whether a want of a host waits that is known by the same number.
    pub fn is_waiting(&self, host: HostId, request: &Request) -> bool
        ensures { result ≡ is_waiting self.now.pending host request.now }
    {
        self.pending
            .as_slice()
            .iter()
            .any(|pending| pending.is_for(host, request))
    }

    /// The highest number of a host's give-backs on a fileset that was taken; 0 for none. It takes no memory.
    pub fn last_give(&self, host: HostId, fileset: FilesetId) -> u64
        ensures { result ≡ last_give self.now.gives host fileset }
    {
        match give_of(self.gives.as_slice(), host, fileset) {
            Some(last) => last.give.number,
            None => 0,
        }
    }

    /// Notes that a give-back was taken, in the place of what was noted of the host and the fileset before.
    pub fn note_give(&mut self, host: HostId, give: AppliedGive) -> Result<(), NoMemory>
        ensures { OnOk result (self.new ≡ record self.old { gives = given self.old.gives host give }) }
    {
        drop_give(&mut self.gives, host, give.fileset);
        self.gives.push(LastGive { host, give })
    }

    /// The next stamp. An error comes where none is left; then nothing changes. It takes no memory.
    pub fn next_stamp(&mut self) -> Result<u64, NoMemory>
        ensures stamp { IfOk result (λ stamp. stamp ≡ self.old.stamp + 1) }
        ensures after { OnOk result (self.new ≡ stamped self.old) }
        ensures err { OnErr result (self.new ≡ self.old) }
    {
        if self.stamp == u64::MAX {
            return Err(NoMemory);
        }
        self.stamp += 1;
        Ok(self.stamp)
    }

    /// A host comes on the list, in this epoch; its claim counts as answered.
    pub fn welcome(&mut self, host: HostId) -> Result<(), NoMemory>
        ensures after { OnOk result (self.new ≡ welcoming self.old host) }
        ensures counted { IsCounted self.old → OnOk result (IsCounted self.new) }
    {
        self.hosts.list(host)?;
        let alloc = self.alloc();
        let answer = Reclaimed {
            applied: Items::new(alloc),
            left_out: Items::new(alloc),
        };
        self.recovering.answers.push(Answered { host, answer })?;
        Ok(())
    }

    /// The server restarts: its tokens, its wants and what claims are judged by are gone, and the next epoch begins. An
    /// error comes where no epoch is left; then nothing changes. It takes no memory.
    pub fn begin(&mut self) -> Result<(), NoMemory>
        ensures after { OnOk result (self.new ≡ begun self.old) }
        ensures counted { IsCounted self.old → OnOk result (IsCounted self.new) }
        ensures err { OnErr result (self.new ≡ self.old) }
    {
        if self.hosts.epoch == u64::MAX {
            return Err(NoMemory);
        }
        let alloc = self.alloc();
        self.hosts.begin();
        let _later = self.tokens.forget(self.hosts.epoch);
        self.pending.truncate(0);
        self.stamp = 0;
        self.recovering = Recovering::new(alloc);
        Ok(())
    }
}

/// What is noted of the give-backs of a host on a fileset.
fn give_of(gives: &[LastGive], host: HostId, fileset: FilesetId) -> Option<&LastGive>
    ensures { option_copied result ≡ find (is_for_give host fileset) gives.now }
{
    gives.iter().find(|last| is_for_give(last, host, fileset))
}

fn is_for_give(last: &LastGive, host: HostId, fileset: FilesetId) -> bool
    ensures { result ≡ is_for_give host fileset last.now }
{
    last.host == host && last.give.fileset == fileset
}

/// Takes out what is noted of the give-backs of a host on a fileset.
fn drop_give(gives: &mut Items<LastGive>, host: HostId, fileset: FilesetId)
    ensures { gives.new ≡ filter (λ last. not (is_for_give host fileset last)) gives.old }
{
    gives.retain(|last| !is_for_give(last, host, fileset));
}

/// Whether a server made a fileset.
pub(crate) fn is_of(server: ServerId, fileset: FilesetId) -> bool
    ensures { result ≡ is_of server fileset }
{
    fileset.0 / 65_536 == u32::from(server.0)
}

/// No object.
pub const NO_FID: Fid = Fid {
    fileset: FilesetId(0),
    anode: 0,
    unique: 0,
};
