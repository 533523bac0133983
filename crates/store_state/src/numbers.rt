//! What is kept of hosts' requests.
ghost use Rattle.std.specs.Prelude.{◌≡◌, map, IfOk};
ghost use Rattle.std.specs.Option.{option_copied, option_map};
ghost use Rattle.base_types.specs.Lists.{changed_at};
ghost use Rattle.store_state.specs.Outcomes.{noted_by, decided_by, decided_before, applied_before};
ghost use Rattle.store_state.specs.State.{
  no_records,
  unless_gone,
  records_of,
  record_of,
  held_noted,
  with_record,
};

use crate::done::Done;
use crate::finding::{Sought, held, slot_of};
use crate::replies::{kept_reply, reply_code, reply_right};
use crate::state::{Holding, StoreState};
use base_types::{FilesetId, HOSTS_MAX, HostId, Items, NoMemory};
use std::alloc::Global;
use tree_calls::{Record, Refusal, Reply};

/// Where nothing was requested.
pub const NO_RECORD: Record = Record {
    change: 0,
    give: 0,
    code: 0,
    right: 0,
};

/// What is noted of a host's requests.
#[derive(Clone, Copy)]
pub enum Noted<'a> {
    /// A change was decided under a number, with this reply.
    Change(u64, &'a Reply),
    /// A give-back was applied under a number.
    Give(u64),
}

/// Makes each element of a list this one.
#[tactic(auto, using(crate::proofs::Mapped::maps))]
pub fn fill<T: Copy + Drop>(items: &mut Items<T>, value: T)
    ensures { items.new ≡ map (λ x. value) items.old }
{
    for place in 0..items.len() {
        items.set(place, value);
    }
}

/// No requests of any host.
pub(crate) fn no_records(alloc: Global) -> Result<Items<Record>, NoMemory>
    ensures { IfOk result (λ records. records ≡ no_records) }
{
    let records = [NO_RECORD; HOSTS_MAX as usize + 1];
    Items::from_slice(alloc, &records)
}

/// What is kept of a host's requests.
pub fn record_of(records: &Items<Record>, host: HostId) -> Record
    ensures { result ≡ record_of records.now host }
{
    match records.at(host.0 as usize) {
        Some(kept) => *kept,
        None => NO_RECORD,
    }
}

fn note(kept: &mut Record, noted: &Noted)
    ensures { kept.new ≡ noted_by noted.now kept.old }
{
    match noted {
        Noted::Change(number, reply) => {
            kept.change = *number;
            kept.code = reply_code(reply);
            kept.right = reply_right(reply);
        }
        Noted::Give(number) => kept.give = *number,
    }
}

/// Notes something of a host's requests.
#[tactic(auto, using(base_types::proofs::ChangedLists::changes))]
pub fn note_in(records: &mut Items<Record>, host: HostId, noted: &Noted)
    ensures { records.new ≡ changed_at records.old host.0 (noted_by noted.now) }
{
    let place = host.0 as usize;
    if place < records.len() {
        note(records.get_mut(place), noted);
    }
}

fn note_at(slot: &mut Option<Holding>, host: HostId, noted: &Noted)
    ensures { slot.new ≡ option_map (held_noted host (noted_by noted.now)) slot.old }
{
    if let Some(holding) = slot {
        note_in(&mut holding.records, host, noted);
    }
}

// What is answered to a change that was decided, by what is kept of the host's requests.
fn decided_by(kept: Record, number: u64) -> Option<Done>
    ensures { result ≡ decided_by kept number }
{
    if kept.change < number {
        None
    } else {
        Some(Done::not_fresh(kept_reply(kept)))
    }
}

impl Holding {
    fn records_unless_gone(&self) -> Option<&Items<Record>>
        ensures { option_copied result ≡ unless_gone self.now }
    {
        if self.stay.is_gone() {
            None
        } else {
            Some(&self.records)
        }
    }
}

impl StoreState {
    /// What is kept of requests under an id.
    pub fn records_of(&self, id: FilesetId) -> Option<&Items<Record>>
        ensures { option_copied result ≡ records_of self.now id }
    {
        if id.0 == 0 {
            return Some(&self.records);
        }
        match held(&self.slots, &Sought::Of(id)) {
            Some(holding) => holding.records_unless_gone(),
            None => None,
        }
    }

    /// What is answered to a change that is settled already.
    pub fn decided_before(&self, id: FilesetId, host: HostId, number: u64) -> Option<Done>
        ensures { result ≡ decided_before self.now id host number }
    {
        match self.records_of(id) {
            Some(records) => decided_by(record_of(records, host), number),
            None => Some(Done::not_fresh(Reply::Refused(Refusal::NoFileset))),
        }
    }

    /// What is answered to a give-back that is settled already.
    pub(crate) fn applied_before(&self, id: FilesetId, host: HostId, number: u64) -> Option<Done>
        ensures { result ≡ applied_before self.now id host number }
    {
        let Some(records) = self.records_of(id) else {
            return Some(Done::not_fresh(Reply::Refused(Refusal::NoFileset)));
        };
        if record_of(records, host).give < number {
            None
        } else {
            Some(Done::not_fresh(Reply::Ok))
        }
    }

    /// Notes something of a host's requests under an id.
    #[tactic(auto, using(base_types::proofs::ChangedLists::changes))]
    pub fn note(&mut self, id: FilesetId, host: HostId, noted: &Noted)
        ensures { self.new ≡ with_record self.old id host (noted_by noted.now) }
    {
        if id.0 == 0 {
            note_in(&mut self.records, host, noted);
            return;
        }
        let place = slot_of(&self.slots, &Sought::Of(id));
        if place < self.slots.len() {
            note_at(self.slots.get_mut(place), host, noted);
        }
    }
}
