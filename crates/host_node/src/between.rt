//! Calls that a host answers between its turns.
ghost use Rattle.std.specs.Prelude.{◌≡◌, ◌∷◌, ◌++◌, ◌≤◌, ℕ, [], length, take, IfOk, IsOk, IsTrue, List, OnOk};
ghost use Rattle.base_types.specs.declared.ids.HostId.{HostId as HostIdOf};
ghost use Rattle.host_manager.specs.Spoken.{tables_of};
ghost use Rattle.host_node.specs.Between.{AreKept, Holds, IsSaid, IsToldOf, Said, entry_of, spelled_of, step_of};
ghost use Rattle.run_rules.specs.declared.step.Step.{Step as StepOf};
ghost use Rattle.script_lines.specs.declared.script.Line.{Line as LineOf};

use base_types::{Items, NoMemory, Plain};
use host_manager::Manager;
use hub_node::OwnLines;
use hub_turns::Pending;
use message_calls::{reply_at, write_reply};
use run_rules::Step;
use script_lines::Deed;
use std::alloc::Global;
use tree_calls::{Call, Reply};

/// What became of a call between turns.
#[derive(Clone, Copy, PartialEq)]
pub enum Spoken {
    /// It is answered: so long is the spelling of the reply.
    Answered(usize),
    /// It is asked about.
    Asked,
}

// A call that was answered, and whose reply is spelled.
#[derive(Clone, Copy)]
struct Entry {
    // The place of its line among those of the host.
    place: usize,
    // Its number among the host's calls.
    k: u32,
}

/// The steps of the calls that were answered since the last turn, each in one of two forms: first those that stand as
/// steps, and then those of which the reply is spelled, one behind the other, which takes no memory where there is
/// room.
#[derive(Drop)]
pub(crate) struct Between {
    alloc: Global,
    steps: Vec<Step>,
    entries: Vec<Entry>,
    spelled: Items<u8>,
}

impl Between {
    /// No call was answered, and there is no room. It takes no memory.
    pub(crate) fn new(alloc: Global) -> Between
        ensures { (lines : List LineOf) (host : HostIdOf) → Holds result lines host [] }
    {
        Between {
            alloc,
            steps: Vec::new(alloc),
            entries: Vec::new(alloc),
            spelled: Items::new(alloc),
        }
    }

    /// Makes room for so many calls more, and so many bytes of the spellings of their replies. The only error is that
    /// memory ran out.
    pub(crate) fn reserve(&mut self, calls: usize, bytes: usize) -> Result<(), NoMemory>
        ensures { (lines : List LineOf) (host : HostIdOf) (steps : List StepOf)
            → Holds self.old lines host steps → Holds self.new lines host steps }
    {
        self.entries.reserve(calls)?;
        let spelled = std::mem::replace(&mut self.spelled, Items::new(self.alloc));
        let mut spelled = spelled.into_vec();
        let reserved = spelled.reserve(bytes);
        self.spelled = Items::from_vec(spelled);
        reserved?;
        Ok(())
    }

    /// Notes a call that the line at this place made, its number, and the spelling of its reply, which is in front of
    /// `out`. It takes no memory where there is room.
    pub(crate) fn note(
        &mut self,
        place: usize,
        k: u32,
        out: &[u8],
        count: usize,
    ) -> Result<(), NoMemory>
        ensures { (lines : List LineOf) (said : Said) (host : HostIdOf) (steps : List StepOf) → IsSaid lines said
            → said.place ≡ place → said.k ≡ k → take count out.now ≡ spelled_of said → Holds self.old lines host steps
            → OnOk result (Holds self.new lines host (steps ++ step_of host said ∷ [])) }
    {
        if count > out.len() {
            return Err(NoMemory);
        }
        self.entries.push(Entry { place, k })?;
        self.spelled.extend(&out[..count])
    }

    /// Adds a step of a host with these lines. The only error is that memory ran out.
    pub(crate) fn push(
        &mut self,
        manager: &Manager,
        lines: &OwnLines,
        step: Step,
    ) -> Result<(), NoMemory>
        ensures { (steps : List StepOf) → Holds self.old lines.now.lines (tables_of manager.now).host steps
            → OnOk result (Holds self.new lines.now.lines (tables_of manager.now).host (steps ++ step ∷ [])) }
    {
        let spelled = self.spell_out(manager, lines);
        self.steps.push(step)?;
        spelled
    }

    /// Adds the step that a call made, and puts the spelling of the reply, if there was one, into `out`, which has
    /// room.
    pub(crate) fn push_made(
        &mut self,
        manager: &Manager,
        lines: &OwnLines,
        made: Result<Step, NoMemory>,
        out: &mut [u8],
    ) -> Result<Spoken, NoMemory>
        ensures made { OnOk result (IsOk made) }
        ensures holds { (steps : List StepOf) → Holds self.old lines.now.lines (tables_of manager.now).host steps
            → IfOk made (λ step.
            OnOk result (Holds self.new lines.now.lines (tables_of manager.now).host (steps ++ step ∷ []))) }
        ensures told { IfOk made (λ step. IfOk result (λ spoken. IsToldOf step spoken out.new)) }
    {
        match made {
            Ok(step) => {
                let spoken = spoken_by(&step, out);
                match self.push(manager, lines, step) {
                    Ok(()) => spoken,
                    Err(NoMemory) => Err(NoMemory),
                }
            }
            Err(NoMemory) => Err(NoMemory),
        }
    }

    // Makes steps of the calls whose replies are spelled.
    fn spell_out(&mut self, manager: &Manager, lines: &OwnLines) -> Result<(), NoMemory>
        ensures steps { (steps : List StepOf) → Holds self.old lines.now.lines (tables_of manager.now).host steps
            → OnOk result (self.new.steps.items ≡ steps) }
        ensures none { OnOk result ((self.new.entries.items ≡ []) × (self.new.spelled ≡ [])) }
    {
        let done = spell_each(
            self.alloc,
            manager,
            lines,
            self.entries.as_slice(),
            self.spelled.as_slice(),
            &mut self.steps,
        );
        self.entries.clear();
        self.spelled.truncate(0);
        done
    }

    /// Hands all steps in. The only error is that memory ran out.
    pub(crate) fn hand_in(
        &mut self,
        manager: &Manager,
        lines: &OwnLines,
        steps: &mut Pending,
    ) -> Result<(), NoMemory>
        ensures handed { (waiting : List StepOf)
            → Holds self.old lines.now.lines (tables_of manager.now).host waiting
            → OnOk result (steps.new.steps ≡ steps.old.steps ++ waiting) }
        ensures none { (host : HostIdOf) → OnOk result (Holds self.new lines.now.lines host []) }
    {
        if self.is_empty() {
            return Ok(());
        }
        self.hand_all(manager, lines, steps)
    }

    // Whether nothing waits.
    fn is_empty(&self) -> bool
        ensures { IsTrue result → (self.now.steps.items ≡ []) × (self.now.entries.items ≡ [])
            × (self.now.spelled ≡ []) }
    {
        self.steps.is_empty() && self.entries.is_empty() && self.spelled.is_empty()
    }

    // Hands all steps in.
    #[inline(never)]
    fn hand_all(
        &mut self,
        manager: &Manager,
        lines: &OwnLines,
        steps: &mut Pending,
    ) -> Result<(), NoMemory>
        ensures handed { (waiting : List StepOf)
            → Holds self.old lines.now.lines (tables_of manager.now).host waiting
            → OnOk result (steps.new.steps ≡ steps.old.steps ++ waiting) }
        ensures none { (host : HostIdOf) → OnOk result (Holds self.new lines.now.lines host []) }
    {
        self.spell_out(manager, lines)?;
        let made = std::mem::replace(&mut self.steps, Vec::new(self.alloc));
        hand_each(made, steps)
    }
}

// Adds the steps of the calls whose replies are spelled.
fn spell_each(
    alloc: Global,
    manager: &Manager,
    lines: &OwnLines,
    entries: &[Entry],
    spelled: &[u8],
    steps: &mut Vec<Step>,
) -> Result<(), NoMemory>
    ensures { (all : List StepOf)
        → AreKept lines.now.lines (tables_of manager.now).host all steps.old.items entries.now spelled.now
        → OnOk result (steps.new.items ≡ all) }
{
    let mut rest = spelled;
    for entry in entries {
        let (reply, behind) = reply_front(alloc, rest)?;
        rest = behind;
        let step = said_step(manager, lines, *entry, reply)?;
        steps.push(step)?;
    }
    Ok(())
}

// Hands these steps in, in order.
fn hand_each(made: Vec<Step>, steps: &mut Pending) -> Result<(), NoMemory>
    ensures { OnOk result (steps.new.steps ≡ steps.old.steps ++ made.items) }
{
    let mut done = Ok(());
    for step in made {
        let pushed = push(steps, step);
        done = both(done, pushed);
    }
    done
}

/// Both were done.
pub(crate) fn both(one: Result<(), NoMemory>, other: Result<(), NoMemory>) -> Result<(), NoMemory>
    ensures one { OnOk result (IsOk one) }
    ensures other { OnOk result (IsOk other) }
{
    one?;
    other
}

/// The step is handed in next.
pub(crate) fn push(steps: &mut Pending, step: Step) -> Result<(), NoMemory>
    ensures { OnOk result (steps.new.steps ≡ steps.old.steps ++ step ∷ []) }
{
    let reserved = steps.reserve(1);
    let pushed = steps.push(step);
    match reserved {
        Ok(()) => pushed,
        Err(NoMemory) => Err(NoMemory),
    }
}

// These bytes are put into the front of the room.
fn put_front(out: &mut [u8], bytes: &[u8])
    requires { length bytes.now ≤ length out.old }
    ensures { take (length bytes.now) out.new ≡ bytes.now }
{
    out[..bytes.len()].copy_from_slice(bytes);
}

// What became of a call by its step: a reply's spelling is put into `out`, which has room.
fn spoken_by(step: &Step, out: &mut [u8]) -> Result<Spoken, NoMemory>
    ensures { IfOk result (λ spoken. IsToldOf step.now spoken out.new) }
{
    let Some(answer) = step.answers.at(0) else {
        return Ok(Spoken::Asked);
    };
    let mut spelled = Items::new(step.answers.alloc());
    write_reply(&answer.reply, &mut spelled)?;
    let count = spelled.len();
    if count > out.len() {
        return Err(NoMemory);
    }
    put_front(out, spelled.as_slice());
    Ok(Spoken::Answered(count))
}

// The step of a call that was answered.
fn said_step(
    manager: &Manager,
    lines: &OwnLines,
    entry: Entry,
    reply: Reply,
) -> Result<Step, NoMemory>
    ensures { (said : Said) → IsSaid lines.now.lines said → entry ≡ entry_of said → reply ≡ said.reply
        → IfOk result (λ step. step ≡ step_of (tables_of manager.now).host said) }
{
    match call_of(lines, entry.place) {
        Ok((line, call)) => manager.answered_step(line, entry.k, call, reply),
        Err(NoMemory) => {
            drop(reply);
            Err(NoMemory)
        }
    }
}

// The number of the line at a place, and the call that it makes.
fn call_of(lines: &OwnLines, place: usize) -> Result<(u32, Call), NoMemory>
    ensures { (said : Said) → IsSaid lines.now.lines said → place ≡ said.place
        → IfOk result (λ found. (found.0 ≡ said.line.number) × (found.1 ≡ said.call)) }
{
    let Some(line) = lines.at(place) else {
        return Err(NoMemory);
    };
    let Deed::Call(call) = &line.deed else {
        return Err(NoMemory);
    };
    let call = call.copy()?;
    Ok((line.number, call))
}

// The reply that is spelled at the front, and what is behind it.
fn reply_front(alloc: Global, bytes: &[u8]) -> Result<(Reply, &[u8]), NoMemory>
    ensures { (lines : List LineOf) (said : Said) (behind : List ℕ) → IsSaid lines said
        → bytes.now ≡ spelled_of said ++ behind
        → IfOk result (λ found. (found.0 ≡ said.reply) × (found.1.now ≡ behind)) }
{
    match reply_at(alloc, bytes) {
        Ok((reply, behind)) => Ok((reply, behind)),
        Err(_) => Err(NoMemory),
    }
}
