ghost use Rattle.std.specs.Prelude.{◌≡◌, IfOk, map, option_copied};
ghost use Rattle.std.specs.List.{find};
ghost use Rattle.hub_wire.specs.Plans.{waiting_at, is_raised_by, with_message, with_flag, accepted, forgotten};
ghost use Rattle.hub_wire.specs.Plans.{ready_lines, planned, is_at};

use base_types::{Items, Name, NoMemory, Plain};
use message_types::Message;
use run_rules::{Fate, counts, planned_fate};
use script_lines::PlanLine;
use std::alloc::Global;

/// A plan line, and how many of the messages that it counts are still to be sent up to its own, that one counted; 0
/// where it was sent.
#[derive(Drop)]
pub(crate) struct Waiting {
    /// The line.
    pub line: PlanLine,
    /// How many lack after the steps that are counted.
    pub counted: u32,
    /// How many lack with the steps that are made ready.
    pub ready: u32,
}

impl Waiting {
    // Whether it is for the message that comes next.
    fn is_for(&self, message: &Message) -> bool
        ensures { result ≡ is_at message.now self.now }
    {
        counts(&self.line, message) && self.ready == 1
    }

    fn count(&mut self, message: &Message)
        ensures { self.new ≡ with_message message.now self.old }
    {
        if counts(&self.line, message) {
            self.ready = self.ready.saturating_sub(1);
        }
    }

    fn raise(&mut self, flag: &Name)
        ensures { self.new ≡ with_flag flag.now self.old }
    {
        if is_raised_by(&self.line, flag) {
            self.line.flag = None;
        }
    }

    fn accept(&mut self)
        ensures { self.new ≡ accepted self.old }
    {
        self.counted = self.ready;
    }

    fn forget(&mut self)
        ensures { self.new ≡ forgotten self.old }
    {
        self.ready = self.counted;
    }
}

fn is_raised_by(line: &PlanLine, flag: &Name) -> bool
    ensures { result ≡ is_raised_by flag.now line.now.flag }
{
    match &line.flag {
        Some(name) => name == flag,
        None => false,
    }
}

/// The plan lines of a script at the start. The only error is that memory ran out.
pub(crate) fn waiting_lines(alloc: Global, plan: &[PlanLine]) -> Result<Items<Waiting>, NoMemory>
    ensures { IfOk result (λ lines. lines ≡ map waiting_at plan.now) }
{
    let mut lines = Items::new(alloc);
    for line in plan {
        let n = line.n;
        lines.push(Waiting {
            line: line.copy()?,
            counted: n,
            ready: n,
        })?;
    }
    Ok(lines)
}

/// What the first plan line that is for a message makes of it; none where no line is for it. The only error is that
/// memory ran out.
pub(crate) fn planned(lines: &Items<Waiting>, message: &Message) -> Result<Option<Fate>, NoMemory>
    ensures { IfOk result (λ fate. fate ≡ planned (ready_lines lines.now) message.now) }
{
    match line_for(lines.as_slice(), message) {
        Some(waiting) => Ok(Some(planned_fate(&waiting.line)?)),
        None => Ok(None),
    }
}

fn line_for<'a>(lines: &'a [Waiting], message: &Message) -> Option<&'a Waiting>
    ensures { option_copied result ≡ find (is_at message.now) lines.now }
{
    lines.iter().find(|waiting| waiting.is_for(message))
}

/// Counts a message at the plan lines.
#[tactic(auto, using(crate::proofs::Mapped::maps))]
pub(crate) fn count_message(lines: &mut Items<Waiting>, message: &Message)
    ensures { lines.new ≡ map (with_message message.now) lines.old }
{
    for place in 0..lines.len() {
        lines.get_mut(place).count(message);
    }
}

/// Takes notice of a flag, at all plan lines.
#[tactic(auto, using(crate::proofs::Mapped::maps))]
pub(crate) fn raise_lines(lines: &mut Items<Waiting>, flag: &Name)
    ensures { lines.new ≡ map (with_flag flag.now) lines.old }
{
    for place in 0..lines.len() {
        lines.get_mut(place).raise(flag);
    }
}

/// Counts what was made ready.
#[tactic(auto, using(crate::proofs::Mapped::maps))]
pub(crate) fn accept_lines(lines: &mut Items<Waiting>)
    ensures { lines.new ≡ map accepted lines.old }
{
    for place in 0..lines.len() {
        lines.get_mut(place).accept();
    }
}

/// Lets go of what was made ready.
#[tactic(auto, using(crate::proofs::Mapped::maps))]
pub(crate) fn forget_lines(lines: &mut Items<Waiting>)
    ensures { lines.new ≡ map forgotten lines.old }
{
    for place in 0..lines.len() {
        lines.get_mut(place).forget();
    }
}
