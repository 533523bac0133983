ghost use Rattle.std.specs.Prelude.{◌≡◌, ◌∷◌, ◌++◌, ◌↔◌, ◌≤◌, ◌⊎◌, [], length, Some, None, true, false};
ghost use Rattle.std.specs.Prelude.{IfOk, IfSome, IsOk, IsSome, IsTrue, MatchOption, OnOk, List, Option};
ghost use Rattle.base_types.specs.declared.ids.Node.TheVariants.{Host as IsHost};
ghost use Rattle.hub_board.specs.declared.given.Given.{Given as GivenOf};
ghost use Rattle.hub_board.specs.declared.given.Turned.TheVariants.{Ended, Idle, Worked};
ghost use Rattle.host_manager.specs.Spoken.{IsFree, tables_of};
ghost use Rattle.host_node.specs.Doing.{DoesLine};
ghost use Rattle.host_node.specs.declared.between.Spoken.TheVariants.{Answered};
ghost use Rattle.host_node.specs.Standing.{CanCall, HasSpoken, IsInTurn, IsOver, IsPlayable, Stands, WasGiven};
ghost use Rattle.hub_laws.specs.Keeping.{Round, lapse_in, message_in, steps_in};
ghost use Rattle.hub_node.specs.Nodes.{Beginning, IsDone, IsGivenTo, Part, part_of};
ghost use Rattle.message_types.specs.Soundness.{IsSound};
ghost use Rattle.run_rules.specs.Plans.{receiver};
ghost use Rattle.run_rules.specs.declared.step.Step.{Step as StepOf};
ghost use Rattle.script_lines.specs.Sound.{is_stop, same_node};
ghost use Rattle.script_lines.specs.declared.script.Deed.TheVariants.{Restart};
ghost use Rattle.tree_calls.specs.Rosters.{user_of};
ghost use Rattle.tree_calls.specs.declared.call.Call.{Call as CallOf};

use crate::between::{Between, Spoken, both, push};
use base_types::{HostId, NoMemory, Node as NodeId};
use host_manager::Manager;
use hub_node::{Node, NodeFault, OwnLines};
use hub_turns::{Given, Pending, Turned};
use message_types::Message;
use run_rules::Step;
use script_lines::{Deed, Line, Script};
use tree_calls::Call;

// Steps of its own that a host makes in one turn, at most.
const OWN_STEPS_MAX: usize = 16;

/// A host: its machine, its lines, and whether they may go.
pub struct HostNode<'a> {
    manager: Manager,
    lines: OwnLines<'a>,
    between: Between,
    begun: bool,
    stopped: bool,
}

impl Drop for HostNode<'_> {
    fn drop(self) {
        let HostNode {
            manager: _,
            lines: _,
            between: _,
            begun: _,
            stopped: _,
        } = self;
    }
}

// Whether it is the setup host, which waits for nobody to begin.
fn is_setup(host: HostId) -> bool
    ensures { result ≡ true → host.0 ≡ 0 }
{
    host.0 == 0
}

impl<'a> HostNode<'a> {
    /// A host of a script before its first step. The only error is NoMemory: where the script has no server, or more
    /// than 255, and else where memory ran out.
    pub fn new(script: &'a Script, host: HostId) -> Result<HostNode<'a>, NoMemory>
        requires user { IsSome (user_of script.now.roster host) }
        ensures { IfOk result (λ n. (run : Beginning) → run.script ≡ script.now → IsPlayable script.now
            → Stands (part_of run (IsHost host)) n [] []) }
    {
        let alloc = script.lines.alloc();
        let begun = is_setup(host);
        let lines = OwnLines::new(script, NodeId::Host(host))?;
        let between = Between::new(alloc);
        match Manager::new(alloc, host, &script.roster) {
            Ok(manager) => Ok(HostNode {
                manager,
                lines,
                between,
                begun,
                stopped: false,
            }),
            Err(NoMemory) => {
                drop(lines);
                drop(between);
                Err(NoMemory)
            }
        }
    }

    /// Makes room, so that so many covered calls more are answered by `call` without memory, if each is a Read, Stat,
    /// List or GetAcl and so many bytes suffice for the spellings of their replies. The only error is that memory ran
    /// out.
    pub fn reserve(&mut self, calls: usize, bytes: usize) -> Result<(), NoMemory>
        ensures { (part : Part) (past : List Round) (made : List StepOf) → Stands part self.old past made
            → Stands part self.new past made }
    {
        self.between.reserve(calls, bytes)
    }

    /// The call of the host's next line, where it can be made now: no call is open, no token has to be evicted, and the
    /// host has begun. It takes no memory.
    pub fn next_call(&self) -> Option<&Call>
        ensures can { IfSome result (λ call. CanCall self.now call.now) }
        ensures none { result ≡ None → (call : CallOf) → CanCall self.now call → ⊥ }
    {
        if !self.may_call() {
            return None;
        }
        let line = self.lines.next()?;
        match &line.deed {
            Deed::Call(call) => Some(call),
            _ => None,
        }
    }

    // Whether a call can be made now, if one is next.
    fn may_call(&self) -> bool
        ensures { IsTrue result ↔ ((self.now.begun ≡ true) × (self.now.stopped ≡ false)
            × IsFree (tables_of self.now.manager)) }
    {
        self.begun && !self.stopped && self.manager.is_free()
    }

    /// Makes the call of the next line, between turns. It can be made now, and `out` has at least 70,000 bytes. Where
    /// its need is covered, the reply's spelling is put into `out`. The only error is that memory ran out.
    pub fn call(&mut self, call: &Call, out: &mut [u8]) -> Result<Spoken, NoMemory>
        requires can { CanCall self.old call.now }
        requires stands { (part : Part) × ((past : List Round) × ((made : List StepOf)
            × Stands part self.old past made)) }
        ensures { (part : Part) (past : List Round) (made : List StepOf) → (stands : Stands part self.old past made)
            → IfOk result (λ spoken. HasSpoken part self.new past made stands.waiting spoken out.new) }
    {
        let Some(line) = self.lines.waiting() else {
            return Err(NoMemory);
        };
        let place = self.lines.gone();
        self.lines.go();
        if let Some(count) = self.manager.answer_into(call, out) {
            let noted = self.between.note(place, self.manager.begun(), out, count);
            return answered(noted, count);
        }
        let made = self.manager.call(line, call);
        self.between
            .push_made(&self.manager, &self.lines, made, out)
    }

    // Whether it makes no step any more: it has stopped, or its lines have gone, and each server that it greeted has
    // said Bye.
    fn is_over(&self) -> bool
        ensures { IsTrue result ↔ IsOver self.now }
    {
        self.stopped || (self.lines.are_gone() && self.manager.has_parted())
    }

    // Takes what was given.
    #[inline(never)]
    fn take(&mut self, given: Given, steps: &mut Pending) -> Result<(), NoMemory>
        ensures { (part : Part) (past : List Round)
            → IsInTurn part self.old past steps.old.steps (message_in (Some given)) (lapse_in (Some given))
            → IsGivenTo part (Some given) → WasGiven past given
            → OnOk result (IsInTurn part self.new past steps.new.steps [] 0) }
    {
        match given {
            Given::Begun => {
                self.begun = true;
                Ok(())
            }
            Given::Raised(flag) => {
                self.lines.tell(flag);
                Ok(())
            }
            Given::Message(message) => self.hear(message, steps),
            Given::Lapse => self.repeat(steps),
        }
    }

    // A message comes.
    fn hear(&mut self, message: Message, steps: &mut Pending) -> Result<(), NoMemory>
        ensures { (part : Part) (past : List Round)
            → IsInTurn part self.old past steps.old.steps (message ∷ []) 0 → IsSound part.run.script.roster message
            → same_node (receiver message) part.node ≡ true
            → OnOk result (IsInTurn part self.new past steps.new.steps [] 0) }
    {
        if self.is_over() {
            drop(message);
            return Ok(());
        }
        let made = self.manager.take(message);
        push_made(steps, made)
    }

    // It is time to send again what was sent in vain.
    fn repeat(&mut self, steps: &mut Pending) -> Result<(), NoMemory>
        ensures { (part : Part) (past : List Round) → IsInTurn part self.old past steps.old.steps [] 1
            → OnOk result (IsInTurn part self.new past steps.new.steps [] 0) }
    {
        if self.is_over() {
            return Ok(());
        }
        let made = self.manager.lapse();
        push_made(steps, made)
    }

    // The host makes its next step by itself: a token leaves, or its next line goes, or it goes on to end. Answers
    // whether it made one.
    fn make_step(&mut self, steps: &mut Pending) -> Result<bool, NoMemory>
        ensures { (part : Part) (past : List Round) → IsInTurn part self.old past steps.old.steps [] 0
            → OnOk result (IsInTurn part self.new past steps.new.steps [] 0) }
    {
        if self.is_over() {
            return Ok(false);
        }
        if self.manager.has_to_evict() {
            return self.evict(steps);
        }
        if self.manager.is_free() {
            if self.lines.are_gone() {
                return self.end(steps);
            }
            return self.go(steps);
        }
        Ok(false)
    }

    // A token leaves.
    fn evict(&mut self, steps: &mut Pending) -> Result<bool, NoMemory>
        requires live { IsOver self.old → ⊥ }
        ensures { (part : Part) (past : List Round) → IsInTurn part self.old past steps.old.steps [] 0
            → OnOk result (IsInTurn part self.new past steps.new.steps [] 0) }
    {
        let made = self.manager.evict();
        push_some(steps, made)
    }

    // All lines have gone: the host goes on to end.
    fn end(&mut self, steps: &mut Pending) -> Result<bool, NoMemory>
        requires live { IsOver self.old → ⊥ }
        requires free { IsFree (tables_of self.old.manager) }
        requires gone { length self.old.lines.lines ≤ self.old.lines.gone }
        ensures { (part : Part) (past : List Round) → IsInTurn part self.old past steps.old.steps [] 0
            → OnOk result (IsInTurn part self.new past steps.new.steps [] 0) }
    {
        if self.manager.may_end() {
            let made = self.manager.end();
            return push_some(steps, made);
        }
        Ok(false)
    }

    // The next line goes, where it can: a host does all but restart. Answers whether one went.
    fn go(&mut self, steps: &mut Pending) -> Result<bool, NoMemory>
        requires live { IsOver self.old → ⊥ }
        requires free { IsFree (tables_of self.old.manager) }
        ensures { (part : Part) (past : List Round) → IsInTurn part self.old past steps.old.steps [] 0
            → OnOk result (IsInTurn part self.new past steps.new.steps [] 0) }
    {
        if self.begun {
            return self.go_next(steps);
        }
        Ok(false)
    }

    // The same of a host that has begun.
    #[inline(never)]
    fn go_next(&mut self, steps: &mut Pending) -> Result<bool, NoMemory>
        requires live { IsOver self.old → ⊥ }
        requires free { IsFree (tables_of self.old.manager) }
        requires begun { self.old.begun ≡ true }
        ensures { (part : Part) (past : List Round) → IsInTurn part self.old past steps.old.steps [] 0
            → OnOk result (IsInTurn part self.new past steps.new.steps [] 0) }
    {
        let Some(line) = self.lines.next() else {
            return Ok(false);
        };
        if is_restart(&line.deed) {
            return Ok(false);
        }
        let stops = is_stop(&line.deed);
        let made = deed_step(&mut self.manager, line);
        self.stopped = stops;
        self.lines.go();
        push_one(steps, made)
    }

    // Makes its own steps, as many as there are now.
    fn go_on(&mut self, steps: &mut Pending) -> Result<(), NoMemory>
        ensures { (part : Part) (past : List Round) → IsInTurn part self.old past steps.old.steps [] 0
            → OnOk result (IsInTurn part self.new past steps.new.steps [] 0) }
    {
        for _ in 0..OWN_STEPS_MAX {
            let made = self.make_step(steps)?;
            if !made {
                return Ok(());
            }
        }
        Ok(())
    }

    // The steps of calls that were answered since the last turn are handed in.
    fn hand_in(&mut self, steps: &mut Pending) -> Result<(), NoMemory>
        requires none { steps.old.steps ≡ [] }
        ensures { (part : Part) (past : List Round) (made : List StepOf) (given : Option GivenOf)
            → Stands part self.old past made
            → OnOk result (IsInTurn part self.new (record { steps = made; given = given } ∷ past) steps.new.steps
            (message_in given) (lapse_in given)) }
    {
        if self.stopped {
            return Ok(());
        }
        self.between.hand_in(&self.manager, &self.lines, steps)
    }

    // Takes what was given, if anything was.
    fn take_given(&mut self, given: Option<Given>, steps: &mut Pending) -> Result<(), NoMemory>
        ensures { (part : Part) (past : List Round)
            → IsInTurn part self.old past steps.old.steps (message_in given) (lapse_in given) → IsGivenTo part given
            → IfSome given (WasGiven past) → OnOk result (IsInTurn part self.new past steps.new.steps [] 0) }
    {
        match given {
            Some(given) => self.take(given, steps),
            None => Ok(()),
        }
    }

    // Hands in what waits, takes what was given, and makes its own steps.
    fn take_turn(&mut self, given: Option<Given>, steps: &mut Pending) -> Result<(), NoMemory>
        requires none { steps.old.steps ≡ [] }
        ensures { (part : Part) (past : List Round) (made : List StepOf) → Stands part self.old past made
            → IsGivenTo part given
            → OnOk result (IsInTurn part self.new (record { steps = made; given = given } ∷ past)
            steps.new.steps [] 0) }
    {
        let handed = self.hand_in(steps);
        let taken = self.take_given(given, steps);
        match both(handed, taken) {
            Ok(()) => self.go_on(steps),
            Err(NoMemory) => Err(NoMemory),
        }
    }

    // What came of a turn: something was given or made, or all is done, or neither.
    fn turned(&self, came: bool, steps: &Pending) -> Turned
        ensures quiet { (result ≡ Worked → ⊥) → (came ≡ false) × (steps.now.steps ≡ []) }
        ensures gone { result ≡ Ended → length self.now.lines.lines ≤ self.now.lines.gone }
        ensures over { result ≡ Ended → IsOver self.now }
        ensures undone { result ≡ Idle → length self.now.lines.lines ≤ self.now.lines.gone → IsOver self.now → ⊥ }
    {
        if came || !steps.as_slice().is_empty() {
            return Turned::Worked;
        }
        if self.lines.are_gone() && self.is_over() {
            return Turned::Ended;
        }
        Turned::Idle
    }
}

// The step that a machine has made is handed in next.
fn push_made(steps: &mut Pending, made: Result<Step, NoMemory>) -> Result<(), NoMemory>
    ensures made { OnOk result (IsOk made) }
    ensures ok { IfOk made (λ step. OnOk result (steps.new.steps ≡ steps.old.steps ++ step ∷ [])) }
{
    match made {
        Ok(step) => push(steps, step),
        Err(NoMemory) => Err(NoMemory),
    }
}

// The same, and true is answered.
fn push_one(steps: &mut Pending, made: Result<Step, NoMemory>) -> Result<bool, NoMemory>
    ensures made { OnOk result (IsOk made) }
    ensures ok { IfOk made (λ step. OnOk result (steps.new.steps ≡ steps.old.steps ++ step ∷ [])) }
{
    match push_made(steps, made) {
        Ok(()) => Ok(true),
        Err(NoMemory) => Err(NoMemory),
    }
}

// The same of a machine that may have made none. Answers whether it has.
fn push_some(steps: &mut Pending, made: Result<Option<Step>, NoMemory>) -> Result<bool, NoMemory>
    ensures made { OnOk result (IsOk made) }
    ensures ok { IfOk made (λ step. MatchOption step (OnOk result (steps.new.steps ≡ steps.old.steps))
        (λ step. OnOk result (steps.new.steps ≡ steps.old.steps ++ step ∷ []))) }
{
    match made {
        Ok(None) => Ok(false),
        Ok(Some(step)) => push_one(steps, Ok(step)),
        Err(NoMemory) => Err(NoMemory),
    }
}

// What became of a call that was answered without memory, once that is noted.
fn answered(noted: Result<(), NoMemory>, count: usize) -> Result<Spoken, NoMemory>
    ensures noted { OnOk result (IsOk noted) }
    ensures count { IfOk result (λ spoken. spoken ≡ Answered count) }
{
    match noted {
        Ok(()) => Ok(Spoken::Answered(count)),
        Err(NoMemory) => Err(NoMemory),
    }
}

// Whether a line makes its node restart, and whether it stops it.
fn is_restart(deed: &Deed) -> bool
    ensures { IsTrue result ↔ (deed.now ≡ Restart) }
{
    matches!(deed, Deed::Restart)
}

fn is_stop(deed: &Deed) -> bool
    ensures { result ≡ is_stop deed.now }
{
    matches!(deed, Deed::Stop)
}

// What a line makes a host do, which is free.
fn deed_step(manager: &mut Manager, line: &Line) -> Result<Step, NoMemory>
    requires free { IsFree (tables_of manager.old) }
    requires deed { line.now.deed ≡ Restart → ⊥ }
    ensures { IfOk result
        (λ step. DoesLine (tables_of manager.old) (tables_of manager.new) line.now.number line.now.deed step) }
{
    match &line.deed {
        Deed::Call(call) => manager.call(line.number, call),
        Deed::Raise(flag) => Ok(manager.raise(line.number, flag)),
        Deed::Await(flag) => Ok(manager.wait_for(line.number, flag)),
        Deed::Stop => manager.stop(line.number),
        Deed::Restart => unreachable!(),
    }
}

impl<'a> Node for HostNode<'a> {
    ghost use Rattle.host_node.specs.Standing.{Stands};
    ghost use Rattle.hub_node.specs.Lines.{next_number};
    ghost use Rattle.host_node.specs.Laws.{Breaks, LacksMemory, hands_in, lacks};

    ghost tells = { Unit {0} };

    ghost stands = { Stands };

    ghost stays = { λ old new. Unit {0} };

    ghost failed = { LacksMemory };

    ghost broken = { Breaks };

    ghost next = { λ n. next_number n.lines };

    fn waiting(&self) -> Option<u32> {
        self.lines.waiting()
    }

    fn work(&mut self, given: Option<Given>, steps: &mut Pending) -> Result<Turned, NodeFault> {
        let came = given.is_some();
        let Ok(()) = self.take_turn(given, steps) else {
            return Err(NodeFault::Memory);
        };
        Ok(self.turned(came, steps))
    }

    ghost hands_in = { hands_in };

    ghost stays_so = { λ a. tt };

    ghost stays_on = { λ a b c h k. tt };

    ghost fails_on = { λ fault a b c h k. k };

    ghost lacks = { lacks };
}
