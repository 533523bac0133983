//! The machine of a host, with what is known of the file that was read last.
ghost use Rattle.std.specs.Prelude.{◌≡◌, ◌≢◌, ◌↔◌, ◌≤◌, [], length, IfOk, IsSome, IsTrue, List};
ghost use Rattle.std.specs.Prelude.{IfSome, MatchOption, None};
ghost use Rattle.script_lines.specs.declared.script.Deed.TheVariants.{Await, Call as MakesCall, Raise, Stop};
ghost use Rattle.script_lines.specs.declared.script.Script.{Script};
ghost use Rattle.run_rules.specs.declared.step.Cause.TheVariants.{Evict, Lapse};
ghost use Rattle.tree_calls.specs.Rosters.{user_of};
ghost use Rattle.host_tables.specs.Machine.{IsParted};
ghost use Rattle.host_manager.specs.Running.{EndRight, IsRunning, LineRight, OwnRight, StopRight, TakeRight};
ghost use Rattle.host_manager.specs.Closing.{MayEnd};
ghost use Rattle.host_manager.specs.Due.{EndDue, IsOwn, LineDue, OwnDue, TakeDue};
ghost use Rattle.host_manager.specs.Spoken.{HasRoom, IsFree, SpokenRight, answered_step, tables_of};
ghost use Rattle.host_tells.specs.Knows.{IsLast};
ghost use Rattle.host_tells.specs.Spoken.{StaysSilent};
ghost use Rattle.run_rules.specs.declared.step.Step.{Step as StepOf};

use crate::machine::Machine;
use base_types::{HostId, Name, NoMemory};
use host_tells::Last;
use message_types::Message;
use run_rules::Step;
use std::alloc::Global;
use std::marker::Model;
use tree_calls::{Call, Reply, Roster};

/// The machine of a host. Its calls answer steps, each the next one of the host. After want of memory nothing is
/// promised of it. Contracts see it without what is known of the file that was read last.
pub struct Manager {
    machine: Machine,
    // holds of the machine as it is: each call but `answer_into` forgets it
    last: Last,
}

impl Drop for Manager {
    fn drop(self) {
        let Manager {
            machine: _,
            last: _,
        } = self;
    }
}

impl Model for Manager {
    ghost use Rattle.host_manager.specs.contracts.machine.Machine.{the_row as machine_row};
    ghost use Rattle.host_manager.specs.declared.machine.Machine.{Machine};
    ghost use Rattle.host_tells.specs.Knows.{IsLast};
    ghost use Rattle.std.specs.Coded.{codes};

    ghost Value = { Machine };

    ghost coded = { Prim.hlevel (codes, machine_row.coded) };

    ghost view = { λ m. m.machine };

    ghost invariant = { λ m. IsLast m.machine.tables m.last };
}

impl Manager {
    /// A host before its first step. It is declared by the roster. The only error is NoMemory: where the roster has no
    /// server, or more than 255, and else where memory ran out.
    #[tactic(auto, using(host_tells::proofs::Placing::forgotten))]
    pub fn new(alloc: Global, host: HostId, roster: &Roster) -> Result<Manager, NoMemory>
        requires { IsSome (user_of roster.now host) }
        ensures host { IfOk result (λ manager. (tables_of manager).host ≡ host) }
        ensures servers { IfOk result (λ manager.
            (1 ≤ length roster.now.capacity) × (length roster.now.capacity ≤ 255)) }
        ensures rests { IfOk result (λ manager.
            (script : Script) → script.roster ≡ roster.now → IsRunning script (tables_of manager) []) }
    {
        let last = Last::new(alloc)?;
        Ok(Manager {
            machine: Machine::new(alloc, host, roster)?,
            last,
        })
    }

    /// Whether no call is open and no token has to be evicted, so that a line may go. It takes no memory.
    pub fn is_free(&self) -> bool
        ensures { IsTrue result ↔ IsFree (tables_of self.now) }
    {
        self.machine.is_free()
    }

    /// Whether each server that was greeted has said Bye. It takes no memory.
    pub fn has_parted(&self) -> bool
        ensures { IsTrue result ↔ IsParted (tables_of self.now).sites }
    {
        self.machine.has_parted()
    }

    /// How many calls were begun. It takes no memory.
    pub fn begun(&self) -> u32
        ensures { result ≡ (tables_of self.now).begun }
    {
        self.machine.begun()
    }

    /// The line of this number makes a call: it is answered at once, or left open and asked about. The machine is free.
    #[tactic(auto, using(host_tells::proofs::Placing::forgotten))]
    pub fn call(&mut self, line: u32, call: &Call) -> Result<Step, NoMemory>
        requires { IsFree (tables_of self.old) }
        ensures right { IfOk result (λ step.
            LineRight (tables_of self.old) (tables_of self.new) line (MakesCall call.now) step) }
        ensures own { IfOk result (λ step. IsOwn (tables_of self.old) step) }
        ensures due { IfOk result (LineDue (tables_of self.old) line (MakesCall call.now)) }
    {
        self.last.forget();
        self.machine.call(line, call)
    }

    /// The next line makes a call that is a Read, Stat, List or GetAcl, and its need is covered: the reply's spelling
    /// is put into `out`, and its length answered. The step is the line's, with that one answer and nothing else.
    /// None, and then nothing changes, where the call isn't one of these, its need isn't covered, the reply has no
    /// spelling that can be read back (more than 65,535 names, or rights that are none), `out` is too short, or
    /// 2^32 - 1 calls were begun. The machine is free. It takes no memory.
    pub fn answer_into(&mut self, call: &Call, out: &mut [u8]) -> Option<usize>
        requires { IsFree (tables_of self.old) }
        ensures { (script : Script) (past : List StepOf) → IsRunning script (tables_of self.old) past
            → MatchOption result (StaysSilent (tables_of self.old) (tables_of self.new) call.now (length out.old))
            (λ count. SpokenRight (tables_of self.old) (tables_of self.new) call.now out.new count) }
    {
        self.machine.answer_again(&mut self.last, call, out)
    }

    /// The step of a line whose call, of this number, was answered by `answer_into`. The only error is that memory ran
    /// out.
    pub fn answered_step(
        &self,
        line: u32,
        k: u32,
        call: Call,
        reply: Reply,
    ) -> Result<Step, NoMemory>
        ensures { IfOk result (λ step. step ≡ answered_step (tables_of self.now).host line k call reply) }
    {
        self.machine.answered_step(line, k, call, reply)
    }

    /// The line of this number raises a flag. The machine is free. It takes no memory.
    pub fn raise(&self, line: u32, flag: &Name) -> Step
        requires { IsFree (tables_of self.now) }
        ensures right { LineRight (tables_of self.now) (tables_of self.now) line (Raise flag.now) result }
        ensures own { IsOwn (tables_of self.now) result }
        ensures due { LineDue (tables_of self.now) line (Raise flag.now) result }
    {
        self.machine.raise(line, flag)
    }

    /// The line of this number awaits a flag, which is raised. The machine is free. It takes no memory.
    pub fn wait_for(&self, line: u32, flag: &Name) -> Step
        requires { IsFree (tables_of self.now) }
        ensures right { LineRight (tables_of self.now) (tables_of self.now) line (Await flag.now) result }
        ensures own { IsOwn (tables_of self.now) result }
        ensures due { LineDue (tables_of self.now) line (Await flag.now) result }
    {
        self.machine.wait_for(line, flag)
    }

    /// A message comes, which is sound and for this host.
    #[tactic(auto, using(host_tells::proofs::Placing::forgotten))]
    pub fn take(&mut self, message: Message) -> Result<Step, NoMemory>
        ensures right { IfOk result (λ step. TakeRight (tables_of self.old) (tables_of self.new) message step) }
        ensures own { IfOk result (IsOwn (tables_of self.old)) }
        ensures due { IfOk result (TakeDue (tables_of self.old) message) }
    {
        self.last.forget();
        self.machine.take(message)
    }

    /// It is time to send again what was sent in vain.
    #[tactic(auto, using(host_tells::proofs::Placing::forgotten))]
    pub fn lapse(&mut self) -> Result<Step, NoMemory>
        ensures right { IfOk result (λ step. OwnRight Lapse (tables_of self.old) (tables_of self.new) step) }
        ensures own { IfOk result (IsOwn (tables_of self.old)) }
        ensures due { IfOk result (OwnDue (tables_of self.old)) }
    {
        self.last.forget();
        self.machine.lapse()
    }

    /// Whether a token has to leave: no call is open, and the host caches more than it may. It takes no memory.
    pub fn has_to_evict(&self) -> bool
        ensures { IsTrue result ↔ (((tables_of self.now).call ≡ None) × (HasRoom (tables_of self.now) → ⊥)) }
    {
        self.machine.has_to_evict()
    }

    /// Whether the end has a step to make now: a token is held, or each give-back is known as applied, and Bye is to be
    /// said to a server. Then `end` makes one. It takes no memory.
    pub fn may_end(&self) -> bool
        ensures { IsTrue result ↔ MayEnd (tables_of self.now) }
    {
        self.machine.may_end()
    }

    /// The token that was last used longest ago leaves; None where a call is open, or the host caches no more than it
    /// may.
    #[tactic(auto, using(host_tells::proofs::Placing::forgotten))]
    pub fn evict(&mut self) -> Result<Option<Step>, NoMemory>
        ensures right { IfOk result (λ step. MatchOption step (tables_of self.new ≡ tables_of self.old)
            (λ step. OwnRight Evict (tables_of self.old) (tables_of self.new) step)) }
        ensures none { IfOk result (λ step.
            step ≡ None → (tables_of self.old).call ≡ None → HasRoom (tables_of self.old)) }
        ensures own { IfOk result (λ made. IfSome made (IsOwn (tables_of self.old))) }
        ensures due { IfOk result (λ made. IfSome made (OwnDue (tables_of self.old))) }
    {
        self.last.forget();
        self.machine.evict()
    }

    /// All lines have gone, and the machine is free: the next step of the end, None where there is none to make now.
    #[tactic(auto, using(host_tells::proofs::Placing::forgotten))]
    pub fn end(&mut self) -> Result<Option<Step>, NoMemory>
        requires { IsFree (tables_of self.old) }
        ensures right { IfOk result (λ step. MatchOption step (tables_of self.new ≡ tables_of self.old)
            (λ step. EndRight (tables_of self.old) (tables_of self.new) step)) }
        ensures some { IfOk result (λ step. MayEnd (tables_of self.old) → step ≢ None) }
        ensures own { IfOk result (λ made. IfSome made (IsOwn (tables_of self.old))) }
        ensures due { IfOk result (λ made. IfSome made (EndDue (tables_of self.old))) }
    {
        self.last.forget();
        self.machine.end()
    }

    /// The line of this number stops the host, which is free: its last step.
    #[tactic(auto, using(host_tells::proofs::Placing::forgotten))]
    pub fn stop(&mut self, line: u32) -> Result<Step, NoMemory>
        requires { IsFree (tables_of self.old) }
        ensures right { IfOk result (λ step. StopRight (tables_of self.old) line step) }
        ensures own { IfOk result (IsOwn (tables_of self.old)) }
        ensures due { IfOk result (LineDue (tables_of self.old) line Stop) }
    {
        self.last.forget();
        self.machine.stop(line)
    }
}
