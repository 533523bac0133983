ghost use Rattle.std.specs.Prelude.{◌≡◌, ◌+◌, ◌-◌, ◌≤◌, ◌<◌, ◌∷◌, ◌++◌, [], IsOk, OnOk, OnErr};

use base_types::{Items, NoMemory};
use run_rules::Step;
use std::alloc::Global;
use std::marker::Model;
use std::mem;

/// A node's steps that aren't in the hub's list yet. Contracts see them, in order, and how many more there is room for.
#[derive(Drop)]
pub struct Pending {
    steps: Vec<Step>,
}

impl Model for Pending {
    ghost use Rattle.std.specs.Prelude.{◌-◌, vec_len, vec_capacity};
    ghost use Rattle.hub_board.specs.Pendings.{Waiting};

    ghost Value = { Waiting };

    ghost view = { λ p. record { steps = p.steps.items; spare = vec_capacity p.steps - vec_len p.steps } };
}

impl Pending {
    /// No steps, and no room. It takes no memory.
    pub fn new(alloc: Global) -> Pending
        ensures { result ≡ record { steps = []; spare = 0 } }
    {
        Pending {
            steps: Vec::new(alloc),
        }
    }

    /// Makes room for so many more steps, and where there is none, for as many as there are at least. The only error is
    /// that memory ran out; then nothing changes.
    pub fn reserve(&mut self, steps: usize) -> Result<(), NoMemory>
        ensures steps { self.new.steps ≡ self.old.steps }
        ensures room { OnOk result (steps ≤ self.new.spare) }
        ensures err { OnErr result (self.new ≡ self.old) }
    {
        if self.steps.capacity().saturating_sub(self.steps.len()) < steps {
            self.steps.reserve_exact(steps.max(self.steps.len()))?;
        }
        Ok(())
    }

    /// Adds a step, whose lists keep no room for more. The only error is that memory ran out; then it isn't added. With
    /// room for it that can't be, and there is room for one less.
    pub fn push(&mut self, mut step: Step) -> Result<(), NoMemory>
        ensures ok { OnOk result (self.new.steps ≡ self.old.steps ++ step ∷ []) }
        ensures err { OnErr result (self.new.steps ≡ self.old.steps) }
        ensures room { 0 < self.old.spare → IsOk result }
        ensures less { 0 < self.old.spare → self.new.spare + 1 ≡ self.old.spare }
    {
        fit_lists(&mut step);
        if self.steps.len() < self.steps.capacity() {
            self.steps.push_reserved(step);
            return Ok(());
        }
        self.steps.push(step)?;
        Ok(())
    }

    /// The memory that the steps lie in.
    pub fn alloc(&self) -> Global {
        *self.steps.allocator()
    }

    /// The steps. It takes no memory.
    pub fn as_slice(&self) -> &[Step]
        ensures { result.now ≡ self.now.steps }
    {
        self.steps.as_slice()
    }

    /// Hands the steps out, with no room for more: all that is handed in stays to the end of the run. It takes no
    /// memory.
    pub fn into_items(self) -> Items<Step>
        ensures { result ≡ self.steps }
    {
        let mut steps = self.steps;
        steps.shrink_to_fit();
        Items::from_vec(steps)
    }
}

// The lists of a step that nodes fill one by one have no room for more: it stays to the end of the run.
fn fit_lists(step: &mut Step)
    ensures { step.new ≡ step.old }
{
    fit(&mut step.answers);
    fit(&mut step.made);
    fit(&mut step.applied);
    fit(&mut step.sent);
}

// Gives back the room that a list has for more.
fn fit<T: Drop>(items: &mut Items<T>)
    ensures { items.new ≡ items.old }
{
    let alloc = items.alloc();
    let mut elements = mem::replace(items, Items::new(alloc)).into_vec();
    elements.shrink_to_fit();
    drop(mem::replace(items, Items::from_vec(elements)));
}
