ghost use Rattle.std.specs.Prelude.{◌≡◌};

use base_types::Items;

/// Counts the calls of a thing in memory, its faults, and the growths for which there was no memory. It says which
/// calls fail: those whose numbers are listed, and all behind a limit, where there is one. The first call has number 1.
/// A count stays at its last value.
#[derive(Drop)]
pub struct Calls {
    /// The numbers of the calls that are to fail.
    pub failing: Items<u64>,
    /// The number of the last call that may pass, where there is a limit.
    pub passes: Option<u64>,
    /// How many calls were made.
    pub made: u64,
    /// How many calls failed.
    pub faults: u64,
    /// How many growths found no memory.
    pub refused: u64,
}

impl Calls {
    ghost use Rattle.base_outside.specs.Calls.{new_calls, is_to_fail, counted, after_call, growth_refused};

    /// No calls so far.
    pub fn new(failing: Items<u64>, passes: Option<u64>) -> Calls
        ensures { result ≡ new_calls failing passes }
    {
        Calls {
            failing,
            passes,
            made: 0,
            faults: 0,
            refused: 0,
        }
    }

    /// Counts one call, and answers whether it is to fail; one that is counts as a fault.
    pub fn next_fails(&mut self) -> bool
        ensures answer { result ≡ is_to_fail (counted self.old) }
        ensures after { self.new ≡ after_call self.old }
    {
        self.made = self.made.saturating_add(1);
        let fails = self.is_to_fail();
        if fails {
            self.faults = self.faults.saturating_add(1);
        }
        fails
    }

    /// Counts a growth for which there was no memory, which is a fault too.
    pub fn refuse_growth(&mut self)
        ensures { self.new ≡ growth_refused self.old }
    {
        self.faults = self.faults.saturating_add(1);
        self.refused = self.refused.saturating_add(1);
    }

    fn is_to_fail(&self) -> bool
        ensures { result ≡ is_to_fail self.now }
    {
        let behind = match self.passes {
            Some(passes) => passes < self.made,
            None => false,
        };
        self.failing.as_slice().contains(&self.made) || behind
    }
}
