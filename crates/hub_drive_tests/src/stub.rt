//! A node that makes no steps.
ghost use Rattle.std.specs.Prelude.{◌≡◌, false, true};
ghost use Rattle.hub_board.specs.declared.given.Turned.TheVariants.{Idle, Worked};
ghost use Rattle.hub_drive_tests.specs.Stubs.{may_rest};

use hub_node::{Node, NodeFault};
use hub_turns::{Given, Pending, Turned};
use std::alloc::Global;
use std::sync::Arc;
use std::sync::atomic::{AtomicU64, Ordering};

/// What a node does beside taking its turns.
#[derive(Clone, Copy, Debug, PartialEq, Eq)]
pub enum Part {
    /// Nothing.
    None,
    /// In its first turn it looks so often at most whether another has begun its second.
    Waits(u64),
    /// It says that it has begun its second turn.
    Tells,
    /// Its store fails at this turn, from 1 on.
    Fails(u32),
    /// From this turn on, from 1, it does nothing, and isn't done. It is a server.
    Rests(u32),
}

/// A node that takes so many turns before it is done, and what it found.
#[derive(Drop)]
pub struct Stub {
    /// Its place among the nodes.
    pub place: usize,
    pub part: Part,
    pub left: u32,
    pub taken: u32,
    /// The number of its next line, if one is left.
    pub line: Option<u32>,
    pub word: Arc<AtomicU64, Global>,
    pub met: bool,
}

// Looks so often at most whether a word was said.
fn hears(word: &AtomicU64, often: u64) -> bool {
    for _ in 0..often {
        if word.load(Ordering::SeqCst) == 1 {
            return true;
        }
    }
    false
}

// What came of a turn, with so many left, of a node that may rest.
fn turned(came: bool, left: u32, rests: bool) -> Turned
    ensures quiet { (result ≡ Worked → ⊥) → came ≡ false }
    ensures idle { result ≡ Idle → rests ≡ true }
{
    if came {
        return Turned::Worked;
    }
    if rests {
        return Turned::Idle;
    }
    if left > 0 {
        return Turned::Worked;
    }
    Turned::Ended
}

impl Stub {
    // Whether it does nothing, in a turn that it has begun.
    fn rests(&self) -> bool
        ensures { result ≡ true → may_rest self.now.part ≡ true }
    {
        match self.part {
            Part::Rests(turn) => turn <= self.taken,
            _ => false,
        }
    }

    // What it does beside, in a turn that it has begun. Answers whether its store fails.
    fn act(&mut self) -> bool
        ensures { self.new.part ≡ self.old.part }
    {
        match self.part {
            Part::None | Part::Rests(_) => false,
            Part::Waits(often) => {
                if self.taken == 1 {
                    self.met = hears(&self.word, often);
                }
                false
            }
            Part::Tells => {
                if self.taken == 2 {
                    self.word.store(1, Ordering::SeqCst);
                }
                false
            }
            Part::Fails(turn) => self.taken == turn,
        }
    }
}

impl Node for Stub {
    ghost use Rattle.hub_drive_tests.specs.Stubs.{StandsIdle, hands_in};

    ghost tells = { ⊥ };

    ghost stands = { StandsIdle };

    ghost stays = { λ a b. Unit {0} };

    ghost failed = { λ fault a b. Unit {0} };

    ghost broken = { λ part n past. Unit {0} };

    ghost next = { λ n. n.line };

    fn waiting(&self) -> Option<u32> {
        self.line
    }

    fn work(&mut self, given: Option<Given>, steps: &mut Pending) -> Result<Turned, NodeFault> {
        let came = given.is_some();
        drop(given);
        let _none = steps;
        self.taken = self.taken.saturating_add(1);
        self.left = self.left.saturating_sub(1);
        let rests = self.rests();
        if self.act() {
            return Err(NodeFault::Store);
        }
        Ok(turned(came, self.left, rests))
    }

    ghost hands_in = { hands_in };

    ghost stays_so = { λ a. tt };

    ghost stays_on = { λ a b c h k. tt };

    ghost fails_on = { λ fault a b c h k. tt };

    ghost lacks = { λ a. tt };
}
