//! Runs of batches of acts, one behind the other, on stores of any kind.
ghost use Rattle.std.specs.Prelude.{IsTrue, IfOk, OnOk};
ghost use Rattle.store_test_rows.specs.Standing.{IsMendable, Stands};

use crate::doing::acts;
use crate::tried::Tried;
use anyhow::{Result, bail};
use std::alloc::Global;
use store_memory::Store;
use tree_calls::Roster;
use tree_test_words::{Text, Words};

/// Acts with `;` between them, in batches with `|` between them, and those that were done before.
#[derive(Clone, Copy)]
pub struct Run<'a> {
    pub alloc: Global,
    pub roster: &'a Roster,
    pub base: &'a str,
    pub acts: &'a str,
}

/// How many acts of a run were answered, and how many may be done.
#[derive(Clone, Copy)]
pub struct Reached {
    pub answered: usize,
    pub begun: usize,
}

/// All that a store tells.
pub fn all_of<S: Store + Drop>(
    alloc: Global,
    tried: &mut Tried<S>,
    roster: &Roster,
) -> Result<String>
    requires stands { Stands S.view roster.now tried.old }
    ensures stands { OnOk result (Stands S.view roster.now tried.new) }
{
    let mut text = Text::new(alloc);
    tried.tell_all(roster, &mut text)?;
    text.line()
}

// Does a batch of acts, and writes what became of them, or which fault came. Answers whether none came.
fn batch_done<S: Store + Drop>(
    alloc: Global,
    tried: &mut Tried<S>,
    roster: &Roster,
    batch: &str,
    text: &mut Text,
) -> Result<bool>
    requires stands { Stands S.view roster.now tried.old }
    ensures mendable { OnOk result (IsMendable S.view roster.now tried.new) }
    ensures stands { IfOk result (λ passed. IsTrue passed → Stands S.view roster.now tried.new) }
{
    let acts = acts(&Words::new(alloc, batch.trim()))?;
    let passed = tried.apply(roster, acts.as_slice(), text);
    drop(acts);
    passed
}

// Does a batch of acts, in which no fault comes.
fn batch_done_well<S: Store + Drop>(
    alloc: Global,
    tried: &mut Tried<S>,
    roster: &Roster,
    batch: &str,
) -> Result<()>
    requires stands { Stands S.view roster.now tried.old }
    ensures stands { OnOk result (Stands S.view roster.now tried.new) }
{
    let mut text = Text::new(alloc);
    if !batch_done(alloc, tried, roster, batch, &mut text)? {
        bail!("a fault where none is due");
    }
    Ok(())
}

fn count(batch: &str) -> usize {
    batch.split(';').count()
}

impl<'a> Run<'a> {
    /// Does what was done before, and then the acts one by one. Answers what the store tells after none of them, the
    /// first, the first two and so on.
    pub fn firsts<S: Store + Drop>(self, tried: &mut Tried<S>) -> Result<Vec<String>>
        requires stands { Stands S.view self.roster.now tried.old }
    {
        self.do_base(tried)?;
        let mut firsts = Vec::new(self.alloc);
        firsts.push(all_of(self.alloc, tried, self.roster)?)?;
        for batch in self.acts.split('|') {
            self.push_firsts(tried, batch, &mut firsts)?;
        }
        Ok(firsts)
    }

    fn do_base<S: Store + Drop>(self, tried: &mut Tried<S>) -> Result<()>
        requires stands { Stands S.view self.roster.now tried.old }
        ensures stands { OnOk result (Stands S.view self.entry.roster.now tried.new) }
    {
        for batch in self.base.split('|') {
            if !batch.trim().is_empty() {
                batch_done_well(self.alloc, tried, self.roster, batch)?;
            }
        }
        Ok(())
    }

    fn push_firsts<S: Store + Drop>(
        self,
        tried: &mut Tried<S>,
        batch: &str,
        firsts: &mut Vec<String>,
    ) -> Result<()>
        requires stands { Stands S.view self.roster.now tried.old }
        ensures stands { OnOk result (Stands S.view self.entry.roster.now tried.new) }
    {
        for act in batch.split(';') {
            batch_done_well(self.alloc, tried, self.roster, act)?;
            firsts.push(all_of(self.alloc, tried, self.roster)?)?;
        }
        Ok(())
    }

    /// Does the batches up to one in which a fault comes.
    pub fn done_by<S: Store + Drop>(self, tried: &mut Tried<S>) -> Result<Reached>
        requires stands { Stands S.view self.roster.now tried.old }
    {
        let mut reached = Reached {
            answered: 0,
            begun: 0,
        };
        for batch in self.acts.split('|') {
            reached.begun = reached.begun.saturating_add(count(batch));
            let mut text = Text::new(self.alloc);
            if !batch_done(self.alloc, tried, self.roster, batch, &mut text)? {
                break;
            }
            reached.answered = reached.begun;
        }
        Ok(reached)
    }

    /// Does the batches, and one in which a fault comes again. Answers what is wrong then.
    pub fn mended<S: Store + Drop>(
        self,
        tried: &mut Tried<S>,
        firsts: &[String],
    ) -> Result<&'static str>
        requires stands { Stands S.view self.roster.now tried.old }
    {
        let mut faults = 0u64;
        let mut reached = Reached {
            answered: 0,
            begun: 0,
        };
        for batch in self.acts.split('|') {
            reached.begun = reached.begun.saturating_add(count(batch));
            let mut text = Text::new(self.alloc);
            if !batch_done(self.alloc, tried, self.roster, batch, &mut text)? {
                faults = faults.saturating_add(1);
                if text.line()?.as_str() != "failed" {
                    return Ok("another fault");
                }
                tried.reopen(self.roster)?;
                let told = all_of(self.alloc, tried, self.roster)?;
                if !is_among(firsts, reached, told.as_str()) {
                    return Ok("not the first acts");
                }
                batch_done_well(self.alloc, tried, self.roster, batch)?;
            }
            reached.answered = reached.begun;
        }
        Ok(if faults == 1 {
            ""
        } else {
            "no fault, or several"
        })
    }
}

/// Whether that is told after the first acts, no fewer than were answered, and none that wasn't begun.
pub fn is_among(firsts: &[String], reached: Reached, told: &str) -> bool {
    let begun = firsts.iter().take(reached.begun.saturating_add(1));
    let mut left = begun.skip(reached.answered);
    left.any(|first| first.as_str() == told)
}
