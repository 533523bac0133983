//! A server's machine beside its store, and the steps that it makes.
ghost use Rattle.std.specs.Prelude.{IfOk, OnOk};
ghost use Rattle.server_exporter_tests.specs.Serving.{HasTwo, Works};

use crate::sound::is_for;
use crate::starting::{SERVER, roster};
use crate::stepping::push_step;
use crate::storing::look;
use crate::wording::message;
use anyhow::{Result, bail};
use base_types::Items;
use message_types::Message;
use server_exporter::{Exporter, Keeper, store_all};
use std::alloc::Global;
use std::mem::replace;
use store_memory::{Act, MapStore};
use tree_calls::Roster;
use tree_test_words::{Text, Words};

/// A machine, and its store.
#[derive(Drop)]
pub struct Machine {
    pub exporter: Exporter,
    pub keeper: Keeper<MapStore>,
    /// What waits to be stored.
    pub waiting: Items<Act>,
}

impl Machine {
    /// Before its first epoch and its first act.
    pub fn new(alloc: Global) -> Result<Machine>
        ensures { IfOk result Works }
    {
        let roster = roster(alloc)?;
        let machine = Machine::for_hosts(alloc, &roster);
        drop(roster);
        machine
    }

    fn for_hosts(alloc: Global, roster: &Roster) -> Result<Machine>
        requires { HasTwo roster.now }
        ensures { IfOk result Works }
    {
        let store = MapStore::new(alloc, SERVER, roster)?;
        let exporter = Exporter::new(alloc, SERVER, 0, roster)?;
        Ok(Machine {
            exporter,
            keeper: Keeper::new(store),
            waiting: Items::new(alloc),
        })
    }
}

/// What is told to a row.
pub fn told(alloc: Global, machine: &mut Machine, row: &str) -> Result<String>
    requires { Works machine.old }
    ensures { OnOk result (Works machine.new) }
{
    let mut words = Words::new(alloc, row);
    let mut text = Text::new(alloc);
    tell(machine, &mut words, &mut text)?;
    text.line()
}

// Writes the step that a machine makes, or what is asked of its store.
fn tell(machine: &mut Machine, words: &mut Words, text: &mut Text) -> Result<()>
    requires { Works machine.old }
    ensures { OnOk result (Works machine.new) }
{
    match words.next() {
        "new" => begin_anew(machine, words.alloc()),
        "from" => take(machine, words, text),
        "settle" => settle(machine, text),
        "lapse" => lapse(machine, text),
        "line" => line(machine, words, text),
        "restart" => restart(machine, words, text),
        word => ask(machine, word, words, text),
    }
}

// `new`: another machine, over another store.
fn begin_anew(machine: &mut Machine, alloc: Global) -> Result<()>
    ensures { OnOk result (Works machine.new) }
{
    let fresh = Machine::new(alloc)?;
    drop(replace(machine, fresh));
    Ok(())
}

// `from HOST EPOCH WORD ..`
fn take(machine: &mut Machine, words: &mut Words, text: &mut Text) -> Result<()>
    requires { Works machine.old }
    ensures { OnOk result (Works machine.new) }
{
    let message = message(words)?;
    if !machine.exporter.is_rested() || !is_for(&machine.exporter.tables, &message) {
        drop(message);
        bail!("not to be taken");
    }
    let step = machine
        .exporter
        .gather(&mut machine.keeper, &mut machine.waiting, message)?;
    push_step(text, &step);
    drop(step);
    Ok(())
}

// `settle`
fn settle(machine: &mut Machine, text: &mut Text) -> Result<()>
    requires { Works machine.old }
    ensures { OnOk result (Works machine.new) }
{
    store_all(&mut machine.keeper, &mut machine.waiting)?;
    let step = machine.exporter.settle(&mut machine.keeper)?;
    push_step(text, &step);
    drop(step);
    Ok(())
}

// `lapse`
fn lapse(machine: &mut Machine, text: &mut Text) -> Result<()>
    requires { Works machine.old }
    ensures { OnOk result (Works machine.new) }
{
    if !machine.exporter.is_rested() {
        bail!("not rested");
    }
    let step = machine.exporter.lapse()?;
    push_step(text, &step);
    drop(step);
    Ok(())
}

// `line NUMBER`
fn line(machine: &Machine, words: &mut Words, text: &mut Text) -> Result<()> {
    let number = words.number()?;
    if !machine.exporter.is_rested() {
        bail!("not rested");
    }
    let step = machine.exporter.line(number);
    push_step(text, &step);
    drop(step);
    Ok(())
}

// `restart LINE`
fn restart(machine: &mut Machine, words: &mut Words, text: &mut Text) -> Result<()>
    requires { Works machine.old }
    ensures { OnOk result (Works machine.new) }
{
    let number = words.number()?;
    store_all(&mut machine.keeper, &mut machine.waiting)?;
    let step = machine.exporter.restart(&mut machine.keeper, number)?;
    push_step(text, &step);
    drop(step);
    Ok(())
}

// `is`: what is so of the machine. Else what is asked of its store, which stores first what waits.
fn ask(machine: &mut Machine, word: &str, words: &mut Words, text: &mut Text) -> Result<()>
    requires { Works machine.old }
    ensures { OnOk result (Works machine.new) }
{
    if word == "is" {
        push_state(text, machine);
        return Ok(());
    }
    store_all(&mut machine.keeper, &mut machine.waiting)?;
    look(
        &machine.exporter.tables,
        &mut machine.keeper,
        word,
        words,
        text,
    )
}

// Whether it is rested, and alone, whether something waits to be stored, and in which epoch.
fn push_state(text: &mut Text, machine: &Machine) {
    text.number("epoch ", machine.exporter.tables.hosts.epoch);
    if machine.exporter.is_rested() {
        text.word(" rested");
    }
    if machine.exporter.is_alone() {
        text.word(" alone");
    }
    if !machine.waiting.is_empty() {
        text.word(" waiting");
    }
}
