// Rows done to the log on a disk.
ghost use Rattle.std.specs.Prelude.{◌≡◌, ◌≤◌, length, OnOk, IfOk};
ghost use Rattle.disk_log.specs.Log.{state_of, slot_of, IsSoundLog};
ghost use Rattle.disk_log.specs.State.{IsOnly};
ghost use Rattle.disk_tests.specs.Ready.{IsReady};

use crate::acts::{Act, Change, act_of};
use crate::changes::acted;
use crate::looks::{filled_with, look_at, push_fills};
use base_types::Disk;
use disk_anode::{BLOCK, NodeFault};
use disk_layout::put_u32;
use disk_log::{Log, LogFault, Tx};
use std::alloc::Global;
use tree_test_words::Text;

// What acts were answered, joined by `; `, how many of them, and whether there was a log.
#[derive(Drop)]
pub struct Answers {
    pub text: Text,
    pub done: usize,
    pub fault: Option<LogFault>,
    apart: &'static str,
}

impl Answers {
    pub fn new(alloc: Global) -> Answers {
        Answers {
            text: Text::new(alloc),
            done: 0,
            fault: None,
            apart: "",
        }
    }

    // The answer to a further act begins.
    pub fn begin(&mut self) {
        self.text.word(self.apart);
        self.apart = "; ";
    }

    fn fail(&mut self, fault: NodeFault) {
        self.begin();
        self.text.word(match fault {
            NodeFault::Failed => "failed",
            NodeFault::Memory => "memory",
        });
    }
}

// Begins a transaction that fills pages from 1 on, three at most, with a byte each.
fn begun<D: Disk>(log: &mut Log<D>, fills: &[u8]) -> Result<Tx, LogFault>
    requires ready { IsReady D.tells D.view log.old }
    requires few { length fills.now ≤ 3 }
    ensures sound { OnOk result (IsSoundLog D.tells D.view log.new) }
    ensures only { IfOk result (λ tx. IsOnly (state_of log.new) (slot_of tx) 7) }
{
    let mut tx = log.begin(3)?;
    for (i, fill) in fills.iter().enumerate() {
        log.put(&mut tx, 1 + i as u32, &[*fill; 512])?;
    }
    Ok(tx)
}

// Ends such a transaction.
fn ended<D: Disk>(log: &mut Log<D>, fills: &[u8]) -> Result<(), LogFault>
    requires ready { IsReady D.tells D.view log.old }
    requires few { length fills.now ≤ 3 }
    ensures { OnOk result (IsReady D.tells D.view log.new) }
{
    let tx = begun(log, fills)?;
    log.end(tx);
    Ok(())
}

// Undoes such a transaction. Writes what the pages are within it, and how many entries are free.
fn undone<D: Disk>(log: &mut Log<D>, fills: [u8; 3], answers: &mut Answers) -> Result<(), NodeFault>
    requires { IsReady D.tells D.view log.old }
    ensures { OnOk result (IsReady D.tells D.view log.new) }
{
    let tx = begun(log, &fills)?;
    let fills = filled_with(log);
    let free = log.free();
    log.undo(tx);
    push_fills(answers, fills?);
    answers.text.number(" ", u64::from(free));
    Ok(())
}

// Ends so many transactions of the same pages, three at most.
fn batch<D: Disk>(log: &mut Log<D>, n: u32, pages: u8) -> Result<(), LogFault>
    requires ready { IsReady D.tells D.view log.old }
    requires few { pages ≤ 3 }
    ensures { OnOk result (IsReady D.tells D.view log.new) }
{
    for i in 0..n {
        let fills = [(i % 251) as u8; 3];
        ended(log, &fills[..pages as usize])?;
    }
    Ok(())
}

// Makes a checkpoint, where the generation isn't the last one.
fn placed<D: Disk>(log: &mut Log<D>) -> Result<(), LogFault>
    requires { IsReady D.tells D.view log.old }
    ensures { OnOk result (IsReady D.tells D.view log.new) }
{
    if log.generation() == u64::MAX {
        return Err(LogFault::NotALog(512));
    }
    log.checkpoint()?;
    Ok(())
}

fn forced<D: Disk>(log: &mut Log<D>) -> Result<(), LogFault>
    requires { IsReady D.tells D.view log.old }
    ensures { OnOk result (IsReady D.tells D.view log.new) }
{
    log.force()
}

// Writes a block that there is.
fn block_written<D: Disk>(log: &mut Log<D>, block: u32, bytes: &[u8; BLOCK]) -> Result<(), LogFault>
    requires { IsReady D.tells D.view log.old }
    ensures { OnOk result (IsReady D.tells D.view log.new) }
{
    if block < log.blocks() {
        log.write_block(block, bytes)?;
    }
    Ok(())
}

// A block by hand, which a pointer begins.
fn map_by_hand(pointer: u32) -> [u8; BLOCK] {
    let mut map = [0; BLOCK];
    put_u32(&mut map, 0, pointer);
    map
}

fn logged<D: Disk>(log: &mut Log<D>, act: Act) -> Result<(), LogFault>
    requires { IsReady D.tells D.view log.old }
    ensures { OnOk result (IsReady D.tells D.view log.new) }
{
    match act {
        Act::Fills(fills) => ended(log, &fills),
        Act::Batch(n, pages) => batch(log, n, pages.min(3)),
        Act::Force => forced(log),
        Act::Checkpoint => placed(log),
        Act::Block(block, byte) => block_written(log, block, &[byte; BLOCK]),
        Act::Map(block, pointer) => block_written(log, block, &map_by_hand(pointer)),
        Act::Change(_, _, _) | Act::Undone(_) | Act::Look(_) => Ok(()),
    }
}

fn change_told<D: Disk>(
    alloc: Global,
    log: &mut Log<D>,
    page: u32,
    change: Change,
    is_forced: bool,
    answers: &mut Answers,
) -> Result<(), NodeFault>
    requires { IsReady D.tells D.view log.old }
    ensures { OnOk result (IsReady D.tells D.view log.new) }
{
    let number = acted(alloc, log, page, change, is_forced)?;
    answers.begin();
    answers.text.number("", u64::from(number));
    Ok(())
}

// Does an act, and writes what it says.
fn told<D: Disk>(
    alloc: Global,
    log: &mut Log<D>,
    act: Act,
    answers: &mut Answers,
) -> Result<(), NodeFault>
    requires { IsReady D.tells D.view log.old }
    ensures { OnOk result (IsReady D.tells D.view log.new) }
{
    match act {
        Act::Look(look) => look_at(alloc, log, look, answers),
        Act::Undone(fills) => undone(log, fills, answers),
        Act::Change(page, change, is_forced) => {
            change_told(alloc, log, page, change, is_forced, answers)
        }
        _ => Ok(logged(log, act)?),
    }
}

// Does acts one after the other, up to one that fails.
fn all<D: Disk>(alloc: Global, log: &mut Log<D>, acts: &str, answers: &mut Answers)
    requires { IsReady D.tells D.view log.old }
{
    for row in acts.split(';') {
        let Some(act) = act_of(row.trim()) else {
            return;
        };
        if let Err(fault) = told(alloc, log, act, answers) {
            answers.fail(fault);
            return;
        }
        answers.done = answers.done.saturating_add(1);
    }
}

// Mounts the log on a disk, does acts to it, and hands back the disk.
pub fn over<D: Disk>(alloc: Global, disk: D, acts: &str, answers: &mut Answers) -> D
    requires { D.tells → ⊥ }
{
    match Log::mount(alloc, disk) {
        Ok(mut log) => {
            all(alloc, &mut log, acts, answers);
            log.into_disk()
        }
        Err((disk, fault)) => {
            answers.fault = Some(fault);
            disk
        }
    }
}

// Formats a disk, as far as it goes.
pub fn formatted<D: Disk>(alloc: Global, disk: D, server: u8, blocks: u32) -> (D, bool) {
    if blocks == 0 || 66_560 < blocks {
        return (disk, false);
    }
    match Log::format(alloc, disk, server, blocks) {
        Ok(log) => (log.into_disk(), true),
        Err((disk, _fault)) => (disk, false),
    }
}
