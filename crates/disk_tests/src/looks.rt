// What a mounted aggregate is asked.
ghost use Rattle.std.specs.Prelude.{◌≡◌, OnOk};
ghost use Rattle.disk_log.specs.Log.{IsSoundLog};
ghost use Rattle.disk_tests.specs.Ready.{IsReady, IsRead};

use crate::acts::Look;
use crate::changes::named;
use crate::lists::push_list;
use crate::logs::Answers;
use base_types::{AccessList, Disk, Name, Span};
use disk_anode::{BLOCK, NodeFault, length_of, read_at, read_list};
use disk_lists::{ListFault, find, list, load};
use disk_log::{Log, LogFault};
use disk_space::count_of;
use std::alloc::Global;
use tree_calls::DirEntry;

// The byte that all have; 256 where they differ.
pub fn only(bytes: &[u8]) -> u32 {
    for byte in bytes {
        if *byte != bytes[0] {
            return 256;
        }
    }
    bytes.first().copied().unwrap_or(0) as u32
}

// What pages 1, 2 and 3 are filled with, and block 0.
pub fn filled_with<D: Disk>(log: &mut Log<D>) -> Result<[u32; 4], NodeFault>
    requires { IsSoundLog D.tells D.view log.old }
    ensures { IsRead D.tells D.view log.old log.new }
{
    let mut fills = [0; 4];
    let mut page = [0; 512];
    for i in 0..3 {
        log.page(1 + i, &mut page)?;
        fills[i as usize] = only(&page);
    }
    let mut block = [0; 1_024];
    if 0 < log.blocks() {
        log.read_block(0, &mut block)?;
    }
    fills[3] = only(&block);
    Ok(fills)
}

fn settled<D: Disk>(log: &mut Log<D>) -> Result<u32, NodeFault>
    requires { IsReady D.tells D.view log.old }
    ensures { IsReady D.tells D.view log.new }
{
    let mut page = [0; 512];
    log.settled(1, &mut page)?;
    Ok(only(&page))
}

fn byte_of<D: Disk>(log: &mut Log<D>, page: u32, at: u32) -> Result<u32, NodeFault>
    requires { IsReady D.tells D.view log.old }
    ensures { IsReady D.tells D.view log.new }
{
    let mut out = [7];
    if page < 1_058 && at < 65_536 {
        let span = Span {
            from: at,
            to: at + 1,
        };
        read_at(log, page, span, &mut out)?;
    }
    Ok(out[0] as u32)
}

fn listed<D: Disk>(log: &mut Log<D>, page: u32, which: u8) -> Result<u32, NodeFault>
    requires { IsReady D.tells D.view log.old }
    ensures { IsReady D.tells D.view log.new }
{
    let mut out = [7; BLOCK];
    if page < 1_058 && which < 3 {
        read_list(log, page, which, &mut out)?;
    }
    Ok(out[BLOCK - 1] as u32)
}

// What all counts are together, or how many blocks have one.
fn counted<D: Disk>(log: &mut Log<D>, wanted: Option<u16>) -> Result<u32, NodeFault>
    requires { IsReady D.tells D.view log.old }
    ensures { IsReady D.tells D.view log.new }
{
    let mut counted = 0u32;
    for block in 0..log.blocks() {
        let count = count_of(log, block)?;
        let more = match wanted {
            Some(wanted) => (count == wanted) as u32,
            None => count as u32,
        };
        counted = counted.saturating_add(more);
    }
    Ok(counted)
}

// How many entries are free where a transaction needs more.
fn needed<D: Disk>(log: &mut Log<D>, pages: u32) -> Result<u32, NodeFault>
    requires { IsReady D.tells D.view log.old }
    ensures { IsReady D.tells D.view log.new }
{
    match log.begin(pages) {
        Ok(tx) => {
            log.undo(tx);
            Ok(0)
        }
        Err(LogFault::Full { needed, .. }) => Ok(needed.min(9_999) as u32),
        Err(fault) => Err(NodeFault::from(fault)),
    }
}

// What a question about numbers is answered.
fn number_of<D: Disk>(log: &mut Log<D>, look: Look) -> Result<u32, NodeFault>
    requires { IsReady D.tells D.view log.old }
    ensures { IsReady D.tells D.view log.new }
{
    match look {
        Look::Settled => settled(log),
        Look::Server => Ok(log.server() as u32),
        Look::Generation => Ok(log.generation().min(9_999) as u32),
        Look::Free => Ok(log.free()),
        Look::Begin(pages) => needed(log, pages),
        Look::Byte(page, at) => byte_of(log, page, at),
        Look::Length(page) if page < 1_058 => length_of(log, page),
        Look::Listed(page, which) => listed(log, page, which),
        Look::Used => counted(log, None),
        Look::Counted(count) => counted(log, Some(count)),
        _ => Ok(9_999),
    }
}

fn found<D: Disk>(log: &mut Log<D>, page: u32, name: &Name) -> Result<Option<(u32, u32)>, NodeFault>
    requires { IsReady D.tells D.view log.old }
    ensures { IsReady D.tells D.view log.new }
{
    if page < 1_058 {
        return find(log, page, name);
    }
    Ok(None)
}

// Writes the numbers of a name.
fn tell_find<D: Disk>(
    alloc: Global,
    log: &mut Log<D>,
    page: u32,
    name: &str,
    answers: &mut Answers,
) -> Result<(), NodeFault>
    requires { IsReady D.tells D.view log.old }
    ensures { IsReady D.tells D.view log.new }
{
    let name = named(alloc, name)?;
    let found = found(log, page, &name);
    drop(name);
    answers.begin();
    match found? {
        Some((anode, unique)) => {
            answers.text.number("", u64::from(anode));
            answers.text.number(" ", u64::from(unique));
        }
        None => answers.text.word("none"),
    }
    Ok(())
}

fn push_names(answers: &mut Answers, entries: &[DirEntry]) {
    if entries.is_empty() {
        return;
    }
    answers.begin();
    let mut apart = "";
    for entry in entries {
        answers.text.plain(apart, entry.name.as_bytes());
        apart = " ";
    }
}

// Writes all names of a directory.
fn tell_names<D: Disk>(
    alloc: Global,
    log: &mut Log<D>,
    page: u32,
    answers: &mut Answers,
) -> Result<(), NodeFault>
    requires { IsReady D.tells D.view log.old }
    ensures { IsReady D.tells D.view log.new }
{
    if 1_058 <= page {
        return Err(NodeFault::Memory);
    }
    let entries = list(alloc, log, page)?;
    push_names(answers, entries.as_slice());
    drop(entries);
    Ok(())
}

fn push_loaded(
    answers: &mut Answers,
    list: Result<AccessList, ListFault>,
) -> Result<(), NodeFault> {
    match list {
        Ok(list) => {
            answers.begin();
            push_list(&mut answers.text, &list);
            drop(list);
            Ok(())
        }
        Err(ListFault::BadList) => {
            answers.begin();
            answers.text.word("bad");
            Ok(())
        }
        Err(ListFault::Failed) => Err(NodeFault::Failed),
        Err(ListFault::Memory) => Err(NodeFault::Memory),
    }
}

// Writes an access list.
fn tell_list<D: Disk>(
    alloc: Global,
    log: &mut Log<D>,
    page: u32,
    which: u8,
    answers: &mut Answers,
) -> Result<(), NodeFault>
    requires { IsReady D.tells D.view log.old }
    ensures { IsReady D.tells D.view log.new }
{
    if 1_058 <= page || 3 <= which {
        return Err(NodeFault::Memory);
    }
    push_loaded(answers, load(alloc, log, page, which))
}

pub fn push_fills(answers: &mut Answers, fills: [u32; 4]) {
    answers.begin();
    let [first, second, third, block] = fills;
    answers.text.number("", u64::from(first));
    answers.text.number(" ", u64::from(second));
    answers.text.number(" ", u64::from(third));
    answers.text.number(" ", u64::from(block));
}

fn tell_pages<D: Disk>(log: &mut Log<D>, answers: &mut Answers) -> Result<(), NodeFault>
    requires { IsReady D.tells D.view log.old }
    ensures { IsReady D.tells D.view log.new }
{
    push_fills(answers, filled_with(log)?);
    Ok(())
}

fn tell_number<D: Disk>(
    log: &mut Log<D>,
    look: Look,
    answers: &mut Answers,
) -> Result<(), NodeFault>
    requires { IsReady D.tells D.view log.old }
    ensures { IsReady D.tells D.view log.new }
{
    let number = number_of(log, look)?;
    answers.begin();
    answers.text.number("", u64::from(number));
    Ok(())
}

// Writes what a question is answered.
pub fn look_at<D: Disk>(
    alloc: Global,
    log: &mut Log<D>,
    look: Look,
    answers: &mut Answers,
) -> Result<(), NodeFault>
    requires { IsReady D.tells D.view log.old }
    ensures { IsReady D.tells D.view log.new }
{
    match look {
        Look::Pages => tell_pages(log, answers),
        Look::Find(page, name) => tell_find(alloc, log, page, name, answers),
        Look::Names(page) => tell_names(alloc, log, page, answers),
        Look::Load(page, which) => tell_list(alloc, log, page, which, answers),
        _ => tell_number(log, look, answers),
    }
}
