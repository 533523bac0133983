// Rows of acts, and what they are answered.
ghost use Rattle.std.specs.Prelude.{◌≡◌, OnOk};
ghost use Rattle.disk_classes_tests.specs.Ready.{IsReady};

use crate::mounted::{filled, opened};
use crate::tried::{Named, begun, end_by, place_of, put_by};
use crate::watch::watching;
use anyhow::{Result, bail};
use base_types::Disk;
use disk_classes::{ClassFault, Classes};
use std::alloc::Global;
use tree_test_words::Text;

// What is done by or to the member that has a number.
#[derive(Clone, Copy)]
pub enum Act {
    // It begins, and may put so many pages.
    Begin(u32, u32),
    // It puts a page that has one byte everywhere.
    Put(u32, usize, u8),
    End(u32),
    Force,
    // A page is read.
    Page(usize),
}

// What an act is answered.
#[derive(Clone, Copy)]
pub enum Said {
    Done,
    // The member may not put the page.
    Refused,
    Full(u32, u64),
    Count(u32),
    Fill(u8),
}

fn number(word: Option<&str>) -> u32 {
    word.unwrap_or("").parse::<u32>().unwrap_or(0)
}

// The act of words; `None` where they are none.
pub fn act_of(words: &str) -> Option<Act> {
    let mut words = words.split(' ');
    let kind = words.next().unwrap_or("");
    let (a, b, c) = (
        number(words.next()),
        number(words.next()),
        number(words.next()),
    );
    Some(match kind {
        "begin" => Act::Begin(a, b),
        "put" => Act::Put(a, b.saturating_sub(1) as usize, c.min(254) as u8),
        "end" => Act::End(a),
        "force" => Act::Force,
        "page" => Act::Page(a.saturating_sub(1) as usize),
        _ => return None,
    })
}

// Begins a member, where the log has entries for it.
fn began<D: Disk>(
    classes: &mut Classes<D>,
    members: &mut Vec<Named>,
    number: u32,
    pages: u32,
) -> Result<Said, ClassFault>
    requires { IsReady D.tells D.view classes.old }
    ensures { IsReady D.tells D.view classes.new }
{
    match begun(classes, members, number, pages) {
        Ok(()) => Ok(Said::Done),
        Err(ClassFault::Full { free, needed }) => Ok(Said::Full(free, needed)),
        Err(fault) => Err(fault),
    }
}

// Does an act.
pub fn acted<D: Disk>(
    classes: &mut Classes<D>,
    members: &mut Vec<Named>,
    act: Act,
) -> Result<Said, ClassFault>
    requires { IsReady D.tells D.view classes.old }
    ensures { OnOk result (IsReady D.tells D.view classes.new) }
{
    match act {
        Act::Begin(number, pages) => began(classes, members, number, pages),
        Act::Put(number, page, byte) => {
            let place = place_of(members, number);
            let may = put_by(classes, members, place, page, byte)?;
            Ok(if may { Said::Done } else { Said::Refused })
        }
        Act::End(number) => {
            let place = place_of(members, number);
            end_by(classes, members, place);
            Ok(Said::Done)
        }
        Act::Force => Ok(Said::Count(classes.force()?)),
        Act::Page(page) => Ok(Said::Fill(filled(classes, page)?)),
    }
}

// Writes an answer.
fn push_said(text: &mut Text, said: Said) {
    match said {
        Said::Done => text.word("ok"),
        Said::Refused => text.word("no"),
        Said::Full(free, needed) => {
            text.number("full ", u64::from(free));
            text.number(" ", needed);
        }
        Said::Count(count) => text.number("", u64::from(count)),
        Said::Fill(fill) => text.number("", u64::from(fill)),
    }
}

// What was done: how many acts, and how many of them were forces that answered; and whether one failed.
#[derive(Clone, Copy)]
pub struct Done {
    pub acts: usize,
    pub forces: u8,
    pub fault: Option<ClassFault>,
}

impl Done {
    // Nothing was done yet.
    pub fn nothing() -> Done {
        Done {
            acts: 0,
            forces: 0,
            fault: None,
        }
    }

    // One more act was done.
    fn count(&mut self, act: Act) {
        self.acts = self.acts.saturating_add(1);
        self.forces = self.forces.saturating_add(matches!(act, Act::Force) as u8);
    }
}

// Does acts one after the other, up to one that fails, and writes what they are answered.
pub fn all_acted<D: Disk>(
    alloc: Global,
    classes: &mut Classes<D>,
    acts: &str,
    done: &mut Done,
    text: &mut Text,
)
    requires { IsReady D.tells D.view classes.old }
{
    let mut members = Vec::new(alloc);
    for words in acts.split(';') {
        let Some(act) = act_of(words.trim()) else {
            return;
        };
        match acted(classes, &mut members, act) {
            Ok(said) => {
                text.word(if done.acts == 0 { "" } else { " " });
                push_said(text, said);
                done.count(act);
            }
            Err(fault) => {
                done.fault = Some(fault);
                return;
            }
        }
    }
}

// Writes what acts are answered, over a log.
pub fn tell_acts(alloc: Global, start: &[u8], acts: &str, text: &mut Text) -> Result<()> {
    let disk = watching(alloc, start, None)?;
    let Ok(mut classes) = opened(alloc, disk) else {
        bail!("no log");
    };
    let mut done = Done::nothing();
    all_acted(alloc, &mut classes, acts, &mut done, text);
    drop(classes);
    match done.fault {
        Some(fault) => bail!("{fault:?}"),
        None => Ok(()),
    }
}
