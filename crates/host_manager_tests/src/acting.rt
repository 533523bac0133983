//! What hosts do.
ghost use Rattle.host_manager.specs.Spoken.{IsFree, tables_of};

use crate::deeds::{Deed, read_deed};
use crate::stepping::push_step;
use crate::telling::{State, push_at_once, push_state};
use anyhow::{Result, bail};
use base_types::{HostId, Items, NoMemory, User};
use host_manager::Manager;
use run_rules::Step;
use std::alloc::Global;
use tree_calls::{Call, HostLine, Roster};
use tree_test_words::{Text, Words, user};

// How many bytes a reply may have.
const ROOM: usize = 64;

/// Host 1, which caches 64 tokens, and host 2, which caches one.
pub struct Hosts {
    first: Manager,
    second: Manager,
}

impl Drop for Hosts {
    fn drop(self) {
        let Hosts {
            first: _,
            second: _,
        } = self;
    }
}

impl Hosts {
    /// Before their first steps.
    pub fn new(alloc: Global) -> Result<Hosts> {
        let roster = roster(alloc)?;
        let hosts = hosts_of(alloc, &roster);
        drop(roster);
        hosts
    }
}

fn hosts_of(alloc: Global, roster: &Roster) -> Result<Hosts> {
    let first = manager(alloc, roster, HostId(1))?;
    match manager(alloc, roster, HostId(2)) {
        Ok(second) => Ok(Hosts { first, second }),
        Err(error) => {
            drop(first);
            Err(error)
        }
    }
}

fn manager(alloc: Global, roster: &Roster, host: HostId) -> Result<Manager> {
    let Some(user) = roster.user_of(host)? else {
        bail!("no host");
    };
    drop(user);
    Ok(Manager::new(alloc, host, roster)?)
}

// Two servers, and hosts that act for ann and bob of dev.
fn roster(alloc: Global) -> Result<Roster> {
    let ann = HostLine { user: 0, limit: 64 };
    let bob = HostLine { user: 1, limit: 1 };
    Ok(Roster {
        hosts: Items::from_slice(alloc, &[ann, bob])?,
        capacity: Items::from_slice(alloc, &[65_536, 65_536])?,
        users: users(alloc)?,
    })
}

fn users(alloc: Global) -> Result<Items<User>> {
    let mut users = Items::new(alloc);
    users.push(user(alloc, "ann", "dev")?)?;
    users.push(user(alloc, "bob", "dev")?)?;
    Ok(users)
}

/// What is told to a row, which begins with its host.
pub fn told(alloc: Global, hosts: &mut Hosts, row: &str) -> Result<String> {
    let mut words = Words::new(alloc, row);
    let mut text = Text::new(alloc);
    match words.next() {
        "c1" => act(
            &mut hosts.first,
            read_deed(HostId(1), &mut words)?,
            &mut text,
        )?,
        "c2" => act(
            &mut hosts.second,
            read_deed(HostId(2), &mut words)?,
            &mut text,
        )?,
        _ => bail!("no host"),
    }
    text.line()
}

// Does what is asked, and writes what the host does then.
fn act(manager: &mut Manager, deed: Deed, text: &mut Text) -> Result<()> {
    match deed {
        Deed::State => push_state(text, state_of(manager)),
        Deed::Into(size, call) => at_once(manager, size, call, text),
        deed => push_made(text, made(manager, deed)?),
    }
    Ok(())
}

fn state_of(manager: &Manager) -> State {
    State {
        begun: manager.begun(),
        free: manager.is_free(),
        has_to_evict: manager.has_to_evict(),
        may_end: manager.may_end(),
        parted: manager.has_parted(),
    }
}

// Puts the reply into so much room, and writes it; nothing where no call can be made now.
fn at_once(manager: &mut Manager, size: usize, call: Call, text: &mut Text) {
    let mut room = [0u8; ROOM];
    if manager.is_free() && size <= ROOM {
        let count = manager.answer_into(&call, &mut room[..size]);
        push_at_once(text, &room, count);
    }
    drop(call);
}

// The step of a row; none, too, where it can't be made now.
fn made(manager: &mut Manager, deed: Deed) -> Result<Option<Step>, NoMemory> {
    match deed {
        Deed::Take(message) => some(manager.take(message)),
        Deed::Lapse => some(manager.lapse()),
        Deed::Evict => manager.evict(),
        deed => {
            if manager.is_free() {
                return made_free(manager, deed);
            }
            drop(deed);
            Ok(None)
        }
    }
}

fn made_free(manager: &mut Manager, deed: Deed) -> Result<Option<Step>, NoMemory>
    requires { IsFree (tables_of manager.old) }
{
    match deed {
        Deed::End => manager.end(),
        Deed::Stop(line) => some(manager.stop(line)),
        Deed::Call(line, call) => {
            let step = manager.call(line, &call);
            drop(call);
            some(step)
        }
        Deed::Raise(line, flag) => {
            let step = manager.raise(line, &flag);
            drop(flag);
            Ok(Some(step))
        }
        deed => {
            drop(deed);
            Ok(None)
        }
    }
}

fn some(step: Result<Step, NoMemory>) -> Result<Option<Step>, NoMemory> {
    match step {
        Ok(step) => Ok(Some(step)),
        Err(error) => Err(error),
    }
}

// Writes what a step does, or that none is made.
fn push_made(text: &mut Text, made: Option<Step>) {
    match &made {
        Some(step) => push_step(text, step),
        None => text.word("none"),
    }
    drop(made);
}
