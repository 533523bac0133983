//! The steps of the tables of a host.

use crate::reading::{Words, push_number, push_yes};
use anyhow::{Context, Result, bail};
use base_types::{Fid, FilesetId, HostId, Items, NoMemory, Node, ServerId};
use host_lengths::{Given, Lengths};
use host_tables::{
    Changed, Draft, Fetched, Floor, Home, Site, bare_step, floor_of, home, home_of, new_sites,
    next_change, next_fetch, put_floor, put_home, put_site, site_at,
};
use run_rules::Cause;
use std::alloc::Global;
use tree_test_words::Text;

// Servers that are declared.
const SERVERS: u8 = 2;

/// Some tables.
#[derive(Drop)]
pub struct Tables {
    homes: Items<Home>,
    floors: Items<Floor>,
    lengths: Lengths,
    fetched: Items<Fetched>,
    changed: Items<Changed>,
    sites: Items<Site>,
}

impl Tables {
    pub fn new(alloc: Global) -> Result<Tables, NoMemory> {
        let sites = new_sites(alloc, SERVERS)?;
        Ok(Tables {
            homes: Items::new(alloc),
            floors: Items::new(alloc),
            lengths: Lengths::new(alloc),
            fetched: Items::new(alloc),
            changed: Items::new(alloc),
            sites,
        })
    }

    /// Writes the answer to a row `table ..`.
    pub fn tell(&mut self, alloc: Global, words: &mut Words, text: &mut Text) -> Result<()> {
        match words.next() {
            "enter" => self.enter(alloc, words, text),
            "home" => self.home(alloc, words, text),
            "change" => self.change(words, text),
            "greet" => self.greet(words, text),
            "raise" => self.raise(words, text),
            "give" => self.give(words, text),
            "gone" => self.gone(words, text),
            word => self.look(alloc, word, words, text),
        }
    }

    fn enter(&mut self, alloc: Global, words: &mut Words, text: &mut Text) -> Result<()> {
        let server = server(words)?;
        let name = words.name(alloc)?;
        let put = put_home(&mut self.homes, server, &name, words.fileset());
        drop(name);
        text.number("", self.homes.len() as u64);
        Ok(put?)
    }

    fn home(&self, alloc: Global, words: &mut Words, text: &mut Text) -> Result<()> {
        let server = server(words)?;
        let name = words.name(alloc)?;
        let id = home_of(self.homes.as_slice(), server, &name);
        drop(name);
        push_number(text, id.map(|id| u64::from(id.0)));
        Ok(())
    }

    fn change(&mut self, words: &mut Words, text: &mut Text) -> Result<()> {
        let server = server(words)?;
        let fileset = FilesetId(words.small()?);
        text.number("", next_change(&mut self.changed, server, fileset)?);
        Ok(())
    }

    fn greet(&mut self, words: &mut Words, text: &mut Text) -> Result<()> {
        let server = server(words)?;
        let mut site = site_at(self.sites.as_slice(), server);
        site.greeted = true;
        put_site(&mut self.sites, site);
        push_yes(text, site_at(self.sites.as_slice(), server).greeted);
        Ok(())
    }

    fn raise(&mut self, words: &mut Words, text: &mut Text) -> Result<()> {
        let fid = words.file()?;
        let stamp = words.number()?;
        put_floor(&mut self.floors, Floor { fid, stamp })?;
        text.number("", self.floors.len() as u64);
        Ok(())
    }

    fn give(&mut self, words: &mut Words, text: &mut Text) -> Result<()> {
        let fid = words.file()?;
        let number = words.number()?;
        let length = words.small()?;
        let given = Given {
            fid,
            number,
            length,
            known: false,
        };
        self.lengths.put(given)?;
        self.tell_given(fid, text);
        Ok(())
    }

    fn gone(&mut self, words: &mut Words, text: &mut Text) -> Result<()> {
        let fileset = words.fileset();
        let number = words.number()?;
        let fid = words.file()?;
        self.lengths.mark_known(fileset, number);
        let given = self.lengths.given(fid);
        push_yes(text, given.map_or(false, |given| given.known));
        Ok(())
    }

    fn tell_given(&self, fid: Fid, text: &mut Text) {
        let given = self.lengths.given(fid);
        push_number(text, given.map(|given| u64::from(given.length)));
    }

    fn look(
        &mut self,
        alloc: Global,
        word: &str,
        words: &mut Words,
        text: &mut Text,
    ) -> Result<()> {
        match word {
            "fetch" => text.number("", next_fetch(&mut self.fetched, words.fileset())?),
            "floor" => text.number("", floor_of(self.floors.as_slice(), words.file()?)),
            "given" => self.tell_given(words.file()?, text),
            "forget" => {
                let fid = words.file()?;
                self.lengths.forget(fid);
                self.tell_given(fid, text);
            }
            "made" => text.number("", u64::from(home(words.fileset()).0)),
            "sent" => text.number("", sent(alloc) as u64),
            word => bail!("no step of tables: {word}"),
        }
        Ok(())
    }
}

// What steps send in which nothing is done.
fn sent(alloc: Global) -> usize {
    let node = Node::Host(HostId(1));
    let bare = bare_step(alloc, node, Cause::Lapse);
    let drafted = Draft::new(alloc).into_step(alloc, node, Cause::End);
    let count = bare.sent.len().max(drafted.sent.len());
    drop(bare);
    drop(drafted);
    count
}

fn server(words: &mut Words) -> Result<ServerId> {
    Ok(ServerId(words.next().parse::<u8>().context("a server")?))
}
