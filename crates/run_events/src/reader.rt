//! What is known of a run while its journal is read.

use crate::asking::Asking;
use crate::files::Files;
use crate::holds::Holds;
use crate::refused::Why;
use crate::run::{Event, Run};
use crate::ways::Ways;
use run_words::{list_at, number_at};
use serde_json::Value;
use std::alloc::Global;

/// What is known of a run while its journal is read.
pub(crate) struct Reader {
    /// How many hosts there are, beside the setup host.
    pub hosts: u64,
    /// How many servers there are.
    pub servers: u64,
    /// The steps.
    pub events: Vec<Event>,
    /// The messages.
    pub ways: Ways,
    /// The tokens.
    pub holds: Holds,
    /// The calls that are open.
    pub asking: Asking,
    /// Which files have which paths.
    pub files: Files,
}

impl Reader {
    /// Nothing is known.
    fn new(alloc: Global) -> Reader {
        Reader {
            hosts: 0,
            servers: 0,
            events: Vec::new(alloc),
            ways: Ways::new(alloc),
            holds: Holds::new(alloc),
            asking: Asking::new(alloc),
            files: Files::new(alloc),
        }
    }

    /// What the first line of a journal tells.
    pub(crate) fn of_head(alloc: Global, head: &Value) -> Result<Reader, Why> {
        if number_at(head, "version").ok_or(Why::Head)? != 1 {
            return Err(Why::Version);
        }
        let start = list_at(head, "start").ok_or(Why::Head)?;
        let mut reader = Reader::new(alloc);
        if let Some(tree) = start.first() {
            reader.note_tree(alloc, tree)?;
        }
        Ok(reader)
    }

    // Notes the tree at the start, with its roster.
    fn note_tree(&mut self, alloc: Global, tree: &Value) -> Result<(), Why> {
        let roster = tree.get("roster").ok_or(Why::Head)?;
        self.hosts = list_at(roster, "hosts").ok_or(Why::Head)?.len() as u64;
        self.servers = list_at(tree, "servers").ok_or(Why::Head)?.len() as u64;
        self.files.note_tree(alloc, tree)?;
        Ok(())
    }

    /// What is known in the end.
    pub(crate) fn into_run(self) -> Run {
        let Reader {
            hosts,
            servers,
            events,
            ways,
            holds,
            asking,
            files,
        } = self;
        Run {
            hosts,
            servers,
            events,
            arrows: ways.into_arrows(),
            holds: holds.into_holds(),
            waits: asking.into_waits(),
            files,
        }
    }
}

impl Drop for Reader {
    fn drop(self) {
        let Reader {
            hosts: _,
            servers: _,
            events: _,
            ways: _,
            holds: _,
            asking: _,
            files: _,
        } = self;
    }
}
