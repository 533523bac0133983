ghost use Rattle.std.specs.Prelude.{◌≡◌, OnOk, IfOk};
ghost use Rattle.script_words.specs.Outcome.{Gives, Becomes};
ghost use Rattle.script_lines.specs.Judge.{nothing_said, node_stopped, node_at, noted, with_line, deed_line, taken};
ghost use Rattle.script_lines.specs.Judge.{line_judged};

use crate::context::Context;
use crate::flags::Flags;
use crate::headers::header_of;
use crate::script::{Deed, Line, Script};
use base_types::{Items, NoMemory, Node, Plain};
use script_words::{BadWhy, Fault, Words, known, node_of, unless, word_at, words_of_line};
use std::alloc::Global;
use tree_calls::Roster;

impl Context {
    /// Before the first line.
    pub fn new(alloc: Global) -> Context
        ensures { result ≡ nothing_said }
    {
        Context {
            script: Script {
                servers: 0,
                roster: Roster {
                    users: Items::new(alloc),
                    hosts: Items::new(alloc),
                    capacity: Items::new(alloc),
                },
                setup: Items::new(alloc),
                plan: Items::new(alloc),
                net: None,
                lines: Items::new(alloc),
            },
            begun: false,
            capped: Items::new(alloc),
            placed: Items::new(alloc),
            raised: Flags::new(alloc),
            stopped: Items::new(alloc),
        }
    }

    fn node_stopped(&self, node: Node) -> bool
        ensures { result ≡ node_stopped self.now.stopped node }
    {
        match node {
            Node::Host(host) => self.has_stopped(host),
            Node::Server(_) => false,
        }
    }

    // The node of a line, which stands first in it.
    #[tactic(auto, unfolding(crate::specs::Judge::node_at))]
    fn node_at(&self, words: &Words) -> Result<Node, Fault>
        ensures { Gives result (node_at self.now words.now) }
    {
        let word = word_at(words, 0)?;
        unless(header_of(word.as_slice()).is_some(), BadWhy::Order)?;
        let node = self.node_declared(known(node_of(word.as_slice()))?)?;
        unless(self.node_stopped(node), BadWhy::Stopped)?;
        Ok(node)
    }

    // What the deed of a line changes for later ones.
    fn note(&mut self, line: &Line) -> Result<(), NoMemory>
        ensures { OnOk result (self.new ≡ noted self.old line.now.node line.now.deed) }
    {
        match &line.deed {
            Deed::Raise(flag) => self.raised.push(flag.copy()?)?,
            Deed::Stop => {
                if let Node::Host(host) = line.node {
                    self.stopped.push(host)?;
                }
            }
            _ => (),
        }
        Ok(())
    }

    // Adds a line, and what its deed changes for later ones. The line is handed on before an error is looked at, so
    // that no path drops it, which would cost the prover much.
    fn add_line(&mut self, line: Line) -> Result<(), NoMemory>
        ensures { OnOk result (self.new ≡ with_line (noted self.old line.node line.deed) line) }
    {
        let noted = self.note(&line);
        self.script.lines.push(line)?;
        noted
    }

    #[tactic(auto, unfolding(crate::specs::Judge::deed_line))]
    fn deed_line(&mut self, disks: u32, number: u32, words: &Words) -> Result<(), Fault>
        ensures { Becomes result self.new (deed_line self.old disks number words.now) }
    {
        let node = self.node_at(words)?;
        let deed = self.deed_of(disks, node, words)?;
        self.add_line(Line { number, node, deed })?;
        Ok(())
    }

    #[tactic(auto, unfolding(crate::specs::Judge::taken))]
    fn take(&mut self, disks: u32, number: u32, words: &Words) -> Result<(), Fault>
        ensures { Becomes result self.new (taken self.old disks number words.now) }
    {
        if words.is_empty() {
            return Ok(());
        }
        if self.begun {
            self.deed_line(disks, number, words)
        } else {
            self.header_line(disks, number, words)
        }
    }

    /// Takes the next line, with its number from 1. After an error nothing is said of the context. The causes, in their
    /// order: those of `words_of_line`; then the words from left to right; then too few or too many words.
    #[tactic(auto, unfolding(crate::specs::Judge::line_judged))]
    pub fn take_line(
        &mut self,
        alloc: Global,
        disks: u32,
        number: u32,
        line: &[u8],
    ) -> Result<(), Fault>
        ensures { Becomes result self.new (line_judged self.old disks number line.now) }
    {
        let words = words_of_line(alloc, line)?;
        self.take(disks, number, &words)
    }
}
