//! Rows of the network: what is sent, and what comes.

use crate::fault::Fault;
use crate::letters::{add_message, letter_of, node_of};
use crate::scripts::Case;
use base_types::{Items, Name, Node};
use hub_wire::Wire;
use message_types::Message;
use std::alloc::Global;

/// A network, what a step sends, and what came.
#[derive(Drop)]
pub struct Network {
    alloc: Global,
    wire: Wire,
    sent: Items<Message>,
    came: Items<Message>,
}

impl Network {
    /// At the start of a script.
    pub fn new(alloc: Global, case: &Case) -> Result<Network, Fault> {
        Ok(Network {
            alloc,
            wire: Wire::new(&case.script, case.rooms.as_slice())?,
            sent: Items::new(alloc),
            came: Items::new(alloc),
        })
    }

    /// Does one thing with the network, and tells what it gave, if anything.
    pub fn act(&mut self, words: &str, told: &mut String) -> Result<(), Fault> {
        let (verb, rest) = words.split_once(' ').unwrap_or((words, ""));
        match verb {
            "send" => self.send(rest),
            "ready" => self.ready(rest),
            "raise" => self.raise(rest),
            "take" => self.take(rest, told),
            "lapse" => self.lapse(rest, told),
            "accept" => {
                self.wire.accept();
                Ok(())
            }
            "forget" => {
                self.wire.forget();
                Ok(())
            }
            _ => Err(Fault::Row),
        }
    }

    fn send(&mut self, words: &str) -> Result<(), Fault> {
        self.ready(words)?;
        self.wire.accept();
        Ok(())
    }

    // Makes a step ready that sends these, with `+` between them.
    fn ready(&mut self, words: &str) -> Result<(), Fault> {
        self.sent.truncate(0);
        for letter in words.split('+') {
            self.add(letter.trim())?;
        }
        self.wire.ready(self.sent.as_slice())?;
        Ok(())
    }

    fn add(&mut self, words: &str) -> Result<(), Fault> {
        if words.is_empty() {
            return Ok(());
        }
        let letter = letter_of(words).ok_or(Fault::Row)?;
        add_message(self.alloc, &mut self.sent, letter)
    }

    fn raise(&mut self, flag: &str) -> Result<(), Fault> {
        let flag = Name::new(self.alloc, flag.as_bytes())?;
        self.wire.raised(&flag);
        Ok(())
    }

    // The number of the message that a node takes, or `none`. What is ready and not counted is forgotten.
    fn take(&mut self, node: &str, told: &mut String) -> Result<(), Fault> {
        let node = node_of(node).ok_or(Fault::Row)?;
        match self.taken(node)? {
            Some(number) => told.push_str(format!(in self.alloc; " {number}")?.as_str())?,
            None => told.push_str(" none")?,
        }
        Ok(())
    }

    fn taken(&mut self, node: Node) -> Result<Option<u64>, Fault> {
        self.wire.forget();
        match self.wire.take_copy(node) {
            Some(message) => {
                let number = message.epoch;
                self.came.push(message)?;
                Ok(Some(number))
            }
            None => Ok(None),
        }
    }

    // Whether a lapse was due to a node.
    fn lapse(&mut self, node: &str, told: &mut String) -> Result<(), Fault> {
        let node = node_of(node).ok_or(Fault::Row)?;
        self.wire.forget();
        let lapse = self.wire.take_lapse(node);
        told.push_str(format!(in self.alloc; " {lapse}")?.as_str())?;
        Ok(())
    }
}
