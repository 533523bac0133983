//! Rows of turns: what a node is given, turn by turn.

use crate::fault::Fault;
use crate::letters::{Letter, add_message, letter_of, message_of, node_of};
use crate::scripts::Case;
use base_types::{HOSTS_MAX, Items, Name, Node, SERVERS_MAX};
use hub_board::{Board, Given, Pending};
use message_types::Message;
use run_rules::{Cause, Step};
use std::alloc::Global;

/// A board, the steps that a node hands in, and what was given.
#[derive(Drop)]
pub struct Turns {
    alloc: Global,
    board: Board,
    steps: Pending,
    given: Items<Given>,
}

// What makes a node do a step.
#[derive(Clone, Copy)]
enum Why {
    Line,
    Restart,
    End,
    Came(Letter),
}

// By `line`, `restart`, `end`, or `came LETTER`.
fn why_of(words: &str) -> Option<Why> {
    if let Some(letter) = words.strip_prefix("came ") {
        return Some(Why::Came(letter_of(letter)?));
    }
    match words {
        "line" => Some(Why::Line),
        "restart" => Some(Why::Restart),
        "end" => Some(Why::End),
        _ => None,
    }
}

fn cause_of(alloc: Global, why: Why, label: Name) -> Cause {
    match why {
        Why::Line => Cause::Line(1),
        Why::Restart => Cause::Restart(1),
        Why::End => Cause::End,
        Why::Came(letter) => Cause::Message(message_of(alloc, letter, label)),
    }
}

/// A step of a node that sends these.
pub fn step_of(alloc: Global, node: Node, cause: Cause, sent: Items<Message>) -> Step {
    Step {
        node,
        cause,
        asked: None,
        taken: Items::new(alloc),
        answers: Items::new(alloc),
        wrote: None,
        begun: Items::new(alloc),
        made: Items::new(alloc),
        dropped: Items::new(alloc),
        applied: Items::new(alloc),
        admitted: Items::new(alloc),
        sent,
        shipped: Items::new(alloc),
        reserved: Items::new(alloc),
    }
}

impl Turns {
    /// At the start of a script.
    pub fn new(alloc: Global, case: &Case) -> Result<Turns, Fault> {
        if case.script.roster.hosts.len() > HOSTS_MAX as usize
            || case.script.servers > u32::from(SERVERS_MAX)
        {
            return Err(Fault::Row);
        }
        Ok(Turns {
            alloc,
            board: Board::new(&case.script, case.rooms.as_slice())?,
            steps: Pending::new(alloc),
            given: Items::new(alloc),
        })
    }

    /// A turn `NODE STEPS`, with `+` between steps, and what it gave.
    pub fn act(&mut self, words: &str, told: &mut String) -> Result<(), Fault> {
        let (node, rest) = words.split_once(' ').unwrap_or((words, ""));
        let node = node_of(node).ok_or(Fault::Row)?;
        for step in rest.split('+') {
            self.add(node, step.trim())?;
        }
        self.take(node)?;
        self.tell(told)
    }

    // Takes a turn, and puts what was given behind the others.
    fn take(&mut self, node: Node) -> Result<(), Fault> {
        self.given.truncate(0);
        if let Some(given) = self.board.turn(node, &mut self.steps)? {
            self.given.push(given)?;
        }
        Ok(())
    }

    fn tell(&self, told: &mut String) -> Result<(), Fault> {
        match self.given.at(0) {
            Some(Given::Message(message)) => {
                told.push_str(format!(in self.alloc; " {}", message.epoch)?.as_str())?
            }
            Some(Given::Begun) => told.push_str(" begun")?,
            Some(Given::Raised(_)) => told.push_str(" raised")?,
            Some(Given::Lapse) => told.push_str(" lapse")?,
            None => told.push_str(" none")?,
        }
        Ok(())
    }

    // Adds a step `CAUSE` or `CAUSE > LETTER`.
    fn add(&mut self, node: Node, words: &str) -> Result<(), Fault> {
        if words.is_empty() {
            return Ok(());
        }
        let (why, letter) = words.split_once('>').unwrap_or((words, ""));
        let why = why_of(why.trim()).ok_or(Fault::Row)?;
        let label = Name::new(self.alloc, b"l")?;
        let sent = sent_of(self.alloc, letter.trim())?;
        let cause = cause_of(self.alloc, why, label);
        self.steps.push(step_of(self.alloc, node, cause, sent))?;
        Ok(())
    }

    /// How many turns stand in the list.
    pub fn count(&self) -> usize {
        self.board.turns().len()
    }
}

fn sent_of(alloc: Global, words: &str) -> Result<Items<Message>, Fault> {
    let mut sent = Items::new(alloc);
    if !words.is_empty() {
        add_message(alloc, &mut sent, letter_of(words).ok_or(Fault::Row)?)?;
    }
    Ok(sent)
}
