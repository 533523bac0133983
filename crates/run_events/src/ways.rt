//! The ways of messages: which step took what another sent.

use crate::holds::Holds;
use crate::labels::{body_file, label_of, title_of};
use crate::refused::Why;
use crate::run::Lane;
use run_words::{FileId, case_of, number_at, text_at};
use serde_json::Value;
use std::alloc::{AllocError, Global};
use std::collections::BTreeMap;

/// A message on its way.
#[derive(Drop)]
pub struct Arrow {
    /// Who sent it.
    pub sender: Lane,
    /// To whom it goes.
    pub to: Lane,
    /// The place of the step that sent it, from 0.
    pub from: usize,
    /// What it says, in few words.
    pub label: String,
    /// Its number and its file, where it has them.
    pub title: String,
    /// The file that it is about.
    pub file: Option<FileId>,
    /// The places of the steps that took it: none where it is lost, two where it is repeated.
    pub taken: Vec<usize>,
    // Where the one is among the arrows that was sent before, is the same, and hadn't been taken.
    earlier: Option<usize>,
}

/// The messages of a run, as they were sent.
#[derive(Drop)]
pub(crate) struct Ways {
    // Each of them.
    arrows: Vec<Arrow>,
    // Of those that are the same, as JSON, the place of the one that is taken next: the one sent last of those that
    // weren't taken, else the one sent last of all.
    next: BTreeMap<String, usize>,
}

impl Ways {
    /// No messages.
    pub(crate) fn new(alloc: Global) -> Ways {
        Ways {
            arrows: Vec::new(alloc),
            next: BTreeMap::new(alloc),
        }
    }

    /// Each of them.
    pub(crate) fn into_arrows(self) -> Vec<Arrow> {
        let Ways { arrows, next: _ } = self;
        arrows
    }

    /// A step takes a message.
    pub(crate) fn take(
        &mut self,
        alloc: Global,
        message: &Value,
        step: usize,
    ) -> Result<(), AllocError> {
        let text = message.to_string(alloc)?;
        let Some(at) = self.next.get_mut(text.as_str()) else {
            return Ok(());
        };
        let Some(arrow) = self.arrows.get_mut(*at) else {
            return Ok(());
        };
        arrow.taken.push(step)?;
        if let Some(earlier) = arrow.earlier {
            *at = earlier;
        }
        Ok(())
    }

    /// A step of a node sends a message to another. The tokens that it names are among those that were taken.
    pub(crate) fn send(
        &mut self,
        alloc: Global,
        holds: &Holds,
        (sender, to): (Lane, Lane),
        message: &Value,
        step: usize,
    ) -> Result<(), Why> {
        let body = message.get("body").ok_or(Why::Sent)?;
        let text = message.to_string(alloc)?;
        let earlier = self.untaken(text.as_str());
        self.next
            .insert(text, self.arrows.len())
            .map_err(AllocError::from)?;
        let label = label_of(alloc, holds, body)?;
        let title = title_of(alloc, body)?;
        let arrow = Arrow {
            sender,
            to,
            from: step,
            label,
            title,
            file: body_file(body),
            taken: Vec::new(alloc),
            earlier,
        };
        self.arrows.push(arrow).map_err(AllocError::from)?;
        Ok(())
    }

    // The place of the message that is taken next of those that are the same as this one, if it wasn't taken.
    fn untaken(&self, text: &str) -> Option<usize> {
        let at = *self.next.get(text)?;
        let arrow = self.arrows.get(at)?;
        if arrow.taken.is_empty() {
            Some(at)
        } else {
            None
        }
    }
}

/// To whom a message goes.
pub(crate) fn receiver(message: &Value) -> Option<Lane> {
    match text_at(message, "direction")? {
        "to_server" => Some(Lane::Server(number_at(message, "server")?)),
        "to_host" => Some(Lane::Host(number_at(message, "host")?)),
        "between_servers" => {
            let (_, holds) = case_of(message.get("body")?)?;
            Some(Lane::Server(number_at(holds, "to")?))
        }
        _ => None,
    }
}
