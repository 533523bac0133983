//! A step of a journal, read.

use crate::asking::{answered, begun, decided};
use crate::holds::Holds;
use crate::labels::{body_file, label_of};
use crate::reader::Reader;
use crate::refused::Why;
use crate::run::{Event, How, Lane, Said, Sign};
use crate::ways::receiver;
use run_words::{FileId, Text, case_of, list_at, name_of, number_at, put_path};
use serde_json::Value;
use std::alloc::{AllocError, Global};

impl Reader {
    /// Adds a step. Where it is none, the reader isn't used any more.
    pub(crate) fn add_step(&mut self, alloc: Global, step: &Value) -> Result<(), Why> {
        let lane = step.get("node").and_then(lane_of).ok_or(Why::Node)?;
        if !self.has_lane(lane) {
            return Err(Why::Node);
        }
        let cause = step.get("cause").ok_or(Why::Cause)?;
        let sign = sign_of(lane, cause, step).ok_or(Why::Cause)?;
        let mut event = Event {
            lane,
            sign,
            title: title_of(alloc, &self.holds, cause)?,
            said: Vec::new(alloc),
            paths: Vec::new(alloc),
            files: Vec::new(alloc),
        };
        self.take_message(alloc, &mut event, cause)?;
        self.say(alloc, &mut event, step)?;
        self.send_messages(alloc, &mut event, step)?;
        self.move_tokens(alloc, &mut event, step)?;
        self.events.push(event).map_err(AllocError::from)?;
        Ok(())
    }

    fn has_lane(&self, lane: Lane) -> bool {
        match lane {
            Lane::Host(number) => number <= self.hosts,
            Lane::Server(number) => 0 < number && number <= self.servers,
        }
    }

    // The step takes the message that caused it.
    fn take_message(
        &mut self,
        alloc: Global,
        event: &mut Event,
        cause: &Value,
    ) -> Result<(), AllocError> {
        let Some(message) = cause.get("message") else {
            return Ok(());
        };
        self.ways.take(alloc, message, self.events.len())?;
        let Some(body) = message.get("body") else {
            return Ok(());
        };
        push_file(event, body_file(body))?;
        if let Lane::Host(host) = event.lane {
            if let Some(words) = self.asking.learn(host, body) {
                self.asking.end_wait(host, self.events.len());
                let how = How::Answered;
                event.said.push(Said { words, how })?;
            }
        }
        Ok(())
    }

    fn send_messages(&mut self, alloc: Global, event: &mut Event, step: &Value) -> Result<(), Why> {
        for message in list_at(step, "sent").ok_or(Why::Sent)?.iter() {
            self.send_message(alloc, event, message)?;
        }
        Ok(())
    }

    fn send_message(
        &mut self,
        alloc: Global,
        event: &mut Event,
        message: &Value,
    ) -> Result<(), Why> {
        let to = receiver(message).ok_or(Why::Sent)?;
        if !self.has_lane(to) {
            return Err(Why::Sent);
        }
        self.ways.send(
            alloc,
            &self.holds,
            (event.lane, to),
            message,
            self.events.len(),
        )?;
        self.files.note_message(alloc, message)?;
        let Some(body) = message.get("body") else {
            return Ok(());
        };
        push_file(event, body_file(body))?;
        if let (Lane::Host(host), Some(change)) = (event.lane, body.get("change")) {
            self.asking
                .tell(host, number_at(change, "k"), number_at(change, "number"));
        }
        Ok(())
    }

    fn move_tokens(&mut self, alloc: Global, event: &mut Event, step: &Value) -> Result<(), Why> {
        let Lane::Host(host) = event.lane else {
            return Ok(());
        };
        let place = self.events.len();
        for leave in list_at(step, "dropped").ok_or(Why::Dropped)?.iter() {
            let file = self.holds.drop_token(leave, place)?;
            event.files.push(file).map_err(AllocError::from)?;
        }
        self.take_tokens(alloc, host, event, step)
    }

    fn take_tokens(
        &mut self,
        alloc: Global,
        host: u64,
        event: &mut Event,
        step: &Value,
    ) -> Result<(), Why> {
        let place = self.events.len();
        for token in list_at(step, "taken").ok_or(Why::Taken)?.iter() {
            let file = self.holds.take(alloc, host, token, place)?;
            event.files.push(file).map_err(AllocError::from)?;
        }
        Ok(())
    }

    // What stands beside the step.
    fn say(&mut self, alloc: Global, event: &mut Event, step: &Value) -> Result<(), Why> {
        match event.lane {
            Lane::Host(host) => self.say_of_host(alloc, host, event, step),
            Lane::Server(_) => self.say_of_server(alloc, event, step),
        }
    }

    fn say_of_host(
        &mut self,
        alloc: Global,
        host: u64,
        event: &mut Event,
        step: &Value,
    ) -> Result<(), Why> {
        for answer in list_at(step, "answers").ok_or(Why::Answers)?.iter() {
            event
                .said
                .push(answered(alloc, answer)?)
                .map_err(AllocError::from)?;
            push_paths(alloc, event, answer)?;
            self.asking.end_wait(host, self.events.len());
        }
        if let Some(asked) = step.get("asked") {
            if asked.is_object() {
                self.asking.ask(alloc, host, asked, self.events.len())?;
                event
                    .said
                    .push(begun(alloc, asked)?)
                    .map_err(AllocError::from)?;
                push_paths(alloc, event, asked)?;
            }
        }
        self.tell_gives(host, step);
        if matches!(event.sign, Sign::Stop) {
            self.asking.end_wait(host, self.events.len());
        }
        Ok(())
    }

    // The call that a give-back ends is known by its number.
    fn tell_gives(&mut self, host: u64, step: &Value) {
        for give in list_at(step, "made").unwrap_or(&[]).iter() {
            if let Some(ends) = give.get("ends") {
                self.asking
                    .tell(host, number_at(ends, "k"), number_at(give, "number"));
            }
        }
    }

    fn say_of_server(&mut self, alloc: Global, event: &mut Event, step: &Value) -> Result<(), Why> {
        for applied in list_at(step, "applied").ok_or(Why::Applied)?.iter() {
            if let Some(answer) = answer_of(applied) {
                self.asking.decide(alloc, answer)?;
                event
                    .said
                    .push(decided(alloc, answer)?)
                    .map_err(AllocError::from)?;
                push_paths(alloc, event, answer)?;
            }
        }
        Ok(())
    }
}

// A node's line, from a node.
fn lane_of(node: &Value) -> Option<Lane> {
    let (name, number) = case_of(node)?;
    let number = number.as_u64()?;
    match name {
        "host" => Some(Lane::Host(number)),
        "server" => Some(Lane::Server(number)),
        _ => None,
    }
}

fn sign_of(lane: Lane, cause: &Value, step: &Value) -> Option<Sign> {
    match name_of(cause)? {
        "line" if is_stop(lane, step) => Some(Sign::Stop),
        "line" => Some(Sign::Line),
        "restart" => Some(Sign::Restart),
        "message" => Some(Sign::Message),
        "end" => Some(Sign::End),
        "lapse" | "evict" | "flushed" => Some(Sign::Own),
        _ => None,
    }
}

// Whether a line of a host is its stop: its servers are told that it is down.
fn is_stop(lane: Lane, step: &Value) -> bool {
    let is_host = matches!(lane, Lane::Host(_));
    is_host && list_at(step, "sent").unwrap_or(&[]).iter().any(says_down)
}

fn says_down(message: &Value) -> bool {
    message.get("body").and_then(Value::as_str) == Some("down")
}

// What caused a step, in words.
fn title_of(alloc: Global, holds: &Holds, cause: &Value) -> Result<String, AllocError> {
    match cause.get("message") {
        Some(message) => match message.get("body") {
            Some(body) => label_of(alloc, holds, body),
            None => Ok(String::new(alloc)),
        },
        None => own_title(alloc, cause),
    }
}

fn own_title(alloc: Global, cause: &Value) -> Result<String, AllocError> {
    let mut text = Text::new(alloc);
    match case_of(cause) {
        Some((name, number)) => {
            text.word(name);
            text.word(" ");
            text.number(number.as_u64().unwrap_or(0));
        }
        None => text.word(cause.as_str().unwrap_or("")),
    }
    text.into_text()
}

// The reply of a call that a server decided.
fn answer_of(applied: &Value) -> Option<&Value> {
    match case_of(applied)? {
        ("replied", answer) => Some(answer),
        ("done", done) => done.get("answer"),
        _ => None,
    }
}

fn push_file(event: &mut Event, file: Option<FileId>) -> Result<(), AllocError> {
    if let Some(file) = file {
        event.files.push(file)?;
    }
    Ok(())
}

// The paths of a call.
fn push_paths(alloc: Global, event: &mut Event, holds: &Value) -> Result<(), AllocError> {
    let Some((_, call)) = holds.get("call").and_then(case_of) else {
        return Ok(());
    };
    for name in ["place", "from", "to"] {
        if let Some(place) = call.get(name) {
            if place.is_object() {
                let mut text = Text::new(alloc);
                put_path(&mut text, place);
                event.paths.push(text.into_text()?)?;
            }
        }
    }
    Ok(())
}
