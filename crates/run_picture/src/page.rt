//! Where everything is on the page. Lengths are in points.

use crate::choice::Choice;
use run_events::{Arrow, Event, Lane, Run};
use std::alloc::{AllocError, Global};

// From one line to the next.
const ACROSS: u64 = 300;
// From one step to the next.
const DOWN: u64 = 28;
/// From one call of a step to the next.
pub(crate) const CALL: u64 = 19;
// Left of the first line.
const LEFT: u64 = 262;
// Right of the last line.
const RIGHT: u64 = 232;
// Above the first step.
const TOP: u64 = 84;
// Below the last step.
const FOOT: u64 = 116;

/// Where a step is.
#[derive(Clone, Copy)]
pub(crate) struct Row {
    /// How far from the top: as far as the step before it where it isn't shown.
    pub y: u64,
    /// Whether the step is shown.
    pub is_shown: bool,
}

/// A page.
#[derive(Drop)]
pub(crate) struct Page {
    /// The row of each step of the run.
    pub rows: Vec<Row>,
    /// How far from the top the lines end.
    pub end: u64,
    /// The first host that has a line.
    pub first: u64,
    /// How many hosts have lines.
    pub hosts: u64,
    /// How many servers there are.
    pub servers: u64,
}

impl Page {
    /// The page of a choice.
    pub(crate) fn new(alloc: Global, run: &Run, choice: &Choice<'_>) -> Result<Page, AllocError> {
        let marks = marks_of(alloc, run, choice)?;
        let (rows, end) = rows_of(alloc, run, choice, marks.as_slice())?;
        let first = match choice.shown.host {
            Some(host) => host,
            None if has_setup(run, choice, rows.as_slice()) => 0,
            None => 1,
        };
        let hosts = match choice.shown.host {
            Some(_) => 1,
            None => run.hosts.saturating_add(1).saturating_sub(first),
        };
        Ok(Page {
            rows,
            end,
            first,
            hosts,
            servers: run.servers,
        })
    }

    /// How many lines there are.
    pub(crate) fn lanes(&self) -> u64 {
        self.hosts.saturating_add(self.servers)
    }

    /// Whose line is the how-manieth from the left, from 0.
    pub(crate) fn lane(&self, nth: u64) -> Lane {
        if nth < self.hosts {
            Lane::Host(self.first.saturating_add(nth))
        } else {
            Lane::Server(nth.saturating_sub(self.hosts).saturating_add(1))
        }
    }

    /// How far from the left a node's line is.
    pub(crate) fn x(&self, lane: Lane) -> u64 {
        let nth = match lane {
            Lane::Host(number) => number.saturating_sub(self.first),
            Lane::Server(number) => self.hosts.saturating_add(number).saturating_sub(1),
        };
        LEFT.saturating_add(nth.saturating_mul(ACROSS))
    }

    /// How far from the top the step of a place is, from 0: where the lines end, if there is none.
    pub(crate) fn y(&self, step: usize) -> u64 {
        match self.rows.as_slice().get(step) {
            Some(row) => row.y,
            None => self.end,
        }
    }

    /// Whether the step of a place is shown.
    pub(crate) fn has_step(&self, step: usize) -> bool {
        match self.rows.as_slice().get(step) {
            Some(row) => row.is_shown,
            None => false,
        }
    }

    /// How wide the page is.
    pub(crate) fn width(&self) -> u64 {
        let between = self.lanes().saturating_sub(1).saturating_mul(ACROSS);
        LEFT.saturating_add(between).saturating_add(RIGHT)
    }

    /// How high the page is.
    pub(crate) fn height(&self) -> u64 {
        self.end.saturating_add(FOOT)
    }
}

// Which steps sent or took a message that is shown, or end a call that is.
fn marks_of(alloc: Global, run: &Run, choice: &Choice<'_>) -> Result<Vec<bool>, AllocError> {
    let mut marks = vec![in alloc; false; run.events.len()]?;
    mark_waits(&mut marks, run, choice);
    for arrow in run.arrows.iter() {
        if choice.has_arrow(arrow) {
            mark(&mut marks, arrow.from);
            mark_all(&mut marks, arrow.taken.as_slice());
        }
    }
    Ok(marks)
}

fn mark_waits(marks: &mut Vec<bool>, run: &Run, choice: &Choice<'_>) {
    for wait in run.waits.iter() {
        if choice.has_wait(run, wait) {
            if let Some(until) = wait.until {
                mark(marks, until);
            }
        }
    }
}

fn mark_all(marks: &mut Vec<bool>, steps: &[usize]) {
    for step in steps.iter() {
        mark(marks, *step);
    }
}

fn mark(marks: &mut Vec<bool>, step: usize) {
    if let Some(slot) = marks.get_mut(step) {
        *slot = true;
    }
}

// The rows of all steps, and where the lines end.
fn rows_of(
    alloc: Global,
    run: &Run,
    choice: &Choice<'_>,
    marks: &[bool],
) -> Result<(Vec<Row>, u64), AllocError> {
    let mut rows = Vec::new(alloc);
    let mut y = TOP;
    let mut next = TOP.saturating_add(DOWN);
    for (place, event) in run.events.iter().enumerate() {
        let number = (place as u64).saturating_add(1);
        let is_after = number > choice.shown.to;
        let is_marked = marks.get(place).copied() == Some(true);
        let is_shown = choice.shown.from <= number
            && !is_after
            && (is_marked || choice.has_event(event));
        if is_shown || is_after {
            y = next;
        }
        if is_shown {
            next = y.saturating_add(height_of(event));
        }
        rows.push(Row { y, is_shown })?;
    }
    Ok((rows, next))
}

// How high a step is, with the calls beside it.
fn height_of(event: &Event) -> u64 {
    let further = (event.said.len() as u64).saturating_sub(1);
    DOWN.saturating_add(further.saturating_mul(CALL))
}

// Whether the setup host does something on the page, or is sent a message there.
fn has_setup(run: &Run, choice: &Choice<'_>, rows: &[Row]) -> bool {
    let setup = Lane::Host(0);
    let has_step = run
        .events
        .iter()
        .zip(rows.iter())
        .any(|(event, row)| row.is_shown && event.lane == setup);
    has_step
        || run.arrows.iter().any(|arrow| arrow.to == setup
            && choice.has_arrow(arrow)
            && is_begun(rows, arrow))
}

// Whether the step that sent a message is shown.
fn is_begun(rows: &[Row], arrow: &Arrow) -> bool {
    match rows.get(arrow.from) {
        Some(row) => row.is_shown,
        None => false,
    }
}
