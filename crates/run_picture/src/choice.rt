//! What is shown of a run.

use run_events::{Arrow, Event, Hold, Lane, Run, Wait};
use run_words::FileId;
use std::alloc::{AllocError, Global};

/// What is shown of a run: the steps from one number to another, of these what concerns a host and a file, where they
/// are given. A step concerns a host where it is the host's, or sends it a message, or takes one of it. A step concerns
/// a file where a call, a token or a message is about it.
#[derive(Clone, Copy)]
pub struct Shown<'a> {
    /// The number of the first step, from 1.
    pub from: u64,
    /// The number of the last step.
    pub to: u64,
    /// The host, by its number.
    pub host: Option<u64>,
    /// The file, by its path.
    pub file: Option<&'a str>,
}

/// What is shown, with the files that had the path.
#[derive(Drop)]
pub(crate) struct Choice<'a> {
    /// What is shown.
    pub shown: Shown<'a>,
    files: Vec<FileId>,
}

impl<'a> Choice<'a> {
    /// With the files that ever had the path in the run.
    pub(crate) fn new(
        alloc: Global,
        run: &Run,
        shown: Shown<'a>,
    ) -> Result<Choice<'a>, AllocError> {
        let files = match shown.file {
            Some(path) => run.files.at_path(alloc, path)?,
            None => Vec::new(alloc),
        };
        Ok(Choice { shown, files })
    }

    /// Whether a step itself is about the host and the file.
    pub(crate) fn has_event(&self, event: &Event) -> bool {
        let of_file = match self.shown.file {
            Some(path) => has_path(event, path)
                || event.files.iter().any(|file| self.files.contains(file)),
            None => true,
        };
        of_file && self.has_lane(event.lane)
    }

    // Whether a line is that of the host, where there is one.
    fn has_lane(&self, lane: Lane) -> bool {
        match self.shown.host {
            Some(host) => lane == Lane::Host(host),
            None => true,
        }
    }

    /// Whether a message is from or to the host, and about the file.
    pub(crate) fn has_arrow(&self, arrow: &Arrow) -> bool {
        let of_file = match (self.shown.file, arrow.file) {
            (Some(_), Some(file)) => self.files.contains(&file),
            (Some(_), None) => false,
            (None, _) => true,
        };
        of_file && (self.has_lane(arrow.sender) || self.has_lane(arrow.to))
    }

    /// Whether a token is the host's, and of the file.
    pub(crate) fn has_hold(&self, hold: &Hold) -> bool {
        let of_file = self.shown.file.is_none() || self.files.contains(&hold.file);
        of_file && self.has_lane(Lane::Host(hold.host))
    }

    /// Whether a call that a host waits for is about the host and the file: the step that began it is.
    pub(crate) fn has_wait(&self, run: &Run, wait: &Wait) -> bool {
        match run.events.get(wait.from) {
            Some(event) => self.has_event(event),
            None => false,
        }
    }
}

fn has_path(event: &Event, path: &str) -> bool {
    event.paths.iter().any(|one| one.as_str() == path)
}
