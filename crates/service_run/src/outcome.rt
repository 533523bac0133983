ghost use Rattle.std.specs.Prelude.{◌≡◌};
ghost use Rattle.service_run.specs.Courses.{no_roster as none};
ghost use Rattle.service_run.specs.Outcomes.{code_of, IsEmpty};

use base_types::Items;
use run_rules::Journal;
use script_lines::Script;
use service_plain::Played;
use std::alloc::Global;
use tree_calls::Roster;

/// How a run ended.
#[derive(Clone, Copy)]
pub enum Status {
    /// The script ran, or the disks were checked and none has a fault; and the sink got the whole output.
    Done,
    /// The words aren't in the grammar.
    NoCommand,
    /// The bytes that were read are no script.
    NoScript,
    /// The source failed.
    NoInput,
    /// The script ran, or the disks were checked, and the sink failed, which got a part of the output, from its front.
    NoOutput,
    /// A disk failed, and failed again when that was tried once more.
    NoDisk,
    /// A disk isn't blank, and is no aggregate of its server, or doesn't fit the others.
    NoAggregate,
    /// Memory ran out.
    NoMemory,
    /// The disks were checked, one of them has a fault, and the sink got the whole output.
    HasFaults,
    /// Hosts and servers ran the script to where nothing more could happen, and a node wasn't done.
    Stuck,
}

impl Status {
    /// The number with which the program ends.
    pub fn code(self) -> u8
        ensures { result ≡ code_of self }
    {
        match self {
            Status::Done => 0,
            Status::NoCommand => 1,
            Status::NoScript => 2,
            Status::NoInput => 3,
            Status::NoOutput => 4,
            Status::NoDisk => 5,
            Status::NoAggregate => 6,
            Status::NoMemory => 7,
            Status::HasFaults => 8,
            Status::Stuck => 9,
        }
    }
}

/// How a script ran.
#[derive(Drop)]
pub enum Course {
    /// Nothing is told of a run.
    Empty,
    /// Hosts and servers ran it, and this happened, step by step.
    Hosted(Journal),
    /// It ran on the file tree alone, since a line of it moves a fileset, or one of the tree has moved.
    Played(Played),
}

/// What became of a run.
#[derive(Drop)]
pub struct Outcome {
    /// How it ended. Where it isn't `Done` or `NoOutput`, or disks were checked, nothing is told of a run, and the
    /// other fields are empty.
    pub status: Status,
    /// How the script ran.
    pub course: Course,
    /// The script.
    pub lines: Script,
}

// An outcome without a run.
pub(crate) fn without_run(alloc: Global, status: Status) -> Outcome
    ensures status { result.status ≡ status }
    ensures empty { IsEmpty result }
{
    Outcome {
        status,
        course: Course::Empty,
        lines: Script {
            servers: 0,
            roster: no_roster(alloc),
            setup: Items::new(alloc),
            plan: Items::new(alloc),
            net: None,
            lines: Items::new(alloc),
        },
    }
}

fn no_roster(alloc: Global) -> Roster
    ensures { result ≡ none }
{
    Roster {
        users: Items::new(alloc),
        hosts: Items::new(alloc),
        capacity: Items::new(alloc),
    }
}
