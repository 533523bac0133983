//! How a journal is told once its run has ended.
ghost use Rattle.std.specs.Prelude.{◌≡◌};
ghost use Rattle.service_run.specs.Outcomes.{has_run};
ghost use Rattle.service_run.specs.Output.{Wrote};
ghost use Rattle.service_run.specs.World.{shown};
ghost use Rattle.dfs_run.specs.declared.journal.Ended.TheVariants.{NoJournal as WithoutJournal};
ghost use Rattle.dfs_run.specs.Lines.{fault_line, file_line, hosts_line};
ghost use Rattle.dfs_run.specs.Told.{ended_code, IsToldSo};

use crate::lines::{fault_line, file_line, hosts_line};
use base_io::write_all;
use base_types::Sink;
use run_journal::{NotWritten, write_journal};
use run_rules::Journal;
use service_run::Status;
use std::alloc::Global;

/// How a run ended of which a journal was asked for.
#[derive(Clone, Copy)]
pub(crate) enum Ended {
    /// As the run did.
    Ran(Status),
    /// The run came to its end; its journal isn't in the file, or a part of it alone.
    NoJournal,
    /// The run came to its end; then memory ran out, and its file got nothing.
    NoMemory,
}

impl Ended {
    /// The number with which the program ends: that of the run, 10 without a journal, or 7 without memory.
    pub(crate) fn code(self) -> u8
        ensures { result ≡ ended_code self }
    {
        match self {
            Ended::Ran(status) => status.code(),
            Ended::NoJournal => 10,
            Ended::NoMemory => Status::NoMemory.code(),
        }
    }
}

/// Whether a script ran to its end, so that its journal is told.
pub(crate) fn has_run(status: Status) -> bool
    ensures { result ≡ has_run status }
{
    matches!(status, Status::Done | Status::NoOutput)
}

/// Writes the journal of a run that ended so to its file, and says on the sink where that fails.
///
/// Where the file failed, it got a part of the journal, from its front, and `journal: write fault` is written.
/// `NoMemory` comes where memory runs out, and writes nothing.
pub(crate) fn tell_journal<J: Sink, K: Sink>(
    alloc: Global,
    status: Status,
    journal: &Journal,
    file: &mut J,
    sink: &mut K,
) -> Ended
    ensures { IsToldSo journal.now status result
        (shown J.tells (J.got file.old) (J.faults file.old)) (shown J.tells (J.got file.new) (J.faults file.new))
        (shown K.tells (K.got sink.old) (K.faults sink.old)) (shown K.tells (K.got sink.new) (K.faults sink.new)) }
{
    match write_journal(alloc, journal, file) {
        Ok(()) => Ended::Ran(status),
        Err(NotWritten::Failed) => refuse(fault_line(), sink),
        Err(NotWritten::Memory) => Ended::NoMemory,
    }
}

/// Writes `journal: no file`, where the file of a journal can't be made: the run ended, and there is no journal.
pub(crate) fn refuse_file<K: Sink>(sink: &mut K) -> Ended
    ensures none { result ≡ WithoutJournal }
    ensures wrote { K.tells → Wrote file_line
        (shown K.tells (K.got sink.old) (K.faults sink.old)) (shown K.tells (K.got sink.new) (K.faults sink.new)) }
{
    refuse(file_line(), sink)
}

/// Writes `journal: no hosts`, where a script ran on the file tree alone, which has no journal.
pub(crate) fn refuse_course<K: Sink>(sink: &mut K) -> Ended
    ensures none { result ≡ WithoutJournal }
    ensures wrote { K.tells → Wrote hosts_line
        (shown K.tells (K.got sink.old) (K.faults sink.old)) (shown K.tells (K.got sink.new) (K.faults sink.new)) }
{
    refuse(hosts_line(), sink)
}

// Writes why there is no journal. Where the sink fails, it got a part of the line.
fn refuse<K: Sink>(line: &[u8], sink: &mut K) -> Ended
    ensures none { result ≡ WithoutJournal }
    ensures wrote { K.tells → Wrote line.now
        (shown K.tells (K.got sink.old) (K.faults sink.old)) (shown K.tells (K.got sink.new) (K.faults sink.new)) }
{
    match write_all(sink, line) {
        Ok(()) | Err(_) => Ended::NoJournal,
    }
}
