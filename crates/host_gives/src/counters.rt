ghost use Rattle.std.specs.Prelude.{◌≡◌, option_copied, OnOk, OnErr};
ghost use Rattle.std.specs.List.{find, position};
ghost use Rattle.host_gives.specs.Counters.{is_of, last_of, with_last};

use base_types::{FilesetId, Items, NoMemory};

/// The number of the last give-back that was made of a fileset.
#[derive(Clone, Copy, Debug, PartialEq)]
pub(crate) struct Counter {
    pub(crate) fileset: FilesetId,
    pub(crate) number: u64,
}

/// The last number of a fileset; 0 where none was made.
pub(crate) fn last_of(counters: &[Counter], fileset: FilesetId) -> u64
    ensures { result ≡ last_of counters.now fileset }
{
    counter_of(counters, fileset).map_or(0, |counter| counter.number)
}

fn counter_of(counters: &[Counter], fileset: FilesetId) -> Option<&Counter>
    ensures { option_copied result ≡ find (is_of fileset) counters.now }
{
    counters.iter().find(|counter| counter.fileset == fileset)
}

/// Sets the last number of a fileset. On an error nothing changes.
pub(crate) fn set_last(
    counters: &mut Items<Counter>,
    fileset: FilesetId,
    number: u64,
) -> Result<(), NoMemory>
    ensures after { OnOk result (counters.new ≡ with_last counters.old fileset number) }
    ensures err { OnErr result (counters.new ≡ counters.old) }
{
    let counter = Counter { fileset, number };
    match place_of(counters.as_slice(), fileset) {
        Some(place) => counters.put(place, counter),
        None => counters.push(counter)?,
    }
    Ok(())
}

fn place_of(counters: &[Counter], fileset: FilesetId) -> Option<usize>
    ensures { result ≡ position (is_of fileset) counters.now }
{
    counters
        .iter()
        .position(|counter| counter.fileset == fileset)
}
