//! The lines that say why there is no journal.
ghost use Rattle.std.specs.Prelude.{◌≡◌};
ghost use Rattle.dfs_run.specs.Lines.{fault_line, file_line, hosts_line};

/// The line where the file of a journal can't be made.
#[tactic(auto, unfolding(crate::specs::Lines::file_line))]
pub(crate) fn file_line() -> &'static [u8]
    ensures { result.now ≡ file_line }
{
    b"journal: no file\n"
}

/// The line where the file of a journal failed.
#[tactic(auto, unfolding(crate::specs::Lines::fault_line))]
pub(crate) fn fault_line() -> &'static [u8]
    ensures { result.now ≡ fault_line }
{
    b"journal: write fault\n"
}

/// The line where a script ran on the file tree alone.
#[tactic(auto, unfolding(crate::specs::Lines::hosts_line))]
pub(crate) fn hosts_line() -> &'static [u8]
    ensures { result.now ≡ hosts_line }
{
    b"journal: no hosts\n"
}
