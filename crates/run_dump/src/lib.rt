//! What is printed of the filesets of a tree shows each file and each directory once.
#![tactic(auto)]

ghost use Rattle.run_dump.specs.Shown.{HistoriesAreShown, ObjectsAreShown, RunsAreShown, TreesAreShown};
ghost use Rattle.run_dump.specs.Worked.{WorkedDump};

/// What is printed of an object shows its kind, its path, its owner and group, its lists, and of a file runs that tell
/// the bytes which readers see. What is printed of a history that leaves a well formed tree has each of its filesets
/// once, behind the replies and losses, and of each fileset each file and directory once, under the path that leads to
/// it; the summary has the same filesets, with as many objects as are shown. So it is with each legal history of a well
/// formed tree, and with each run.
pub fn dump_law()
    ensures objects { ObjectsAreShown }
    ensures trees { TreesAreShown }
    ensures histories { HistoriesAreShown }
    ensures runs { RunsAreShown }
{}

/// Two filesets at two servers as they are printed and summed up, byte by byte: first that of the earlier server, a
/// clone with an empty root; then a directory whose three lists differ, and in it a file with each kind of entry and
/// each right, of whose bytes one isn't saved yet.
pub fn worked_law()
    ensures { WorkedDump }
{}
