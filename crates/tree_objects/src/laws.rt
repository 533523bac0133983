//! What makes the definitions of changes believable: each function does nothing, and what it ensures is a law.
ghost use Rattle.tree_objects.specs.Laws.{
  WriteShows,
  WriteKeepsOthers,
  WriteIsSeen,
  TruncateShows,
  StoreShows,
  SyncShows,
  ForgetShows,
  CloneHoldsPresent,
  SpansAreExact,
  SpansAreMaximal,
};

/// What a write leaves at each position of a file: the written bytes are seen, and no other byte changes.
pub fn write_law()
    ensures shows { WriteShows }
    ensures others { WriteKeepsOthers }
    ensures seen { WriteIsSeen }
{}

/// What a truncation leaves at each position of a file.
pub fn truncate_law()
    ensures { TruncateShows }
{}

/// What a host's storing leaves at each position of a file, and what a sync leaves.
pub fn store_law()
    ensures store { StoreShows }
    ensures sync { SyncShows }
{}

/// What is left at each position of a file where a host's unsaved changes are lost.
pub fn forget_law()
    ensures { ForgetShows }
{}

/// A clone holds what readers see.
pub fn clone_law()
    ensures { CloneHoldsPresent }
{}

/// The spans that a host would lose have exactly its unsaved bytes, and are as few as there can be.
pub fn loss_law()
    ensures exact { SpansAreExact }
    ensures maximal { SpansAreMaximal }
{}
