ghost use Rattle.run_parts.specs.Uses.{LabelsHold, LockedGranted, LocksApart, PinnedLocked};

/// In every list of steps that meets the rules of tokens and those of labels: a label that is in use in the tree has a
/// granted token, until the server takes its host's Down or Bye, once the host has reclaimed in the server's epoch. The
/// tokens of labels of two hosts don't conflict, in a grace period too. What a server has pinned isn't without a label
/// in use in the tree, also of a host that has stopped, until its Down is taken.
pub fn labels_are_coherent()
    ensures granted { LabelsHold LockedGranted }
    ensures apart { LabelsHold LocksApart }
    ensures pinned { LabelsHold PinnedLocked }
{}
