ghost use Rattle.host_labels.specs.UseLaws.{Taken, Dropped, Pinned};

/// Laws of labels in use: what is found after a label was taken or taken out of use, and which tokens are pinned.
pub fn uses_law()
    ensures taken { Taken }
    ensures dropped { Dropped }
    ensures pinned { Pinned }
{}
