//! Each function does nothing, and what it ensures is a law.
ghost use Rattle.tree_laws.specs.Labels.{AllLabelsChangeSo, LabelsAreCountedByHost, OthersExcludeOnlySo};
ghost use Rattle.tree_laws.specs.Labels.{OpenTable, OverlapIsCommon, UsesKeepAgreeing};
ghost use Rattle.tree_laws.specs.Losses.{AllLossesAreExact};

/// Which locks and open files each entry adds and ends. Those of two hosts never conflict, whatever entries come; each
/// host has at most 64 of each, and is refused for their number only then, and for another host's only where that is in
/// the way.
pub fn label_law()
    ensures changes { AllLabelsChangeSo }
    ensures uses { UsesKeepAgreeing }
    ensures counts { LabelsAreCountedByHost }
    ensures others { OthersExcludeOnlySo }
    ensures overlaps { OverlapIsCommon }
    ensures kinds { OpenTable }
{}

/// What a host that is down loses at a server: each of its unsaved bytes and lengths there once, by the path of its
/// file, and nothing else, in order.
pub fn loss_law()
    ensures { AllLossesAreExact }
{}
