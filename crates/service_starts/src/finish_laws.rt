//! Each function does nothing, and what it ensures is a law.
ghost use Rattle.service_starts.specs.FinishLaws.{MovesBegin, MovesEnd, MovesFinish, ShipsAreTold};

/// Where disks fit, the stores that have settled what they had to keep the tree that a run starts from; some filesets
/// are still on their way.
pub fn begun_law()
    ensures { MovesBegin }
{}

/// What a store tells of the fileset that is leaving it.
pub fn ship_law()
    ensures { ShipsAreTold }
{}

/// A fileset that is leaving a store arrives whole at the other one when all its parts are sent again, and leaves.
pub fn finish_law()
    ensures { MovesFinish }
{}

/// Once no fileset is leaving a store, each store keeps its part of the tree in which no room is kept.
pub fn ended_law()
    ensures { MovesEnd }
{}
