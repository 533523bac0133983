//! Laws of the objects that an aggregate keeps: what its pages and blocks hold is what the image of its disk has. Each
//! function does nothing, and what it ensures is a law.
ghost use Rattle.disk_image_laws.specs.ObjectLaws.{
  AnodesAreRight,
  CountsAreRight,
  FaultlessIsInOrder,
  FaultlessKeeps,
  FilesetIsRead,
  KeptIsInOrder,
  KeptIsRead,
};

/// What is kept of an anode is what the image of the disk has there, and of a slot's fileset its anodes: names, access
/// lists, bytes and entries.
pub fn image_law()
    ensures anode { KeptIsRead }
    ensures fileset { FilesetIsRead }
{}

/// An aggregate without faults keeps the anodes of its image, 64 of each slot: a mount of what any program wrote begins
/// with anodes that are kept. And its pointers and counts are in order.
pub fn faultless_law()
    ensures keeps { FaultlessKeeps }
    ensures order { FaultlessIsInOrder }
{}

/// Where an aggregate keeps anodes, its pointers and counts are in order.
pub fn order_law()
    ensures { KeptIsInOrder }
{}

/// The counts of an aggregate are those that the rules want, where they are kept, and its slots have no faults.
pub fn count_law()
    ensures { CountsAreRight }
{}

/// Anodes that are kept have no faults, nor have their blocks, where each stands where it may.
pub fn anode_law()
    ensures { AnodesAreRight }
{}
