//! What mounting a disk begins with. The function does nothing, and what it ensures is a law.
ghost use Rattle.disk_records.specs.MountLaws.{FaultlessIsStorable, FaultlessSays, UnrefusedIsMounted};

/// The record of a disk without faults, in format 2, is one that a disk can have, where the servers that its headers
/// name are declared. And its pages say this record. Where the mount of a disk isn't refused, all of that holds.
pub fn mount_law()
    ensures storable { FaultlessIsStorable }
    ensures says { FaultlessSays }
    ensures mounted { UnrefusedIsMounted }
{}
