// Laws of the records of disks. Each function does nothing, and what it ensures is a law.
ghost use Rattle.disk_records.specs.Laws.{
  EmptyIsNew,
  FactsAreSaid,
  HeadersAreSaid,
  RecordHasNoFaults,
  RecordIsRead,
  RecordIsThere,
  StaysAreSaid,
};

/// Nothing is lost that a disk says in format 2: the header of each fileset and the server's facts are made again of
/// the record.
pub fn said_law()
    ensures stays { StaysAreSaid }
    ensures headers { HeadersAreSaid }
    ensures facts { FactsAreSaid }
{}

/// A disk without filesets, as a format leaves it, is a store before its first act.
pub fn new_law()
    ensures { EmptyIsNew }
{}

/// Where the pages of a disk say a record that it can have, and its slots keep the anodes, the image of the disk is
/// this record; and it has no faults.
pub fn read_law()
    ensures record { RecordIsRead }
    ensures faults { RecordHasNoFaults }
    ensures there { RecordIsThere }
{}
