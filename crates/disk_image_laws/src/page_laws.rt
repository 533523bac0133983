//! Laws of the pages of an aggregate: what a page says determines each of its bytes, so that damage to a byte
//! is a fault or makes the page say something else. Each function does nothing, and what it ensures is a law.
ghost use Rattle.disk_image_laws.specs.PageLaws.{
  FreePagesAreOne,
  HeadersAreOne,
  NumbersPagesAreOne,
  ObjectPagesAreOne,
  ServerPagesAreOne,
};
ghost use Rattle.disk_image_laws.specs.Lists.{ReadIsSaved, SavedIsRead};

/// Two pages of one kind that say the same are the same: each byte is judged, or is part of what the page says.
pub fn page_law()
    ensures server { ServerPagesAreOne }
    ensures numbers { NumbersPagesAreOne }
    ensures headers { HeadersAreOne }
    ensures objects { ObjectPagesAreOne }
    ensures free { FreePagesAreOne }
{}

/// A block that is saved as an access list is read as this list, and one that is read as a list was saved as it: the
/// bytes of a list in a block are those of messages, with zeros behind.
pub fn list_law()
    ensures read { SavedIsRead }
    ensures saved { ReadIsSaved }
{}
