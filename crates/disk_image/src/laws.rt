// Each function does nothing, and what it ensures is a law.
ghost use Rattle.disk_image.specs.Laws.{BlankHasNone, BlankIsBlank, FaultsLieInParts, ImageIsThere, SuperblockIsOne};

/// A blank disk, which nobody formatted or whose format was stopped, has no faults.
pub fn blank_law()
    ensures blank { BlankIsBlank }
    ensures none { BlankHasNone }
{}

/// A disk has a superblock exactly where it is that of a log, and names a server from 1 to 4 and 1,092 blocks
/// at least.
pub fn superblock_law()
    ensures { SuperblockIsOne }
{}

/// Each fault lies in the part of the disk that its rule speaks of.
pub fn place_law()
    ensures { FaultsLieInParts }
{}

/// A disk has an image for a server exactly where it isn't blank, its superblock names the server, and it has
/// no faults.
pub fn image_law()
    ensures { ImageIsThere }
{}
