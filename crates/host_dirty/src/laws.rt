ghost use Rattle.host_dirty.specs.FileLaws.{FilesRise, FilesAreDirty};

use crate::dirty::Dirty;

/// Laws of the dirty files: their fids rise, and each is there exactly where a position or the length is dirty. It does
/// nothing.
pub fn dirty_files_law(dirty: &Dirty)
    ensures rise { FilesRise dirty.now }
    ensures dirty { FilesAreDirty dirty.now }
{
    dirty.order();
}
