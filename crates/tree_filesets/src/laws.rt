//! Laws of filesets, each the clause of a function that does nothing.
ghost use Rattle.tree_filesets.specs.Laws.{
  RefusedChangesNothing,
  StaysItself,
  StaysWellFormed,
  StartsWellFormed,
  UsedFileStays,
  WriteChangesItsSpan,
  CloneShowsSource,
  MovedIsTheSame,
  ClonesAreNew,
};

/// A refused call changes nothing in the fileset.
pub fn refused_changes_nothing()
    ensures { RefusedChangesNothing }
{}

/// A fileset keeps its server, number, name, kind and object limit under each answer.
pub fn stays_itself()
    ensures { StaysItself }
{}

/// A well formed fileset stays well formed under each answer.
pub fn stays_well_formed()
    ensures { StaysWellFormed }
{}

/// A new fileset is well formed, and so are a clone of a well formed one, and one that moved.
pub fn starts_well_formed()
    ensures { StartsWellFormed }
{}

/// A file that is locked or open stays where it is, whatever is called.
pub fn used_file_stays()
    ensures { UsedFileStays }
{}

/// A write changes no other object, and no present byte outside its span, which then shows the written bytes.
pub fn write_changes_its_span()
    ensures { WriteChangesItsSpan }
{}

/// A clone shows the bytes that its source shows, and is promised the blocks that were promised for it.
pub fn clone_shows_source()
    ensures { CloneShowsSource }
{}

/// A fileset that moved is the same one at another server, with one move more. It shows each object as it was present.
pub fn moved_is_the_same()
    ensures { MovedIsTheSame }
{}

/// A clone has never moved, and has nothing unsaved.
pub fn clones_are_new()
    ensures { ClonesAreNew }
{}
