//! Each function does nothing, and what it ensures is a law.
ghost use Rattle.need_server.specs.Laws.{ChangesAreAlike, KeptIsSettled, NamesChangeAlike, UsesRefuseLast};
ghost use Rattle.need_server.specs.Laws.{ChangesAreSo, WantsAreKept, WantsAreThere, WantsCoverChanges};
ghost use Rattle.need_server.specs.Worked.{WorkedWants};

/// A Change that a server decides on what it keeps is the Change of the tree: where it looks at no bytes and at no size
/// of a file, and each other one while nothing under its want is unsaved.
pub fn change_law()
    ensures names { NamesChangeAlike }
    ensures wanted { ChangesAreAlike }
{}

/// What is kept of a tree shows what is kept, and nothing in it is unsaved.
pub fn kept_law()
    ensures { KeptIsSettled }
{}

/// What a Change changes is under its want, for update, or is an object that wasn't there: the traits of an object
/// alone, or all of it; and with an object that goes whatever other hosts have of it is in the way. What stays is a
/// directory or a file as before. The want is the same on what is kept, and is of objects that are there.
pub fn want_law()
    ensures so { ChangesAreSo }
    ensures covers { WantsCoverChanges }
    ensures kept { WantsAreKept }
    ensures there { WantsAreThere }
{}

/// A file in use is the last that a Remove is refused for.
pub fn use_law()
    ensures { UsesRefuseLast }
{}

/// What is wanted for some calls in small trees, each by computing the definitions.
pub fn worked_law()
    ensures { WorkedWants }
{}
