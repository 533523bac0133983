//! Laws of the rules that the bytes of a disk keep. Each function does nothing, and what it ensures is a law.
ghost use Rattle.disk_image_laws.specs.Fresh.{FreshHasNone, CountIsTold};
ghost use Rattle.disk_image_laws.specs.Formed.{FilesetsAreFormed, FormedIsReached, ImageIsOne};
ghost use Rattle.disk_image_laws.specs.Mounted.{FirstFaultIsPlace, MountedHasLog, MountedIsImage};
ghost use Rattle.disk_image_laws.specs.Reached.{ReachIsLeast, RootIsReached, StepsLead};

/// An aggregate without filesets has no faults where its counts are zero, as after a format. A count that isn't zero is
/// told once, at its page.
pub fn fresh_law()
    ensures none { FreshHasNone }
    ensures count { CountIsTold }
{}

/// What is reached from the root of a fileset is what the entries of reached directories lead to, and nothing else.
pub fn reach_law()
    ensures least { ReachIsLeast }
    ensures root { RootIsReached }
    ensures steps { StepsLead }
{}

/// A disk without faults holds filesets that are trees where they are writable, clones or leaving, and has at most one
/// image. Of a fileset that arrives nothing is said: its directories may name objects that haven't come. And a fileset
/// that is a tree is reached as the rules want it.
pub fn formed_law()
    ensures formed { FilesetsAreFormed }
    ensures reached { FormedIsReached }
    ensures one { ImageIsOne }
{}

/// A disk is mounted for a server exactly where it has an image for it, which isn't worn and names declared servers
/// alone. Where it is refused for a fault, the place is that of its first one.
pub fn refused_law()
    ensures image { MountedIsImage }
    ensures log { MountedHasLog }
    ensures fault { FirstFaultIsPlace }
{}
