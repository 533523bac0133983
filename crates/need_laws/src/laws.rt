//! Each function does nothing, and what it ensures is a law.
ghost use Rattle.need_laws.specs.Decided.{ServersDecideAlike, ServersRefuseAlike};
ghost use Rattle.need_laws.specs.Idle.{MovesAreRefusedAlike, OthersMindNoUses};
ghost use Rattle.need_laws.specs.Laws.{CallsHangOnTheirServer, CallsStayAtTheirServer, OthersStay, PartsAreSame};
ghost use Rattle.need_laws.specs.Uses.{LocksMindUses, OpensMindUses, RemovesMindUses};
ghost use Rattle.need_laws.specs.Wanted.{WantsHangOnTheirServer};

/// What a call at a server is answered, and what it leaves there, hangs on the server's filesets, records and room, and
/// on what is in use; it changes nothing else. Where no fileset has moved away, it leaves all the same for any other
/// server. What is wanted for a call hangs on the same. The server's filesets, apart from all others, are the same for
/// it.
pub fn server_law()
    ensures same { CallsHangOnTheirServer }
    ensures stays { CallsStayAtTheirServer }
    ensures others { OthersStay }
    ensures wants { WantsHangOnTheirServer }
    ensures parts { PartsAreSame }
{}

/// Locks and open files bear on no call but a Remove, those about labels, and a move. A Remove is refused for a file in
/// use where all else lets it; a Lock and an OpenFile under a free label for what is in their way.
pub fn use_law()
    ensures others { OthersMindNoUses }
    ensures removes { RemovesMindUses }
    ensures locks { LocksMindUses }
    ensures opens { OpensMindUses }
{}

/// A Change that a server decides on what it keeps of its own filesets, with nothing in use, is the tree's; one that it
/// refuses there the tree refuses alike, whatever is unsaved. So it is with a move, but for want of room.
pub fn kept_law()
    ensures changes { ServersDecideAlike }
    ensures refusals { ServersRefuseAlike }
    ensures moves { MovesAreRefusedAlike }
{}
