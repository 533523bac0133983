//! Each function does nothing, and what it ensures is a law.
ghost use Rattle.run_stores.specs.Changing.{ChangesAreKept, RepliesAreKept};
ghost use Rattle.run_stores.specs.Elsewhere.{OthersAreRefused};
ghost use Rattle.run_stores.specs.Ending.{LastIsKept, StoresFollow};
ghost use Rattle.run_stores.specs.Keeping.{FirstIsKept, GivesAreKept, RefusalsAreKept};
ghost use Rattle.run_stores.specs.Numbers.{NumbersAreTold, NumbersRise};
ghost use Rattle.run_stores.specs.Pieces.{GivesAreAlike, GivesFit, PiecesDiffer};
ghost use Rattle.run_stores.specs.Standing.{ActsStand};
ghost use Rattle.run_stores.specs.Starting.{ServersStartSo};
ghost use Rattle.run_stores.specs.Steps.{BegunStoresEnd, StepsAreKept, StoresEnd, StoresStand};
ghost use Rattle.run_stores.specs.Telling.{GiftsAreTold, GrantsTellKept, TellsAreKept};
ghost use Rattle.run_stores.specs.Wanting.{WantsAreTold};

/// A Change that is refused leaves all that a store keeps of a tree.
pub fn refusal_law()
    ensures { RefusalsAreKept }
{}

/// A give-back that is stored leaves in a store what it leaves of what its server keeps.
pub fn give_law()
    ensures { GivesAreKept }
{}

/// What a store tells of an object, told by a Grant, is what its server keeps of it, so that a Grant that is made of
/// what the store tells tells what the rules want; and it tells which files take what is given back.
pub fn tell_law()
    ensures tells { TellsAreKept }
    ensures grants { GrantsTellKept }
    ensures gifts { GiftsAreTold }
{}

/// A store that keeps its part of the start tree keeps what its server keeps at the start; and one that keeps what its
/// server keeps at the end keeps its part of the last tree: so it is with the tree that the history of an ended run
/// makes.
pub fn end_law()
    ensures first { FirstIsKept }
    ensures last { LastIsKept }
    ensures run { StoresFollow }
{}

/// A Change that is done is done by the store as well, which keeps what its server keeps then.
pub fn change_law()
    ensures { ChangesAreKept }
{}

/// What the store would reply is what the rules reply, and these refuse what names a fileset of another server.
pub fn reply_law()
    ensures own { RepliesAreKept }
    ensures others { OthersAreRefused }
{}

/// Where the epochs of a journal are those of the servers' stores once the run has begun in them, each server starts in
/// the epoch of its store, which is one more than the one before.
pub fn epoch_law()
    ensures { ServersStartSo }
{}

/// A store stands for what its server keeps at the start, also once the run has begun in it, and after each act.
pub fn stand_law()
    ensures { ActsStand }
{}

/// Where the pieces of a give-back rise, as in each sound message, a store that is given them keeps what the rules say,
/// and may be given them; of two pieces for one byte the rules would take the first, and a store the last.
pub fn piece_law()
    ensures differ { PiecesDiffer }
    ensures alike { GivesAreAlike }
    ensures fit { GivesFit }
{}

/// A store that does the acts of a step, each of them now, stands for what its server keeps after the step: so it does
/// after all steps from the start tree on, and once the run is ended it keeps its part of the last tree. So it is with
/// a store in which the run begins, where each number of a host is new from 1 on.
pub fn step_law()
    ensures steps { StepsAreKept }
    ensures all { StoresStand }
    ensures end { StoresEnd }
    ensures begun { BegunStoresEnd }
{}

/// What is wanted for a Change can be read from what the store tells: the needs are those of the objects to which the
/// places of the call lead there, and there are none where the store would refuse the call; for a clone, if any, those
/// of all files of its source.
pub fn wants_law()
    ensures { WantsAreTold }
{}

/// Which acts a store does now can be read from the last numbers that it tells of each host: those, and only those, of
/// a higher number, under a fileset that is there. In each run the numbers of a host's Changes of a fileset that a
/// server writes down rise, over all epochs, and so do those of the give-backs that it applies.
pub fn number_law()
    ensures told { NumbersAreTold }
    ensures rise { NumbersRise }
{}
