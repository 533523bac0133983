ghost use Rattle.hub_laws.specs.Beginnings.{EndIsDone, FlagsAreMet};
ghost use Rattle.hub_laws.specs.Closings.{ClosedHasHeld, MadeGoesOn, MadeStays, NodesAreApart};
ghost use Rattle.hub_laws.specs.ClosedExample.{ExampleIsClosed};
ghost use Rattle.hub_laws.specs.Tellings.{FlagOnceALine};

/// What the board counts as the end of the setup host is what runs demand of it. So where each other host lets lines go
/// only after it was told of that end, and the setup host greets nobody once it is done, the journal's flags are met.
pub fn hosts_begin_when_the_setup_host_is_done()
    ensures end { EndIsDone }
    ensures flags { FlagsAreMet }
{}

/// Between two turns that tell a node of a flag one of its lines goes.
pub fn a_flag_is_told_once_a_line()
    ensures { FlagOnceALine }
{}

/// What was made through a pass grows by each turn that the hub answers, stays where memory runs out, and the passes of
/// a new hub are of different nodes.
pub fn a_pass_goes_on()
    ensures goes { MadeGoesOn }
    ensures stays { MadeStays }
    ensures apart { NodesAreApart }
{}

/// At a hub that was closed, and whose nodes have kept, each by what was made through its pass, to what they were
/// given: the message that is the cause of a step was sent before, to its node; flags are met; the journal keeps to the
/// plan of the script; a node's steps in the journal are those made through its pass; and each message given to it was
/// sound.
pub fn a_closed_hub_has_held()
    ensures { ClosedHasHeld }
{}

/// A hub that was closed so: a host is told that the setup host has ended, and greets a server, which welcomes it.
pub fn a_hub_is_closed()
    ensures { ExampleIsClosed }
{}
