ghost use Rattle.hub_wire.specs.Laws.{AlwaysPosted, FlagsCommute, TakesFirst};

/// What is on its way in the network, and to whom lapses are due, is over all steps what the script makes of the
/// messages, in the order of sending; a flag may be raised before a step or after it; and what is taken is the first
/// copy that may arrive.
pub fn copies_are_planned()
    ensures posted { AlwaysPosted }
    ensures flags { FlagsCommute }
    ensures taken { TakesFirst }
{}
