ghost use Rattle.hub_board.specs.Laws.{GoesOn};

/// After each turn the board is what the turns in its list have made of the first one, in order, and each turn gave
/// what there was: so what a turn gives is a function of the script and of the turns before it.
pub fn a_turn_goes_on()
    ensures { GoesOn }
{}
