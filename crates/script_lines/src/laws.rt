ghost use Rattle.script_lines.specs.Laws.{CirclesPlaceNothing, ChainsPlace, FirstClonePlaces};

/// Law: clone lines that place each other in a circle place nothing.
pub fn circles_place_nothing()
    ensures { CirclesPlaceNothing }
{}

/// Law: a clone of a clone of a fileset is placed, in whatever order their lines stand.
pub fn chains_place()
    ensures { ChainsPlace }
{}

/// Law: a name that no header places is placed by the first clone of it whose source is placed.
pub fn first_clone_places()
    ensures { FirstClonePlaces }
{}
