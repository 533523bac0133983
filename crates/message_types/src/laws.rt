ghost use Rattle.message_types.specs.Examples.{Examples, AskedAndTold, ChangedAndGiven};

/// Some messages are sound, and each of some others isn't, for one reason.
pub fn sound_by_example()
    ensures some { Examples }
    ensures asked { AskedAndTold }
    ensures changed { ChangedAndGiven }
{}
