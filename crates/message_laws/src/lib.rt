//! Laws of sound messages: what a node may send has a spelling, and is read back from it. Each function does nothing,
//! and what it ensures is a law.
#![tactic(auto)]

ghost use Rattle.message_laws.specs.Laws.{SoundIsReadBack, SoundIsSpellable, SpellableIsTyped};

/// A sound message of a program has a spelling, and no message has one that can't be in a program.
pub fn sound_has_a_spelling()
    ensures sound { SoundIsSpellable }
    ensures typed { SpellableIsTyped }
{}

/// A sound message is read back, whatever follows.
pub fn sound_is_read_back()
    ensures { SoundIsReadBack }
{}
