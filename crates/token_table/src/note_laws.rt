//! What makes the definitions of this crate believable: the function does nothing, and what it ensures are laws.
ghost use Rattle.token_table.specs.MarkLaws.{AfterNote, AfterForgetting, AfterPin, AfterMark, AfterEach, AfterHost};

/// What is noted of each token after a note, a note taken away, a pin, a token asked back, the same note of several
/// tokens, and a host that is gone: of all other tokens it stays.
pub fn marks_law()
    ensures note { AfterNote }
    ensures forgetting { AfterForgetting }
    ensures pin { AfterPin }
    ensures mark { AfterMark }
    ensures each { AfterEach }
    ensures host { AfterHost }
{}
