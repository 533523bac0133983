//! What makes the definitions of this crate believable: each function does nothing, and what it ensures is a law.
ghost use Rattle.token_table.specs.TableLaws.{GrantsEachNeed, GrantsToTheHost, GrantsTheNextNumbers, GrantsNewNumbers};
ghost use Rattle.token_table.specs.TableLaws.{OneNumberOneToken, StaysSound};

/// The tokens that a table grants next for needs: one for each need, in their order, and each for a need; all of the
/// host; with the sequence numbers behind the last one, each once; and of numbers that no token of the table has.
pub fn next_tokens_law()
    ensures each { GrantsEachNeed }
    ensures host { GrantsToTheHost }
    ensures next { GrantsTheNextNumbers }
    ensures new { GrantsNewNumbers }
{}

/// No two places of a table have tokens of one number, and this holds after a grant, too.
pub fn one_number_law()
    ensures one { OneNumberOneToken }
    ensures stays { StaysSound }
{}
