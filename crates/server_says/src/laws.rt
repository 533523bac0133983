//! What makes the definitions of this crate believable: the function does nothing, and what it ensures is a law.
ghost use Rattle.server_says.specs.Laws.{ClaimsAreGranted};

/// A claim that is granted is one that the rules allow, with just the tokens that they say; each of its host's claims
/// whose give-backs have all come is answered by what became of it, and the tables stand then.
pub fn claim_law()
    ensures { ClaimsAreGranted }
{}
