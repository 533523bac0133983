ghost use Rattle.base_types.specs.declared.span.Span.{Span};
ghost use Rattle.run_tokens.specs.Worked.{IsExample};

/// The rules of tokens admit a run in which a host greets a server, asks, gets tokens and answers from its cache; in
/// which the server restarts, and the host's claim is granted; and in which the host gives a token back, and learns
/// that it is applied.
pub fn a_run_of_tokens_is_admitted()
    ensures { (whole : Span) → IsExample whole }
{}
