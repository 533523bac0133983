ghost use Rattle.run_examples.specs.Refused.{OddSteps};
ghost use Rattle.run_examples.specs.Unanswered.{Unanswered};

/// A server that says Reclaimed unasked is refused, and so is a host that asks a server which it didn't greet, says a
/// message twice in a step, or gives back no token.
pub fn odd_steps_are_refused()
    ensures { OddSteps }
{}

/// A journal that keeps to its script's plan and is ended, in which a call was never answered, is no run.
pub fn an_unanswered_call_is_no_run()
    ensures { Unanswered }
{}
