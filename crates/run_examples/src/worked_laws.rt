ghost use Rattle.run_examples.specs.WorkedLaws.{IsWhole};

/// The rules admit a run of two hosts from its first step to its end, in which a host is greeted and enters, asks for
/// tokens and gets them, writes, answers from its cache, claims its tokens after a restart, gives back, keeps a lock,
/// unlocks, ends and says Bye; it keeps to the plan of its script, and its history is what the file tree says.
pub fn a_whole_run_is_admitted()
    ensures { IsWhole }
{}
