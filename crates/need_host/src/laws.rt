//! Each function does nothing, and what it ensures is a law.
ghost use Rattle.need_host.specs.Laws.{AllLacksAreFirst, AllWalksEnd, CoveredAnswersAreTheTrees};
ghost use Rattle.need_host.specs.Laws.{LooksEndInReplies, NamesLeadOn, NeedsAreAlike};
ghost use Rattle.need_host.specs.Laws.{NothingBeyond, QuestionsAreAboutFilesets, ShownAgree, TokensShowParts};
ghost use Rattle.need_host.specs.Present.{AnswersLeaveAlike, AnswersLeaveAll, SyncsOfNothing};
ghost use Rattle.need_host.specs.Updates.{NeedsSuffice};
ghost use Rattle.need_host.specs.Worked.{WorkedLooks};

/// The look of a call over a well formed tree ends in the reply of the tree, and so does a covered look over a view
/// that agrees with the tree under the host's tokens. What a host asks is about the fileset of the call.
pub fn look_law()
    ensures tree { LooksEndInReplies }
    ensures covered { CoveredAnswersAreTheTrees }
    ensures questions { QuestionsAreAboutFilesets }
{}

/// Two views that agree on all that held tokens cover: the need of a call on the one is its need on the other wherever
/// tokens cover either, and so is what becomes of the call. The need at which a walk stops is the first that isn't
/// covered, and there is one exactly where the call isn't covered.
pub fn alike_law()
    ensures views { NeedsAreAlike }
    ensures lacks { AllLacksAreFirst }
{}

/// The walks of looks over a tree end as those of the fileset.
pub fn walk_law()
    ensures { AllWalksEnd }
{}

/// A name that leads to a fileset leads to it for ever, wherever it moves.
pub fn name_law()
    ensures { NamesLeadOn }
{}

/// Which tokens show a part, and which let a host change it: what covers a need does, and what is in the way of the one
/// is in the way of the other. Views that agree on what tokens show agree on what they cover.
pub fn show_law()
    ensures tokens { TokensShowParts }
    ensures views { ShownAgree }
    ensures beyond { NothingBeyond }
{}

/// What a host that answers a call from its view leaves of each part under its tokens is what the call leaves in the
/// tree, for a Write above all. Calls that only tell, and those about labels, leave every part as it is, and so does a
/// Sync of an object of which nothing of the host is unsaved.
pub fn write_law()
    ensures answers { AnswersLeaveAlike }
    ensures tells { AnswersLeaveAll }
    ensures syncs { SyncsOfNothing }
{}

/// The needs of a call cover all that the host then does by itself: what a Write changes, and the exact lock or open.
pub fn need_law()
    ensures { NeedsSuffice }
{}

/// What some calls look at in small trees, and what they need, each by computing the definitions.
pub fn worked_law()
    ensures { WorkedLooks }
{}
