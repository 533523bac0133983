ghost use Rattle.script_lines.specs.declared.script.Script.{Script};
ghost use Rattle.run_rules.specs.declared.journal.Journal.{Journal};
ghost use Rattle.run_rules.specs.Runs.{IsRun, firsts_of, past_of};
ghost use Rattle.run_tokens.specs.CacheLaws.{NeverInConflict};
ghost use Rattle.run_tokens.specs.TokenLaws.{AreAlwaysSafe};

/// In every journal that is a run, after each step: no two hosts that haven't stopped hold conflicting tokens.
/// Moreover no two tokens that servers have granted conflict, in a grace period too, nor does one with what an exporter
/// keeps; what a live host holds is granted once it has reclaimed; no claim is refused but for tokens that the host no
/// longer has; no give-back and no Change of one number takes effect twice, over all epochs; and what an applied
/// give-back names isn't granted.
pub fn tokens_never_conflict()
    ensures apart { (script : Script) (journal : Journal) → IsRun script journal → NeverInConflict (past_of journal) }
    ensures safe { (script : Script) (journal : Journal)
        → IsRun script journal → AreAlwaysSafe (firsts_of journal) (past_of journal) }
{}
