ghost use Rattle.run_parts.specs.Coherence.{HoldsInRuns};
ghost use Rattle.run_parts.specs.Legal.{Legal, SeesPresent, KeepsTree, LosesExactly, LiesInside};

/// In every list of steps that meets the rules of tokens and those of contents, restarts and grace periods included:
/// what a host sees under a token at hand in a step is what the tree has then; what a give-back stores is its host's
/// unsaved, of a file that can keep it, with bytes below the size that is left and a size between the kept and the
/// present one; and a Change finds nothing unsaved where it sets something, nor where it looks. After each step: what a
/// host sees under a token that it holds is present in the tree; what a server keeps is what the tree keeps; until a
/// server takes a host's Down, the host's unsaved bytes are exactly its dirty ones and those in its give-backs that
/// aren't applied; and what is unsaved lies inside a file that can keep it.
pub fn contents_are_coherent()
    ensures legal { HoldsInRuns Legal }
    ensures sees { HoldsInRuns (λ c firsts past. SeesPresent c past) }
    ensures keeps { HoldsInRuns KeepsTree }
    ensures losses { HoldsInRuns LosesExactly }
    ensures inside { HoldsInRuns LiesInside }
{}
