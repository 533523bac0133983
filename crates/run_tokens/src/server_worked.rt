ghost use Rattle.std.specs.Prelude.{[], ◌∷◌};
ghost use Rattle.tree_objects.specs.Spans.{whole};
ghost use Rattle.run_rules.specs.Doings.{doings_of};
ghost use Rattle.run_tokens.specs.ServerRest.{ServerMeets};
ghost use Rattle.run_tokens.specs.Worked.{site_one, welcomes, tells, grants};
ghost use Rattle.run_tokens.specs.JournalWorked.{script, start};

/// The rules admit each step of a server that welcomes a host, tells it the number of a fileset, and grants it tokens
/// of the root.
pub fn a_server_serves()
    ensures welcomes { ServerMeets script start site_one [] (doings_of 1 site_one []) welcomes }
    ensures tells { ServerMeets script start site_one (welcomes ∷ []) (doings_of 1 site_one (welcomes ∷ [])) tells }
    ensures grants { ServerMeets script start site_one
        (tells ∷ welcomes ∷ []) (doings_of 1 site_one (tells ∷ welcomes ∷ [])) (grants whole) }
{}
